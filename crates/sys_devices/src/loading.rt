ghost use Rattle.std.specs.Prelude.{◌≡◌, ◌≤◌, ◌<◌, All, IfOk, length, map, vec_len};
ghost use Rattle.sys_devices.specs.Loads.{FirstMisfit, Loads, LoadsVolume, ReadsAll};
ghost use Rattle.sys_devices.specs.Rows.{FitRows, drive_at};
ghost use Rattle.sys_objects.specs.Condition.{IsVolume};
ghost use Rattle.sys_store.specs.Blocks.{blocks_of};

use crate::drives::{blocks_on, room};
use std::alloc::Global;
use sys_objects::VolumeRow;
use sys_store::Volumes;
use vv_base::NoMemory;
use vv_io::{Drive, DriveFault, get_from};

/// Why the volumes aren't loaded.
#[derive(Clone, Copy, Debug, PartialEq, Eq)]
pub enum LoadFault {
    /// The drive of this volume has another number of blocks.
    VolumeSize(u8),
    /// This drive failed.
    DriveIn(u8),
    /// Memory ran out.
    NoMemory,
}

impl From<NoMemory> for LoadFault {
    ghost use Rattle.sys_devices.specs.declared.loading.LoadFault.TheVariants.{NoMemory as OutOfMemory};

    ghost from_gives = { λ _ e. e ≡ OutOfMemory };

    fn from(_: NoMemory) -> LoadFault {
        LoadFault::NoMemory
    }
}

/// Volumes of as many blocks as the rows say, all bytes zero.
fn zero_volumes(alloc: Global, rows: &[VolumeRow]) -> Result<Volumes, NoMemory>
    ensures { IfOk result (λ volumes. FitRows rows.now volumes) }
{
    let mut sizes = Vec::new(alloc);
    for row in rows {
        sizes.push(row.blocks)?;
    }
    Volumes::new(alloc, &sizes)
}

/// Reads all blocks of a drive into the volume at a place, which has as many; the first fault ends it.
fn read_blocks(
    volumes: &mut Volumes,
    v: u8,
    drives: &mut Vec<Box<dyn Drive>>,
    k: usize,
) -> Result<(), DriveFault>
    requires volume { v < length volumes.old }
    requires drive { k < vec_len drives.old }
    requires size { length (blocks_of volumes.old v) ≡ (drive_at (map (λ d. kept d) drives.old.items) k).size }
    ensures reads { ReadsAll v k volumes.old volumes.new (map (λ d. kept d) drives.old.items) (map (λ d. kept d) drives.new.items) result }
    ensures len { vec_len drives.new ≡ vec_len drives.old }
{
    let count = blocks_on(drives, k);
    let mut bytes = room();
    for block in 0..count {
        get_from(drives, k, block, &mut bytes)?;
        let _ = volumes.write_block(v, block, &bytes);
    }
    Ok(())
}

/// Reads the blocks of the volume at a place from the drive of its row, if that has as many.
fn load_one(
    volumes: &mut Volumes,
    v: u8,
    row: &VolumeRow,
    drives: &mut Vec<Box<dyn Drive>>,
) -> Result<(), LoadFault>
    requires volume { v < length volumes.old }
    requires drive { row.now.drive < vec_len drives.old }
    requires size { length (blocks_of volumes.old v) ≡ row.now.blocks }
    ensures loads { LoadsVolume v row.now volumes.old volumes.new (map (λ d. kept d) drives.old.items) (map (λ d. kept d) drives.new.items) result }
    ensures len { vec_len drives.new ≡ vec_len drives.old }
{
    let k = usize::from(row.drive);
    if blocks_on(drives, k) != row.blocks {
        return Err(LoadFault::VolumeSize(v));
    }
    match read_blocks(volumes, v, drives, k) {
        Ok(()) => Ok(()),
        Err(DriveFault) => Err(LoadFault::DriveIn(row.drive)),
    }
}

/// Reads each volume's blocks from its drive, in the order of the rows.
pub fn load_volumes(
    alloc: Global,
    rows: &[VolumeRow],
    drives: &mut Vec<Box<dyn Drive>>,
) -> Result<Volumes, LoadFault>
    requires rows { All IsVolume rows.now }
    requires few { length rows.now ≤ 16 }
    requires drives { vec_len drives.old ≡ 16 }
    ensures loads { Loads rows.now (map (λ d. kept d) drives.old.items) (map (λ d. kept d) drives.new.items) result }
    ensures len { vec_len drives.new ≡ vec_len drives.old }
{
    let mut volumes = zero_volumes(alloc, rows)?;
    for (place, row) in rows.iter().enumerate() {
        load_one(&mut volumes, place as u8, row, drives)?;
    }
    Ok(volumes)
}

/// The first volume whose drive has another number of blocks than its row says. No block is read.
pub fn first_of_another_size(rows: &[VolumeRow], drives: &Vec<Box<dyn Drive>>) -> Option<u8>
    requires rows { All IsVolume rows.now }
    requires few { length rows.now ≤ 16 }
    requires drives { vec_len drives.now ≡ 16 }
    ensures { FirstMisfit rows.now (map (λ d. kept d) drives.now.items) result }
{
    for (place, row) in rows.iter().enumerate() {
        if blocks_on(drives, usize::from(row.drive)) != row.blocks {
            return Some(place as u8);
        }
    }
    None
}

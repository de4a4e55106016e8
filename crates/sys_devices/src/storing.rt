ghost use Rattle.std.specs.Prelude.{◌≡◌, ◌≢◌, ◌≤◌, ◌<◌, All, is_err, length, map, vec_len};
ghost use Rattle.std.specs.List.{AllPairs};
ghost use Rattle.sys_devices.specs.Rows.{FitRows, FitsDrive, drive_at};
ghost use Rattle.sys_devices.specs.Stores.{StoresAt, StoresOn, StoresToDrives};
ghost use Rattle.sys_objects.specs.Condition.{IsVolume};
ghost use Rattle.sys_store.specs.Blocks.{blocks_of};

use crate::drives::{blocks_on, room};
use sys_objects::VolumeRow;
use sys_store::Volumes;
use vv_io::{Drive, DriveFault, set_on};

/// Stores all blocks of the volume at a place to a drive, which has as many; the first fault ends it.
fn store_blocks(
    volumes: &Volumes,
    v: u8,
    drives: &mut Vec<Box<dyn Drive>>,
    k: usize,
) -> Result<(), DriveFault>
    requires volume { v < length volumes.now }
    requires drive { k < vec_len drives.old }
    requires size { length (blocks_of volumes.now v) ≡ (drive_at (map (λ d. kept d) drives.old.items) k).size }
    ensures stores { StoresOn k (is_err result) (map (λ d. kept d) drives.old.items) (map (λ d. kept d) drives.new.items) (blocks_of volumes.now v) }
    ensures len { vec_len drives.new ≡ vec_len drives.old }
{
    let count = blocks_on(drives, k);
    let mut bytes = room();
    for block in 0..count {
        let _ = volumes.read_block(v, block, &mut bytes);
        set_on(drives, k, block, &bytes)?;
    }
    Ok(())
}

/// Stores the volume at a place to a drive, if that isn't marked; a fault marks it.
fn store_at(
    volumes: &Volumes,
    v: u8,
    drive: u8,
    marks: &mut [bool; 16],
    drives: &mut Vec<Box<dyn Drive>>,
)
    requires volume { v < length volumes.now }
    requires drive { drive < 16 }
    requires drives { vec_len drives.old ≡ 16 }
    requires size { length (blocks_of volumes.now v) ≡ (drive_at (map (λ d. kept d) drives.old.items) drive).size }
    ensures stores { StoresAt drive marks.old marks.new (map (λ d. kept d) drives.old.items) (map (λ d. kept d) drives.new.items) (blocks_of volumes.now v) }
    ensures len { vec_len drives.new ≡ vec_len drives.old }
{
    let k = usize::from(drive);
    if !marks[k] {
        marks[k] = store_blocks(volumes, v, drives, k).is_err();
    }
}

/// Stores every block of every volume to its drive, in order; a drive that is marked gets none, and one that fails is
/// marked and gets no more.
pub fn store_volumes(
    rows: &[VolumeRow],
    volumes: &Volumes,
    marks: &mut [bool; 16],
    drives: &mut Vec<Box<dyn Drive>>,
)
    requires rows { All IsVolume rows.now }
    requires few { length rows.now ≤ 16 }
    requires drives { vec_len drives.old ≡ 16 }
    requires apart { AllPairs (λ v w. v.drive ≢ w.drive) rows.now }
    requires sizes { FitRows rows.now volumes.now }
    requires fit { All (FitsDrive (map (λ d. kept d) drives.old.items)) rows.now }
    ensures stores { StoresToDrives rows.now volumes.now marks.old marks.new (map (λ d. kept d) drives.old.items) (map (λ d. kept d) drives.new.items) }
    ensures len { vec_len drives.new ≡ vec_len drives.old }
{
    for (place, row) in rows.iter().enumerate() {
        store_at(volumes, place as u8, row.drive, marks, drives);
    }
}

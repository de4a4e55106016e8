ghost use Rattle.std.specs.Prelude.{◌≡◌, ◌≤◌, ◌<◌, ◌*◌, All, IfOk, None, length, map, slice_set};
ghost use Rattle.sys_devices.specs.Rows.{FitRows};
ghost use Rattle.sys_guests.specs.Layout.{guests_in};
ghost use Rattle.sys_guests.specs.Loads.{MemoryAlone};
ghost use Rattle.sys_guests.specs.Present.{HavePresent};
ghost use Rattle.sys_state.specs.FirstTouches.{none_touched};
ghost use Rattle.sys_objects.specs.Condition.{IsConfig, IsVolume};
ghost use Rattle.sys_store.specs.Blocks.{blocks_of};
ghost use Rattle.sys_system.specs.Given.{PowersWith, first_of_another_size, is_another_size};
ghost use Rattle.sys_system.specs.System.{IsSystem};

use crate::assembling::assemble;
use crate::power::PowerFault;
use crate::system::System;
use std::alloc::Global;
use sys_guests::first_misfit;
use sys_objects::{Config, VolumeRow};
use sys_store::Volumes;
use vax_hw::Hardware;
use vv_base::NoMemory;

/// Whether there are more or fewer blocks than the row says.
fn is_another_size(row: &VolumeRow, blocks: &[[u8; 512]]) -> bool
    ensures { result ≡ is_another_size row.now blocks.now }
{
    blocks.len() != row.blocks as usize
}

/// The first volume with more or fewer blocks than its row says.
fn first_of_another_size(rows: &[VolumeRow], given: &[Vec<[u8; 512]>]) -> Option<u8>
    requires volumes { length given.now ≡ length rows.now }
    requires few { length rows.now ≤ 16 }
    ensures first { result ≡ first_of_another_size rows.now (map (λ b. b.items) given.now) }
    ensures fit { result ≡ None → FitRows rows.now (map (λ b. b.items) given.now) }
{
    for (place, row) in rows.iter().enumerate() {
        if is_another_size(row, &given[place]) {
            return Some(place as u8);
        }
    }
    None
}

/// Writes these blocks into the volume at a place, which has as many.
fn write_blocks(volumes: &mut Volumes, v: u8, blocks: &[[u8; 512]])
    requires volume { v < length volumes.old }
    requires size { length (blocks_of volumes.old v) ≡ length blocks.now }
    requires few { length blocks.now ≤ 2048 }
    ensures { volumes.new ≡ slice_set volumes.old v blocks.now }
{
    for (block, bytes) in blocks.iter().enumerate() {
        let _ = volumes.write_block(v, block as u32, bytes);
    }
}

/// The sizes of volumes in blocks, by their rows.
fn sizes_of(alloc: Global, rows: &[VolumeRow]) -> Result<Vec<u32>, NoMemory>
    ensures { IfOk result (λ sizes. sizes.items ≡ map (λ row. row.blocks) rows.now) }
{
    let mut sizes = Vec::new(alloc);
    for row in rows {
        sizes.push(row.blocks)?;
    }
    Ok(sizes)
}

/// Volumes with the given blocks, which are as many for each as its row says.
pub fn volumes_of(
    alloc: Global,
    rows: &[VolumeRow],
    given: &[Vec<[u8; 512]>],
) -> Result<Volumes, NoMemory>
    requires rows { All IsVolume rows.now }
    requires few { length rows.now ≤ 16 }
    requires sizes { FitRows rows.now (map (λ b. b.items) given.now) }
    ensures { IfOk result (λ volumes. volumes ≡ map (λ b. b.items) given.now) }
{
    let sizes = sizes_of(alloc, rows)?;
    let mut volumes = Volumes::new(alloc, &sizes)?;
    for (place, blocks) in given.iter().enumerate() {
        write_blocks(&mut volumes, place as u8, blocks);
    }
    Ok(volumes)
}

impl System {
    /// Lays the guests of an accepted configuration out in a machine of 32,768 pages, loads their images, one for each, and
    /// copies the given blocks of the volumes, a list for each; no drive is read. Guests that start by themselves run. All
    /// memory is taken here. After a fault, which is never of a drive, the machine's memory may hold anything; its counts
    /// are as before.
    pub fn power_up_with<H: Hardware>(
        alloc: Global,
        config: Config,
        images: &[Vec<u8>],
        machine: &mut H,
        volumes: &[Vec<[u8; 512]>],
    ) -> Result<System, PowerFault>
        requires accepted { IsConfig config }
        requires images { length images.now ≡ length config.guests }
        requires volumes { length volumes.now ≡ length config.volumes }
        requires pages { length (H.machine machine.old).memory ≡ 512 * 32768 }
        ensures powers { PowersWith config (map (λ b. b.items) images.now) (map (λ b. b.items) volumes.now) (H.machine machine.new) result }
        ensures present { IfOk result (λ s. HavePresent s.guests (map none_touched (guests_in (H.machine machine.new).memory s.guests))) }
        ensures alone { MemoryAlone (H.machine machine.old) (H.machine machine.new) }
        ensures holds { IfOk result IsSystem }
    {
        if let Some(guest) = first_misfit(config.guests.as_slice(), images) {
            return Err(PowerFault::Image(guest));
        }
        let rows = config.volumes.as_slice();
        if let Some(volume) = first_of_another_size(rows, volumes) {
            return Err(PowerFault::VolumeSize(volume));
        }
        let copied = volumes_of(alloc, rows, volumes)?;
        let parts = assemble(alloc, config, images, machine, copied)?;
        Ok(System { parts })
    }
}

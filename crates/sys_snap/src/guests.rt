ghost use Rattle.std.specs.Prelude.{◌≡◌, ◌*◌, ◌≤◌, All, IfOk, length, map};
ghost use Rattle.sys_snap.specs.Held.{ArePlacedSnapshots, snapshot_guest};
ghost use Rattle.sys_snap.specs.Reader.{cut_blocks, guest_reading, record_in, volume_in};
ghost use Rattle.sys_snap.specs.Reading.{each};
ghost use Rattle.sys_snap.specs.Reads.{ReadsOrLacks, ReadsSeen};
ghost use Rattle.vm_state.specs.State.{HasPlace, state_of};

use crate::cursor::Cursor;
use crate::devices::{read_clock, read_console, read_end, read_queue};
use crate::fault::{SnapError, SnapFault};
use crate::registers::{read_bases, read_levels, read_registers};
use crate::snap::GuestSnap;
use std::alloc::{AllocError, Global};
use sys_objects::{GuestRow, VolumeRow};
use vm_state::GuestState;
use vv_base::NoMemory;

/// A guest's record, 439 bytes; its memory lies from a page of the machine on.
#[tactic(auto, unfolding(crate::specs::Reader::record_in))]
fn read_record(r: &mut Cursor, row: &GuestRow, base: u32) -> Result<GuestState, SnapFault>
    requires few { row.now.pages ≤ 2048 }
    ensures reads { ReadsSeen state_of (record_in (512 * row.now.pages) row.now.modify_faults) r.old r.new result }
    ensures place { IfOk result (λ g. HasPlace row.now.pages base row.now.start g) }
{
    let registers = read_registers(r)?;
    let general = registers.r;
    let stacks = registers.stacks;
    let bases = read_bases(r)?;
    let levels = read_levels(r)?;
    let clock = read_clock(r)?;
    let console = read_console(r)?;
    let queue = read_queue(r, 512 * row.pages)?;
    let end = read_end(r)?;
    Ok(GuestState {
        r: general,
        psl: registers.psl,
        stacks,
        p0br: bases.p0br,
        p0lr: bases.p0lr,
        p1br: bases.p1br,
        p1lr: bases.p1lr,
        sbr: bases.sbr,
        slr: bases.slr,
        pcbb: bases.pcbb,
        scbb: bases.scbb,
        astlvl: levels.astlvl,
        sisr: levels.sisr,
        mapen: levels.mapen,
        clock,
        console,
        kcall_due: queue.due,
        queue: queue.packets,
        waiting: end.waiting,
        halt: end.halt,
        steps: end.steps,
        pages: row.pages,
        base,
        start: row.start,
        modify_faults: row.modify_faults,
    })
}

/// A guest's record and its memory.
#[tactic(auto, unfolding(crate::specs::Reader::guest_reading))]
fn read_guest(
    alloc: Global,
    r: &mut Cursor,
    row: &GuestRow,
    base: u32,
) -> Result<GuestSnap, SnapError>
    requires few { row.now.pages ≤ 2048 }
    ensures reads { ReadsOrLacks snapshot_guest (guest_reading row.now) r.old r.new result }
    ensures place { IfOk result (λ g. HasPlace row.now.pages base row.now.start g.state) }
{
    let state = read_record(r, row, base)?;
    let bytes = r.cut(512 * row.pages)?;
    let memory = Vec::from_slice(alloc, bytes)?;
    Ok(GuestSnap { state, memory })
}

/// The guests of the rows, with their memories one after another from page 0 on.
pub fn read_guests(
    alloc: Global,
    r: &mut Cursor,
    rows: &[GuestRow],
) -> Result<Vec<GuestSnap>, SnapError>
    requires count { length rows.now ≤ 16 }
    requires few { All (λ row. row.pages ≤ 2048) rows.now }
    ensures reads { ReadsOrLacks (λ guests. map snapshot_guest guests.items) (each guest_reading rows.now) r.old r.new result }
    ensures places { IfOk result (λ guests. ArePlacedSnapshots 0 rows.now guests.items) }
{
    let mut guests = Vec::new(alloc);
    let mut base = 0;
    for row in rows {
        guests.push(read_guest(alloc, r, row, base)?)?;
        base += row.pages;
    }
    Ok(guests)
}

/// Bytes as `count` blocks of 512.
fn blocks_of(alloc: Global, bytes: &[u8], count: u32) -> Result<Vec<[u8; 512]>, NoMemory>
    requires { length bytes.now ≡ 512 * count }
    ensures { IfOk result (λ blocks. blocks.items ≡ cut_blocks count bytes.now) }
{
    let mut all = Vec::with_capacity(alloc, count as usize)?;
    let mut rest = bytes;
    for _left in (0..count).rev() {
        let (first, others) = rest.split_at(512);
        let mut block = [0; 512];
        block.copy_from_slice(first);
        all.push(block)?;
        rest = others;
    }
    Ok(all)
}

/// The blocks of a volume.
fn read_volume(alloc: Global, r: &mut Cursor, row: &VolumeRow) -> Result<Vec<[u8; 512]>, SnapError>
    requires { row.now.blocks ≤ 2048 }
    ensures { ReadsOrLacks (λ blocks. blocks.items) (volume_in row.now) r.old r.new result }
{
    let bytes = r.cut(512 * row.blocks)?;
    Ok(blocks_of(alloc, bytes, row.blocks)?)
}

/// The blocks of each volume.
pub fn read_volumes(
    alloc: Global,
    r: &mut Cursor,
    rows: &[VolumeRow],
) -> Result<Vec<Vec<[u8; 512]>>, SnapError>
    requires { All (λ row. row.blocks ≤ 2048) rows.now }
    ensures { ReadsOrLacks (λ volumes. map (λ blocks. blocks.items) volumes.items) (each volume_in rows.now) r.old r.new result }
{
    let mut volumes = Vec::new(alloc);
    for row in rows {
        volumes.push(read_volume(alloc, r, row)?)?;
    }
    Ok(volumes)
}

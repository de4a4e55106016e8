ghost use Rattle.std.specs.Prelude.{◌≡◌, ◌≤◌, ◌<◌, ◌+◌, ◌*◌, ◌^◌, All, IfOk, None, [], length, map};
ghost use Rattle.std.specs.List.{sum_by};
ghost use Rattle.sys_guests.specs.Layout.{AreInMachine, guests_in};
ghost use Rattle.sys_guests.specs.Loads.{HasFirst, LoadsGuest, MemoryAlone, first_misfit, is_misfit};
ghost use Rattle.sys_guests.specs.Present.{HavePresent};
ghost use Rattle.sys_objects.specs.Condition.{IsGuest};
ghost use Rattle.sys_state.specs.FirstTouches.{none_touched};
ghost use Rattle.sys_state.specs.Guests.{powered};
ghost use Rattle.sys_state.specs.Places.{beside_with};
ghost use Rattle.vm_state.specs.Allowed.{AreAllowed};
ghost use Rattle.vm_state.specs.State.{HasPlace, state_of};

use crate::placing::{TABLE_PAGES, all_pages, place_guest};
use std::alloc::Global;
use sys_objects::GuestRow;
use vax_hw::Hardware;
use vm_guest::Guest;
use vm_state::GuestState;
use vv_base::NoMemory;

/// Whether an image with its place doesn't fit the guest's memory.
fn is_misfit(row: &GuestRow, image: &[u8]) -> bool
    requires pages { row.now.pages ≤ 2048 }
    requires load { row.now.load < 2 ^ 32 }
    ensures { result ≡ is_misfit row.now image.now }
{
    512 * (row.pages as usize) < row.load as usize + image.len()
}

/// The first guest whose image doesn't fit.
pub fn first_misfit(rows: &[GuestRow], images: &[Vec<u8>]) -> Option<u8>
    requires images { length images.now ≡ length rows.now }
    requires few { length rows.now ≤ 16 }
    requires guests { All IsGuest rows.now }
    ensures { result ≡ first_misfit rows.now (map (λ b. b.items) images.now) }
{
    for (place, row) in rows.iter().enumerate() {
        if is_misfit(row, &images[place]) {
            return Some(place as u8);
        }
    }
    None
}

/// The registers of a row's guest at power-up, with its memory from a page of the machine on; it runs where its row says so.
fn first_state(row: &GuestRow, base: u32) -> GuestState
    requires guest { IsGuest row.now }
    requires inside { base + row.now.pages ≤ 32768 }
    ensures state { state_of result ≡ (powered row.now []).state }
    ensures place { HasPlace row.now.pages base row.now.start result }
    ensures allowed { AreAllowed (512 * row.now.pages) (state_of result) }
{
    let mut state = GuestState::new(row.pages, base, row.start, row.modify_faults);
    if row.autostart {
        state.reset();
    }
    state
}

/// Loads an image, and makes the guest of its row there, with its tables from these pages on; it runs where its row says so.
fn load_guest<H: Hardware>(
    alloc: Global,
    machine: &mut H,
    row: &GuestRow,
    image: &[u8],
    base: u32,
    tables: u32,
) -> Result<Guest, NoMemory>
    requires guest { IsGuest row.now }
    requires order { base + row.now.pages ≤ tables }
    requires tables { tables + 580 ≤ 32768 }
    requires fits { row.now.load + length image.now ≤ 512 * row.now.pages }
    requires pages { length (H.machine machine.old).memory ≡ 512 * 32768 }
    ensures ok { IfOk result (LoadsGuest row.now image.now base tables (H.machine machine.old).memory (H.machine machine.new).memory) }
    ensures present { IfOk result HasFirst }
    ensures alone { MemoryAlone (H.machine machine.old) (H.machine machine.new) }
{
    let state = first_state(row, base);
    place_guest(alloc, machine, state, row.load, image, tables)
}

/// Lays the guests of rows out in the machine, and loads their images. All memory is taken here; after `NoMemory` the machine's
/// memory may hold anything.
pub fn load_guests<H: Hardware>(
    alloc: Global,
    rows: &[GuestRow],
    images: &[Vec<u8>],
    machine: &mut H,
) -> Result<Vec<Guest>, NoMemory>
    requires images { length images.now ≡ length rows.now }
    requires few { length rows.now ≤ 16 }
    requires guests { All IsGuest rows.now }
    requires some_pages { sum_by (λ row. row.pages) rows.now ≤ 16384 }
    requires fit { first_misfit rows.now (map (λ b. b.items) images.now) ≡ None }
    requires pages { length (H.machine machine.old).memory ≡ 512 * 32768 }
    ensures placed { IfOk result (λ guests. AreInMachine rows.now (H.machine machine.new).memory guests.items) }
    ensures guests { IfOk result (λ guests. guests_in (H.machine machine.new).memory guests.items ≡ beside_with powered rows.now (map (λ b. b.items) images.now)) }
    ensures present { IfOk result (λ guests. HavePresent guests.items (map none_touched (guests_in (H.machine machine.new).memory guests.items))) }
    ensures alone { MemoryAlone (H.machine machine.old) (H.machine machine.new) }
{
    let mut guests = Vec::with_capacity(alloc, rows.len())?;
    let mut base = 0;
    let mut tables = all_pages(rows);
    for (place, row) in rows.iter().enumerate() {
        guests.push(load_guest(alloc, machine, row, &images[place], base, tables)?)?;
        base += row.pages;
        tables += TABLE_PAGES;
    }
    Ok(guests)
}

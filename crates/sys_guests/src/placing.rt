ghost use Rattle.std.specs.Prelude.{◌≡◌, ◌≤◌, ◌+◌, ◌*◌, All, IfOk, length, map};
ghost use Rattle.std.specs.List.{AllZip, sum_by};
ghost use Rattle.sys_guests.specs.Layout.{AreInMachine, guests_in};
ghost use Rattle.sys_guests.specs.Loads.{HasFirst, MemoryAlone, PutsIn};
ghost use Rattle.sys_guests.specs.Present.{HavePresent};
ghost use Rattle.sys_objects.specs.Condition.{IsGuest};
ghost use Rattle.sys_state.specs.FirstTouches.{none_touched};
ghost use Rattle.sys_snap.specs.Held.{ArePlacedSnapshots, snapshot_guest};
ghost use Rattle.sys_snap.specs.Snap.{IsGuestOf};
ghost use Rattle.vm_state.specs.Allowed.{AreAllowed};
ghost use Rattle.vm_state.specs.Start.{memory_with_image};
ghost use Rattle.vm_state.specs.State.{state_of};

use crate::image::load_image;
use std::alloc::Global;
use sys_objects::GuestRow;
use sys_snap::GuestSnap;
use vax_hw::Hardware;
use vm_guest::Guest;
use vm_state::GuestState;
use vv_base::NoMemory;

/// Machine pages of each guest's real tables.
pub const TABLE_PAGES: u32 = 580;

/// All pages of the guests' memories.
pub fn all_pages(rows: &[GuestRow]) -> u32
    requires { sum_by (λ row. row.pages) rows.now ≤ 16384 }
    ensures { result ≡ sum_by (λ row. row.pages) rows.now }
{
    rows.iter().map(|row| row.pages).sum()
}

/// Clears a guest's pages of the machine, copies an image to a place in them, and makes the guest with these registers over
/// them, with its tables from a page on.
pub fn place_guest<H: Hardware>(
    alloc: Global,
    machine: &mut H,
    state: GuestState,
    load: u32,
    image: &[u8],
    tables: u32,
) -> Result<Guest, NoMemory>
    requires few { state.pages ≤ 2048 }
    requires order { state.base + state.pages ≤ tables }
    requires tables { tables + 580 ≤ 32768 }
    requires fits { load + length image.now ≤ 512 * state.pages }
    requires allowed { AreAllowed (512 * state.pages) (state_of state) }
    requires pages { length (H.machine machine.old).memory ≡ 512 * 32768 }
    ensures ok { IfOk result (PutsIn state tables (memory_with_image (512 * state.pages) load image.now)
        (H.machine machine.old).memory (H.machine machine.new).memory) }
    ensures present { IfOk result HasFirst }
    ensures alone { MemoryAlone (H.machine machine.old) (H.machine machine.new) }
{
    load_image(machine, state.base, state.pages, load, image);
    Guest::of_state(alloc, machine, state, tables)
}

/// Lays guests out in the machine where the guests of these rows lie at power-up, each with its registers and its memory. All
/// memory is taken here; after `NoMemory` the machine's memory may hold anything.
pub fn place_guests<H: Hardware>(
    alloc: Global,
    rows: &[GuestRow],
    snaps: Vec<GuestSnap>,
    machine: &mut H,
) -> Result<Vec<Guest>, NoMemory>
    requires few { length rows.now ≤ 16 }
    requires guests { All IsGuest rows.now }
    requires some_pages { sum_by (λ row. row.pages) rows.now ≤ 16384 }
    requires are { AllZip IsGuestOf rows.now (map snapshot_guest snaps.items) }
    requires places { ArePlacedSnapshots 0 rows.now snaps.items }
    requires pages { length (H.machine machine.old).memory ≡ 512 * 32768 }
    ensures placed { IfOk result (λ guests. AreInMachine rows.now (H.machine machine.new).memory guests.items) }
    ensures guests { IfOk result (λ guests. guests_in (H.machine machine.new).memory guests.items ≡ map snapshot_guest snaps.items) }
    ensures present { IfOk result (λ guests. HavePresent guests.items (map none_touched (guests_in (H.machine machine.new).memory guests.items))) }
    ensures alone { MemoryAlone (H.machine machine.old) (H.machine machine.new) }
{
    let mut guests = Vec::with_capacity(alloc, rows.len())?;
    let mut tables = all_pages(rows);
    for snap in snaps {
        let GuestSnap { state, memory } = snap;
        guests.push(place_guest(alloc, machine, state, 0, &memory, tables)?)?;
        tables += TABLE_PAGES;
    }
    Ok(guests)
}

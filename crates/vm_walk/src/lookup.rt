ghost use Rattle.std.specs.Prelude.{◌≡◌, ◌≤◌, ◌<◌, ◌+◌, ◌*◌, ◌^◌, length};
ghost use Rattle.vax_arch.specs.Walk.{in_memory, mapped_entry, process_entry, process_page, system_entry, through_system_entry};
ghost use Rattle.vax_arch.specs.WalkLaws.{IsInside};
ghost use Rattle.vm_state.specs.Partition.{guest_of, partition_of};
ghost use Rattle.vm_state.specs.State.{tables_of};
ghost use Rattle.vm_state.specs.Translation.{look};

use crate::partition::{is_past, read_long};
use vax_arch::{Lookup, Pte, REGION};
use vax_hw::Hardware;
use vm_state::GuestState;

/// A length violation of the page itself.
const TOO_LONG: Lookup = Lookup::Fails {
    not_valid: false,
    parameter: 1,
};

/// A length violation of the page's entry: it isn't at a system address that the system table has.
const NO_TABLE: Lookup = Lookup::Fails {
    not_valid: false,
    parameter: 3,
};

/// The page of the page's entry is not valid.
const ABSENT_TABLE: Lookup = Lookup::Fails {
    not_valid: true,
    parameter: 2,
};

/// An entry at a physical place, if that is in the guest's memory.
fn in_memory(g: &GuestState, table: Option<u32>, place: u64) -> Lookup
    requires small { place < 2 ^ 60 }
    requires few { g.now.pages ≤ 65536 }
    ensures { result ≡ in_memory (512 * g.now.pages) table place }
{
    if is_past(g, place, 4) {
        Lookup::Beyond
    } else {
        Lookup::Found {
            place: place as u32,
            table,
        }
    }
}

/// The place of the system table's entry of a page.
fn in_system_table(g: &GuestState, page: u32) -> u64
    requires { page < 2 ^ 23 }
    ensures value { result ≡ g.now.sbr + 4 * page }
    ensures small { result < 2 ^ 60 }
{
    u64::from(g.sbr) + 4 * u64::from(page)
}

/// The entry of a system page, by its number in the region.
#[tactic(auto, unfolding(vax_arch::specs::Walk::system_entry))]
fn system_entry(g: &GuestState, page: u32) -> Lookup
    requires page { page < 2 ^ 21 }
    requires few { g.now.pages ≤ 65536 }
    ensures { result ≡ system_entry (512 * g.now.pages) (tables_of g.now) page }
{
    if g.slr <= page {
        return TOO_LONG;
    }
    in_memory(g, None, in_system_table(g, page))
}

/// The process entry at a virtual address, whose page's own entry is at the physical place `table`.
fn after_table<H: Hardware>(machine: &H, g: &GuestState, at: u32, table: u64) -> Lookup
    requires partition { 512 * (g.now.base + g.now.pages) ≤ length (H.machine machine.now).memory }
    requires small { table < 2 ^ 60 }
    requires few { g.now.pages ≤ 65536 }
    ensures { result ≡ through_system_entry (512 * g.now.pages) (partition_of (H.machine machine.now).memory g.now) at table }
{
    if is_past(g, table, 4) {
        return Lookup::Beyond;
    }
    let entry = Pte(read_long(machine, g, table as u32));
    let frame = 512 * u64::from(entry.frame());
    if !entry.valid() {
        ABSENT_TABLE
    } else if is_past(g, frame, 512) {
        Lookup::Beyond
    } else {
        in_memory(g, Some(table as u32), frame + u64::from(at % 512))
    }
}

/// The process entry at a virtual address, which must be a system address that the system table has.
#[tactic(auto, unfolding(vax_arch::specs::Walk::process_entry))]
fn process_entry<H: Hardware>(machine: &H, g: &GuestState, at: u32) -> Lookup
    requires partition { 512 * (g.now.base + g.now.pages) ≤ length (H.machine machine.now).memory }
    requires few { g.now.pages ≤ 65536 }
    ensures { result ≡ process_entry (512 * g.now.pages) (partition_of (H.machine machine.now).memory g.now) (tables_of g.now) at }
{
    let page = at / 512;
    if page / REGION != 2 || g.slr <= page % REGION {
        return NO_TABLE;
    }
    after_table(machine, g, at, in_system_table(g, page % REGION))
}

/// The entry of a process page, by its number in the region, in the table from a base on.
fn process_page<H: Hardware>(machine: &H, g: &GuestState, base: u32, page: u32) -> Lookup
    requires partition { 512 * (g.now.base + g.now.pages) ≤ length (H.machine machine.now).memory }
    requires page { page < 2 ^ 21 }
    requires few { g.now.pages ≤ 65536 }
    ensures { result ≡ process_page (512 * g.now.pages) (partition_of (H.machine machine.now).memory g.now) (tables_of g.now) base page }
{
    process_entry(machine, g, base.wrapping_add(4 * page))
}

/// The entry of a page, with mapping on.
#[tactic(auto, unfolding(vax_arch::specs::Walk::mapped_entry))]
fn mapped_entry<H: Hardware>(machine: &H, g: &GuestState, page: u32) -> Lookup
    requires partition { 512 * (g.now.base + g.now.pages) ≤ length (H.machine machine.now).memory }
    requires page { page < 2 ^ 23 }
    requires few { g.now.pages ≤ 65536 }
    ensures { result ≡ mapped_entry (512 * g.now.pages) (partition_of (H.machine machine.now).memory g.now) (tables_of g.now) page }
{
    let in_region = page % REGION;
    match page / REGION {
        0 if in_region < g.p0lr => process_page(machine, g, g.p0br, in_region),
        1 if g.p1lr <= in_region => process_page(machine, g, g.p1br, in_region),
        2 => system_entry(g, in_region),
        _ => TOO_LONG,
    }
}

/// The look-up of a page of the guest, which is an address divided by 512: where its entry is, whatever that allows.
/// Places are physical in the guest's memory.
#[tactic(auto, unfolding(vax_arch::specs::Walk::lookup), using(vm_state::proofs::Parts::part_length, vm_state::proofs::Parts::inside_by))]
pub fn look_up<H: Hardware>(machine: &H, g: &GuestState, page: u32) -> Lookup
    requires partition { 512 * (g.now.base + g.now.pages) ≤ length (H.machine machine.now).memory }
    requires page { page < 2 ^ 23 }
    ensures is { result ≡ look (guest_of (H.machine machine.now).memory g.now) page }
    ensures inside { IsInside (512 * g.now.pages) result }
{
    let _all = machine.pages();
    if g.mapen {
        mapped_entry(machine, g, page)
    } else if is_past(g, 512 * u64::from(page), 512) {
        Lookup::Beyond
    } else {
        Lookup::Direct { frame: page }
    }
}

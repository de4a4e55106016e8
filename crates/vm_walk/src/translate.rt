ghost use Rattle.std.specs.Prelude.{◌≡◌, ◌≤◌, ◌<◌, ◌+◌, ◌*◌, length};
ghost use Rattle.vax_arch.specs.Ring.{open_of};
ghost use Rattle.vax_arch.specs.Walk.{granted, page_of};
ghost use Rattle.vax_arch.specs.WalkLaws.{HasFrame, IsInside};
ghost use Rattle.vm_state.specs.Partition.{guest_of};
ghost use Rattle.vm_state.specs.Translation.{at_entry, look, memory_fault, walk_of};

use crate::lookup::look_up;
use crate::partition::{is_past, read_long};
use vax_arch::{Grant, Intent, Lookup, Mode, Pte, ring_may};
use vax_hw::Hardware;
use vm_state::{GuestState, MemFault, Walk};

/// What an entry gives a mode: its code is asked first, then whether it is valid, then its frame.
#[tactic(auto, unfolding(vax_arch::specs::Walk::granted))]
fn granted(g: &GuestState, entry: Pte, m: Mode, i: Intent) -> Grant
    ensures is { result ≡ granted open_of (512 * g.now.pages) entry.0 m i }
    ensures frame { HasFrame result }
{
    let frame = entry.frame();
    if !ring_may(entry.prot(), m, i) {
        Grant::Refused
    } else if !entry.valid() {
        Grant::Absent
    } else if is_past(g, 512 * u64::from(frame), 512) {
        Grant::Past
    } else {
        Grant::Granted { frame }
    }
}

/// A fault at an address; bit 2 of its parameter says that the byte was to be written.
fn fault(not_valid: bool, va: u32, parameter: u8, i: Intent) -> MemFault
    requires { parameter < 4 }
    ensures { result ≡ memory_fault not_valid va parameter i }
{
    let write = match i {
        Intent::Read => 0,
        Intent::Write => 4,
    };
    MemFault {
        not_valid,
        va,
        param: parameter + write,
    }
}

/// What the entry at a place gives for an address.
fn at_entry(va: u32, i: Intent, place: u32, table: Option<u32>, grant: Grant) -> Walk
    requires { HasFrame grant }
    ensures { result ≡ at_entry va i place table grant }
{
    match grant {
        Grant::Granted { frame } => Walk::Frame {
            pa: 512 * frame + va % 512,
            entry: Some(place),
            table,
        },
        Grant::Refused => Walk::Fault(fault(false, va, 0, i)),
        Grant::Absent => Walk::Fault(fault(true, va, 0, i)),
        Grant::Past => Walk::Beyond,
    }
}

/// An address of the guest translated in a mode, for reading or writing, by the look-up of its page.
#[tactic(auto, unfolding(vm_state::specs::Translation::walk_of), using(vm_state::proofs::Parts::part_length))]
pub fn walk_found<H: Hardware>(
    machine: &H,
    g: &GuestState,
    va: u32,
    m: Mode,
    i: Intent,
    seen: Lookup,
) -> Walk
    requires partition { 512 * (g.now.base + g.now.pages) ≤ length (H.machine machine.now).memory }
    requires seen { seen ≡ look (guest_of (H.machine machine.now).memory g.now) (page_of va) }
    requires inside { IsInside (512 * g.now.pages) seen }
    ensures { result ≡ walk_of (guest_of (H.machine machine.now).memory g.now) va m i }
{
    match seen {
        Lookup::Found { place, table } => {
            let entry = Pte(read_long(machine, g, place));
            at_entry(va, i, place, table, granted(g, entry, m, i))
        }
        Lookup::Direct { .. } => Walk::Frame {
            pa: va,
            entry: None,
            table: None,
        },
        Lookup::Fails {
            not_valid,
            parameter,
        } => Walk::Fault(fault(not_valid, va, parameter, i)),
        Lookup::Beyond => Walk::Beyond,
    }
}

/// An address of the guest translated in a mode, for reading or writing, over the guest's own tables in its part of the
/// machine's memory. All places are physical in the guest's memory.
pub fn walk<H: Hardware>(machine: &H, g: &GuestState, va: u32, m: Mode, i: Intent) -> Walk
    requires { 512 * (g.now.base + g.now.pages) ≤ length (H.machine machine.now).memory }
    ensures { result ≡ walk_of (guest_of (H.machine machine.now).memory g.now) va m i }
{
    let seen = look_up(machine, g, va / 512);
    walk_found(machine, g, va, m, i, seen)
}

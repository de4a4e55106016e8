ghost use Rattle.std.specs.Prelude.{◌≡◌, ◌≤◌, ◌+◌, ◌*◌, ℕ, List, length};
ghost use Rattle.vax_arch.specs.Walk.{page_of};
ghost use Rattle.vm_exception.specs.Standing.{standing};
ghost use Rattle.vm_stepping.specs.Guarded.{CanAllow, CanClose, ClosesAfter, GrantsOrOpens, IsGuarded, IsTried, RunsSome, is_retired};
ghost use Rattle.vm_shadow.specs.Layout.{IsCovered};
ghost use Rattle.vm_shadow.specs.Shadowed.{Fits};
ghost use Rattle.vm_shadow.specs.StandsFor.{HasModifiedPage, StandsFor, own_number};
ghost use Rattle.vm_simulation_laws.specs.Loaded.{RunsGuest};
ghost use Rattle.vm_state.specs.Partition.{guest_of};
ghost use Rattle.vm_state.specs.Translation.{is_clear};

use crate::bursts::{Ran, take_back};
use vax_arch::{Lookup, Pte};
use vax_hw::{Exit, Hardware};
use vm_shadow::Shadow;
use vm_state::GuestState;
use vm_walk::look_up;

/// Whether the modify bit of an address's page is clear in the guest's own tables.
#[tactic(auto, using(vm_state::proofs::Parts::part_length, vm_state::proofs::Parts::part_long))]
pub fn is_clear<H: Hardware>(machine: &H, g: &GuestState, va: u32) -> bool
    requires { 512 * (g.now.base + g.now.pages) ≤ length (H.machine machine.now).memory }
    ensures { result ≡ is_clear (guest_of (H.machine machine.now).memory g.now) va }
{
    let _all = machine.pages();
    match look_up(machine, g, va / 512) {
        Lookup::Found { place, .. } => !Pte(machine.read_long(512 * g.base + place)).modified(),
        _ => false,
    }
}

/// Whether the instruction retired.
fn is_retired(exit: &Exit) -> bool
    ensures { result ≡ is_retired exit.now }
{
    matches!(exit, Exit::Budget | Exit::Arithmetic { .. })
}

/// Makes a page writable whose modify bit is set in the guest's own tables: it is granted for good, where no entry was read
/// from its frame; else it is opened for one instruction, and the answer is its frame.
fn allow<H: Hardware>(machine: &mut H, s: &mut Shadow, va: u32) -> Option<u32>
    requires fits { Fits (H.machine machine.old).memory s.old }
    requires covered { IsCovered (page_of va) }
    requires marked { HasModifiedPage (H.machine machine.old).memory s.old (own_number s.old (page_of va)) }
    ensures { GrantsOrOpens va (H.machine machine.old) s.old result (H.machine machine.new) s.new }
{
    if s.grant_write(machine, va) {
        return None;
    }
    Some(s.open_write(machine, va))
}

/// Closes a page that was opened. After an instruction that retired, what was read from its frame is dropped.
fn close_after<H: Hardware>(
    machine: &mut H,
    s: &mut Shadow,
    va: u32,
    frame: Option<u32>,
    exit: &Exit,
)
    requires keeps { CanClose frame (is_retired exit.now) (H.machine machine.old) s.old }
    requires covered { IsCovered (page_of va) }
    ensures { ClosesAfter (own_number s.old (page_of va)) frame (is_retired exit.now) (H.machine machine.old, s.old) (H.machine machine.new, s.new) }
{
    let Some(frame) = frame else {
        return;
    };
    if !is_retired(exit) {
        s.close_write(machine, va);
        return;
    }
    s.note_write(machine, frame);
    s.close_write(machine, va);
}

/// Runs the guest's instruction, which the machine has. A page that it writes, and whose modify bit is set in the guest's own
/// tables, is granted for good, where no entry was read from its frame, and else opened for this instruction alone. What was
/// read from the frame is dropped after it.
#[cycle(complete)]
fn complete<H: Hardware>(machine: &mut H, s: &mut Shadow, g: &GuestState) -> Exit
    requires { RunsSome (H.machine machine.old) s.old g.now }
    ensures { (opened : List ℕ) → RunsGuest opened (H.machine machine.old) s.old g.now →
        IsTried result opened (standing (H.machine machine.old) s.old g.now) (H.machine machine.new) s.new }
{
    let exit = machine.run(1);
    let Exit::Modify { va } = exit else {
        return exit;
    };
    if is_clear(machine, g, va) {
        return exit;
    }
    complete_written(machine, s, g, va)
}

/// Runs the guest's instruction, as `complete` does, where it is known to write an address's page, whose modify bit is set in the
/// guest's own tables.
#[cycle(complete)]
fn complete_written<H: Hardware>(machine: &mut H, s: &mut Shadow, g: &GuestState, va: u32) -> Exit
    requires runs { RunsSome (H.machine machine.old) s.old g.now }
    requires written { CanAllow va (H.machine machine.old) s.old g.now }
    ensures { (opened : List ℕ) → RunsGuest opened (H.machine machine.old) s.old g.now →
        IsTried result opened (standing (H.machine machine.old) s.old g.now) (H.machine machine.new) s.new }
{
    let frame = allow(machine, s, va);
    let exit = complete(machine, s, g);
    close_after(machine, s, va, frame, &exit);
    exit
}

/// Runs one instruction of a guest, whose step is counted, where the machine exited at a page's clear modify bit that is set in
/// the guest's own tables. Such pages that the instruction writes are granted, or opened for it alone. Answers what the machine
/// did.
pub fn run_guarded<H: Hardware>(machine: &mut H, s: &mut Shadow, g: &mut GuestState, va: u32) -> Ran
    requires stands { StandsFor (H.machine machine.old).memory s.old g.old }
    requires written { CanAllow va (H.machine machine.old) s.old g.old }
    ensures { IsGuarded result.exit result.terms (standing (H.machine machine.old) s.old g.old) (standing (H.machine machine.new) s.new g.new) }
{
    let trail = machine.trail();
    machine.load_world(&s.world(g));
    let exit = complete_written(machine, s, g, va);
    take_back(g, &machine.save_world());
    Ran {
        done: u32::from(is_retired(&exit)),
        terms: machine.trail().wrapping_sub(trail),
        exit,
    }
}

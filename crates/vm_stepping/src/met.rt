ghost use Rattle.std.specs.Prelude.{◌≡◌, ◌<◌, ◌^◌, true};
ghost use Rattle.vax_table.specs.Interaction.{Test};
ghost use Rattle.vax_table.specs.Tries.{Stopped};
ghost use Rattle.vax_table.specs.Troubles.{intent_of};
ghost use Rattle.vm_exception.specs.Standing.{standing};
ghost use Rattle.vm_stepping.specs.Guarded.{CanAllow, ExitIsMet};
ghost use Rattle.vm_exception.specs.Noted.{note_of_instruction};
ghost use Rattle.vm_exception.specs.Initiated.{IsProper};
ghost use Rattle.vm_simulation_laws.specs.Runs.{Reaches};
ghost use Rattle.vm_shadow.specs.StandsFor.{StandsFor};
ghost use Rattle.vm_simulation_laws.specs.Bursts.{missed_by};
ghost use Rattle.vm_simulation_laws.specs.Laws.{Meets};
ghost use Rattle.vm_simulation_laws.specs.Loaded.{guest_try};
ghost use Rattle.vm_state.specs.Partition.{guest_of};
ghost use Rattle.vm_state.specs.Sensed.{refused_as};
ghost use Rattle.vm_stepping.specs.Advances.{StepsOrRefills};
ghost use Rattle.vm_stepping.specs.Made.{IsMet, steps_in, underway};
ghost use Rattle.vm_stepping.specs.Noted.{NotesMet, note_here};
ghost use Rattle.vm_stepping.specs.Pays.{PaysFor};
ghost use Rattle.vm_simulation_laws.specs.Touched.{AreFilled, touches_now};

use crate::Counts;
use crate::guarded::{is_clear, run_guarded};
use crate::made::{fault, meet_clear};
use crate::missing::{Missing, meet_missing};
use crate::sensing::sense;
use vax_arch::Intent;
use vax_hw::{Exit, Hardware};
use vax_table::Refusal;
use vm_console::Port;
use vm_exception::{Note, begin};
use vm_shadow::Shadow;
use vm_state::{Exc, GuestState};

/// The fault of an instruction that the machine refuses.
fn refused_as(refusal: Refusal) -> Exc
    ensures is { result ≡ refused_as refusal }
    ensures proper { IsProper result }
{
    match refusal {
        Refusal::Instruction => Exc::ReservedInstruction,
        Refusal::ReservedOperand => Exc::ReservedOperand,
        Refusal::Addressing => Exc::ReservedAddressing,
        Refusal::Customer => Exc::Customer,
        Refusal::Breakpoint => Exc::Breakpoint,
    }
}

/// What a reference is for that a page was missed by.
fn intent_of(write: bool) -> Intent
    ensures { result ≡ intent_of write }
{
    if write { Intent::Write } else { Intent::Read }
}

/// A refused instruction is the guest's fault.
fn refuse<H: Hardware, T: Port>(
    machine: &mut H,
    s: &mut Shadow,
    g: &mut GuestState,
    port: &mut T,
    counts: &mut Counts,
    note: &mut Note,
    refusal: Refusal,
)
    requires stands { StandsFor (H.machine machine.old).memory s.old g.old }
    requires room { steps_in counts.old < 2 ^ 32 }
    requires refused { guest_try (guest_of (H.machine machine.old).memory g.old) ≡ Stopped (Test refusal) }
    requires filled { AreFilled s.old (touches_now (guest_of (H.machine machine.old).memory g.old)).found }
    ensures met { IsMet T.may true (underway port.old (H.machine machine.old) s.old g.old counts.old)
        (underway port.new (H.machine machine.new) s.new g.new counts.new) }
    ensures pays { PaysFor true 0 (standing (H.machine machine.old) s.old g.old) (H.machine machine.new) s.new }
    ensures note { note.new ≡ note_here (guest_of (H.machine machine.old).memory g.old) }
{
    fault(machine, s, g, port, counts, note, refused_as(refusal));
}

/// Handles an exit of the machine for the guest: its step is made and counted; or pages are filled, and the instruction is to be
/// tried again. Answers whether a step was made.
fn meet_told<H: Hardware, T: Port>(
    machine: &mut H,
    s: &mut Shadow,
    g: &mut GuestState,
    port: &mut T,
    counts: &mut Counts,
    note: &mut Note,
    exit: &Exit,
) -> bool
    requires stands { StandsFor (H.machine machine.old).memory s.old g.old }
    requires room { steps_in counts.old < 2 ^ 32 }
    requires told { ExitIsMet exit.now (H.machine machine.old).memory s.old g.old }
    requires reaches { Reaches exit.now (H.machine machine.old).memory s.old g.old }
    ensures met { IsMet T.may result (underway port.old (H.machine machine.old) s.old g.old counts.old)
        (underway port.new (H.machine machine.new) s.new g.new counts.new) }
    ensures pays { PaysFor result (missed_by exit.now) (standing (H.machine machine.old) s.old g.old) (H.machine machine.new) s.new }
    ensures note { NotesMet result (note_here (guest_of (H.machine machine.old).memory g.old)) note.new }
{
    match exit {
        Exit::NotValid { va, write } => meet_missing(
            machine,
            s,
            g,
            port,
            counts,
            note,
            Missing {
                va: *va,
                intent: intent_of(*write),
            },
        ),
        Exit::Denied { va, write } => meet_missing(
            machine,
            s,
            g,
            port,
            counts,
            note,
            Missing {
                va: *va,
                intent: intent_of(*write),
            },
        ),
        Exit::Modify { va } => {
            meet_clear(machine, s, g, port, counts, note, *va);
            true
        }
        Exit::Emulate(t) => sense(machine, s, g, port, counts, note, t),
        Exit::Refused(refusal) => {
            refuse(machine, s, g, port, counts, note, *refusal);
            true
        }
        Exit::Budget => false,
        Exit::Arithmetic { .. } => false,
    }
}

/// Runs the guest's instruction alone, which writes an address's page, with the pages that it writes made writable. Answers
/// whether its step was made.
fn run_alone<H: Hardware, T: Port>(
    machine: &mut H,
    s: &mut Shadow,
    g: &mut GuestState,
    port: &mut T,
    counts: &mut Counts,
    note: &mut Note,
    va: u32,
) -> bool
    requires stands { StandsFor (H.machine machine.old).memory s.old g.old }
    requires room { steps_in counts.old < 2 ^ 32 }
    requires written { CanAllow va (H.machine machine.old) s.old g.old }
    ensures is { StepsOrRefills T.may result (underway port.old (H.machine machine.old) s.old g.old counts.old)
        (underway port.new (H.machine machine.new) s.new g.new counts.new) }
    ensures pays { PaysFor result 0 (standing (H.machine machine.old) s.old g.old) (H.machine machine.new) s.new }
    ensures note { NotesMet result (note_of_instruction (guest_of (H.machine machine.old).memory g.old)) note.new }
{
    let ran = run_guarded(machine, s, g, va);
    match &ran.exit {
        Exit::Budget => {
            counts.retire(1, ran.terms);
            *note = Note::Nothing;
            true
        }
        Exit::Arithmetic { kind } => {
            counts.retire(1, ran.terms);
            *note = begin(machine, s, g, port, Exc::Arithmetic(*kind));
            true
        }
        exit => meet_told(machine, s, g, port, counts, note, exit),
    }
}

/// Handles an exit of the machine for the guest, or runs its instruction alone. Answers whether its step was made.
pub fn meet<H: Hardware, T: Port>(
    machine: &mut H,
    s: &mut Shadow,
    g: &mut GuestState,
    port: &mut T,
    counts: &mut Counts,
    note: &mut Note,
    exit: &Exit,
) -> bool
    requires stands { StandsFor (H.machine machine.old).memory s.old g.old }
    requires room { steps_in counts.old < 2 ^ 32 }
    requires meets { Meets exit.now (H.machine machine.old).memory s.old g.old }
    requires reaches { Reaches exit.now (H.machine machine.old).memory s.old g.old }
    ensures is { StepsOrRefills T.may result (underway port.old (H.machine machine.old) s.old g.old counts.old)
        (underway port.new (H.machine machine.new) s.new g.new counts.new) }
    ensures pays { PaysFor result (missed_by exit.now) (standing (H.machine machine.old) s.old g.old) (H.machine machine.new) s.new }
    ensures note { NotesMet result (note_of_instruction (guest_of (H.machine machine.old).memory g.old)) note.new }
{
    if let Exit::Modify { va } = exit {
        if !is_clear(machine, g, *va) {
            return run_alone(machine, s, g, port, counts, note, *va);
        }
    }
    meet_told(machine, s, g, port, counts, note, exit)
}

ghost use Rattle.std.specs.Prelude.{◌≡◌, ◌+◌, ◌*◌, ◌/◌, ◌<◌, ◌^◌, Some};
ghost use Rattle.vm_exception.specs.Initiated.{IsProper};
ghost use Rattle.vm_shadow.specs.StandsFor.{StandsFor};
ghost use Rattle.vm_state.specs.Partition.{guest_of};
ghost use Rattle.vm_exception.specs.Noted.{note_of_clear, taken_by};
ghost use Rattle.vm_exception.specs.Sources.{source_of};
ghost use Rattle.vm_exception.specs.declared.note.Note.TheVariants.{Nothing, Page};
ghost use Rattle.vm_state.specs.Interrupts.{due, interrupt_of};
ghost use Rattle.vm_state.specs.State.{HasPlace, state_of};
ghost use Rattle.vm_state.specs.Step.{Fault, clear_met, counted, faulted, stopped};
ghost use Rattle.vm_state.specs.Stops.{PastMemory};
ghost use Rattle.vm_stepping.specs.Made.{Made, steps_in, underway};
ghost use Rattle.vm_exception.specs.Made.{interrupted_by};

use crate::Counts;
use vax_hw::Hardware;
use vm_console::Port;
use vm_exception::{Note, Source, begin, interrupt, show_stop};
use vm_shadow::Shadow;
use vm_state::{Exc, GuestState, StopCode, StopReason};

/// A fault of the instruction is initiated.
pub fn fault<H: Hardware, T: Port>(
    machine: &mut H,
    s: &mut Shadow,
    g: &mut GuestState,
    port: &mut T,
    counts: &mut Counts,
    note: &mut Note,
    e: Exc,
)
    requires stands { StandsFor (H.machine machine.old).memory s.old g.old }
    requires proper { IsProper e }
    requires room { steps_in counts.old < 2 ^ 32 }
    ensures made { Made T.may (faulted (guest_of (H.machine machine.old).memory g.old) e)
        (underway port.old (H.machine machine.old) s.old g.old counts.old)
        (underway port.new (H.machine machine.new) s.new g.new counts.new) }
    ensures note { note.new ≡ taken_by (guest_of (H.machine machine.old).memory g.old) e }
{
    *note = begin(machine, s, g, port, e);
    counts.faults += 1;
}

/// A reference beyond memory stops the guest.
pub fn stop_past_memory<H: Hardware, T: Port>(
    machine: &H,
    s: &Shadow,
    g: &mut GuestState,
    port: &mut T,
    counts: &mut Counts,
    note: &mut Note,
)
    requires stands { StandsFor (H.machine machine.now).memory s.now g.old }
    requires room { steps_in counts.old < 2 ^ 32 }
    ensures made { Made T.may (stopped (guest_of (H.machine machine.now).memory g.old) PastMemory Fault)
        (underway port.old (H.machine machine.now) s.now g.old counts.old)
        (underway port.new (H.machine machine.now) s.now g.new counts.new) }
    ensures note { note.new ≡ Nothing }
{
    let code = StopCode(StopReason::PastMemory);
    show_stop(g, port, code);
    g.halt = Some(code);
    counts.faults += 1;
    *note = Note::Nothing;
}

/// That the modify bit of an address's page was set.
pub fn page_note(va: u32) -> Note
    ensures { result ≡ Page (va / 512 * 512) }
{
    Note::Page(va / 512 * 512)
}

/// At a clear modify bit it is set, and the instruction begins again at the next step; a guest with modify faults has one.
pub fn meet_clear<H: Hardware, T: Port>(
    machine: &mut H,
    s: &mut Shadow,
    g: &mut GuestState,
    port: &mut T,
    counts: &mut Counts,
    note: &mut Note,
    va: u32,
)
    requires stands { StandsFor (H.machine machine.old).memory s.old g.old }
    requires room { steps_in counts.old < 2 ^ 32 }
    ensures made { Made T.may (clear_met (guest_of (H.machine machine.old).memory g.old) va)
        (underway port.old (H.machine machine.old) s.old g.old counts.old)
        (underway port.new (H.machine machine.new) s.new g.new counts.new) }
    ensures note { note.new ≡ note_of_clear (guest_of (H.machine machine.old).memory g.old) va }
{
    if g.modify_faults {
        fault(machine, s, g, port, counts, note, Exc::ModifyFault { va });
        return;
    }
    s.mark_modified(machine, g, va);
    counts.modify += 1;
    *note = page_note(va);
}

/// An interrupt that is due is taken.
pub fn take_interrupt<H: Hardware, T: Port>(
    machine: &mut H,
    s: &mut Shadow,
    g: &mut GuestState,
    port: &mut T,
    counts: &mut Counts,
    note: &mut Note,
    source: Source,
)
    requires stands { StandsFor (H.machine machine.old).memory s.old g.old }
    requires due { due (state_of g.old) ≡ Some (source_of source) }
    requires room { steps_in counts.old < 2 ^ 32 }
    ensures made { Made T.may (interrupted_by (guest_of (H.machine machine.old).memory g.old) (source_of source))
        (underway port.old (H.machine machine.old) s.old g.old counts.old)
        (underway port.new (H.machine machine.new) s.new g.new counts.new) }
    ensures note { note.new ≡ taken_by (guest_of (H.machine machine.old).memory g.old) (interrupt_of (source_of source)) }
{
    *note = interrupt(machine, s, g, port, source);
    counts.interrupts += 1;
}

/// The next step of a guest counts its clock, and itself.
pub fn count_step(g: &mut GuestState)
    ensures state { state_of g.new ≡ counted (state_of g.old) }
    ensures place { HasPlace g.old.pages g.old.base g.old.start g.new }
{
    g.clock.tick();
    g.steps = g.steps.wrapping_add(1);
}

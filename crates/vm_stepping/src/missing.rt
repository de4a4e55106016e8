ghost use Rattle.std.specs.Prelude.{◌<◌, ◌^◌, ℕ};
ghost use Rattle.vm_shadow.specs.StandsFor.{StandsFor};
ghost use Rattle.vm_simulation_laws.specs.Laws.{IsMissed};
ghost use Rattle.vm_state.specs.Partition.{guest_of};
ghost use Rattle.vm_stepping.specs.Noted.{NotesMet, note_here};
ghost use Rattle.vm_stepping.specs.Made.{IsMet, steps_in, underway};
ghost use Rattle.vm_stepping.specs.Pays.{PaysFor, WereMissed};
ghost use Rattle.vm_exception.specs.Standing.{standing};

use crate::Counts;
use crate::made::{fault, stop_past_memory};
use vax_arch::Intent;
use vax_hw::Hardware;
use vm_console::Port;
use vm_exception::Note;
use vm_shadow::Shadow;
use vm_state::{Exc, GuestState, Walk};
use vm_walk::{look_up, walk_found};

/// A byte of the guest that is missing, and what it is wanted for.
#[derive(Clone, Copy)]
pub struct Missing {
    pub va: u32,
    pub intent: Intent,
}

/// Handles a miss, at a byte that the machine has no place for: fills its page, where the guest has a place; else that is the
/// guest's own fault, or stops it. Answers whether a step was made.
pub fn meet_missing<H: Hardware, T: Port>(
    machine: &mut H,
    s: &mut Shadow,
    g: &mut GuestState,
    port: &mut T,
    counts: &mut Counts,
    note: &mut Note,
    byte: Missing,
) -> bool
    requires stands { StandsFor (H.machine machine.old).memory s.old g.old }
    requires room { steps_in counts.old < 2 ^ 32 }
    requires missed { IsMissed byte.intent byte.va (H.machine machine.old).memory s.old g.old }
    ensures met { IsMet T.may result (underway port.old (H.machine machine.old) s.old g.old counts.old)
        (underway port.new (H.machine machine.new) s.new g.new counts.new) }
    ensures pays { (missed : ℕ) → WereMissed missed byte.intent byte.va (H.machine machine.old).memory s.old g.old →
        PaysFor result missed (standing (H.machine machine.old) s.old g.old) (H.machine machine.new) s.new }
    ensures note { NotesMet result (note_here (guest_of (H.machine machine.old).memory g.old)) note.new }
{
    let Missing { va, intent } = byte;
    let seen = look_up(machine, g, va / 512);
    match walk_found(machine, g, va, g.psl.current(), intent, seen) {
        Walk::Frame { .. } => {
            s.fill_found(machine, g, va, seen);
            false
        }
        Walk::Fault(trouble) => {
            fault(machine, s, g, port, counts, note, Exc::Memory(trouble));
            true
        }
        Walk::Beyond => {
            stop_past_memory(machine, s, g, port, counts, note);
            true
        }
    }
}

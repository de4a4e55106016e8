ghost use Rattle.std.specs.Prelude.{◌≡◌, ◌+◌, ◌<◌, ◌^◌, length};
ghost use Rattle.vm_shadow.specs.StandsFor.{StandsFor};
ghost use Rattle.vm_simulation_laws.specs.Laws.{IsTrapped};
ghost use Rattle.vm_state.specs.Partition.{guest_of};
ghost use Rattle.vm_stepping.specs.Noted.{NotesMet, note_here};
ghost use Rattle.vm_stepping.specs.Made.{IsMet, steps_in, underway};
ghost use Rattle.vm_stepping.specs.Pays.{PaysFor};
ghost use Rattle.vm_simulation_laws.specs.Touched.{AreFilled, touches_now};
ghost use Rattle.vm_exception.specs.Standing.{standing};

use crate::Counts;
use crate::made::{fault, page_note};
use vax_hw::Hardware;
use vax_table::Trapped;
use vm_console::Port;
use vm_emulate::{Emulated, emulate};
use vm_exception::{Note, show_stop};
use vm_shadow::Shadow;
use vm_state::{GuestState, StopCode, StopReason};

/// A guest has sixteen registers, and a trap has all of them but PC.
fn have_registers(r: &[u32; 16], t: &Trapped)
    ensures guest { length r.now ≡ 16 }
    ensures trap { length t.now.regs ≡ 15 }
{
    // What is read is known to have its type's length.
    let _sp = t.regs[14];
}

/// The outcome of a trap of the guest's instruction: the step that it makes is made and counted; or the pages of a PROBE are
/// filled, so that the machine does it. Answers whether a step was made.
pub fn sense<H: Hardware, T: Port>(
    machine: &mut H,
    s: &mut Shadow,
    g: &mut GuestState,
    port: &mut T,
    counts: &mut Counts,
    note: &mut Note,
    t: &Trapped,
) -> bool
    requires stands { StandsFor (H.machine machine.old).memory s.old g.old }
    requires room { steps_in counts.old < 2 ^ 32 }
    requires trapped { IsTrapped t.now (H.machine machine.old).memory s.old g.old }
    requires filled { AreFilled s.old (touches_now (guest_of (H.machine machine.old).memory g.old)).found }
    ensures met { IsMet T.may result (underway port.old (H.machine machine.old) s.old g.old counts.old)
        (underway port.new (H.machine machine.new) s.new g.new counts.new) }
    ensures pays { PaysFor result 0 (standing (H.machine machine.old) s.old g.old) (H.machine machine.new) s.new }
    ensures note { NotesMet result (note_here (guest_of (H.machine machine.old).memory g.old)) note.new }
{
    have_registers(&g.r, t);
    *note = Note::Nothing;
    match emulate(machine, s, g, port, t) {
        Emulated::Done => {
            counts.sensitive += 1;
            true
        }
        Emulated::SetModify { va } => {
            counts.modify += 1;
            *note = page_note(va);
            true
        }
        Emulated::Fault(e) => {
            fault(machine, s, g, port, counts, note, e);
            true
        }
        Emulated::Stopped(code) => {
            show_stop(g, port, code);
            counts.sensitive += 1;
            true
        }
        Emulated::PastMemory => {
            show_stop(g, port, StopCode(StopReason::PastMemory));
            counts.faults += 1;
            true
        }
        Emulated::Filled => false,
    }
}

ghost use Rattle.std.specs.Prelude.{◌≡◌, Some};
ghost use Rattle.vm_console.specs.Appends.{Appends};
ghost use Rattle.vm_exception.specs.Made.{MakesStep, interrupted_by};
ghost use Rattle.vm_exception.specs.Noted.{taken_by};
ghost use Rattle.vm_exception.specs.Sources.{source_of};
ghost use Rattle.vm_exception.specs.Initiated.{IsProper};
ghost use Rattle.vm_shadow.specs.StandsFor.{StandsFor};
ghost use Rattle.vm_state.specs.Initiate.{initiate};
ghost use Rattle.vm_state.specs.Interrupts.{due, interrupt_of};
ghost use Rattle.vm_state.specs.Partition.{guest_of};
ghost use Rattle.vm_state.specs.State.{state_of};
ghost use Rattle.vm_state.specs.Step.{Kind, initiated_in};

use crate::entry::vector_offset;
use crate::initiated::Initiated;
use crate::initiating::initiate;
use crate::note::Note;
use crate::pending::{Source, end_request};
use crate::stop::show_stop;
use vax_hw::Hardware;
use vm_console::Port;
use vm_shadow::Shadow;
use vm_state::{Exc, GuestState};

/// Where the vector is that is taken in place of an exception whose kernel stack isn't valid.
const KERNEL_STACK: u32 = 0x08;

/// Initiates an exception in a step of any kind, and answers the vector that was taken; where that stops the guest, the port
/// shows it.
pub fn begin<H: Hardware, T: Port>(
    machine: &mut H,
    s: &mut Shadow,
    g: &mut GuestState,
    port: &mut T,
    e: Exc,
) -> Note
    requires stands { StandsFor (H.machine machine.old).memory s.old g.old }
    requires proper { IsProper e }
    ensures makes { (kind : Kind) → MakesStep (initiated_in kind (guest_of (H.machine machine.old).memory g.old)
        (initiate (guest_of (H.machine machine.old).memory g.old) e)) (H.machine machine.old) s.old g.old
        (H.machine machine.new) s.new g.new }
    ensures shown { (kind : Kind) → Appends T.may port.old port.new
        (initiated_in kind (guest_of (H.machine machine.old).memory g.old)
        (initiate (guest_of (H.machine machine.old).memory g.old) e)).shown }
    ensures note { result ≡ taken_by (guest_of (H.machine machine.old).memory g.old) e }
{
    let offset = vector_offset(e);
    match initiate(machine, s, g, e) {
        Initiated::Taken => Note::Vector(offset),
        Initiated::KernelStackBad => Note::Vector(KERNEL_STACK),
        Initiated::Stopped(code) => {
            show_stop(g, port, code);
            Note::Nothing
        }
    }
}

/// Takes an interrupt that is due, and answers the vector that was taken: where it isn't taken itself (the kernel stack isn't
/// valid), its request stays. Where that stops the guest, the port shows it.
pub fn interrupt<H: Hardware, T: Port>(
    machine: &mut H,
    s: &mut Shadow,
    g: &mut GuestState,
    port: &mut T,
    source: Source,
) -> Note
    requires stands { StandsFor (H.machine machine.old).memory s.old g.old }
    requires due { due (state_of g.old) ≡ Some (source_of source) }
    ensures makes { MakesStep (interrupted_by (guest_of (H.machine machine.old).memory g.old) (source_of source))
        (H.machine machine.old) s.old g.old (H.machine machine.new) s.new g.new }
    ensures shown { Appends T.may port.old port.new (interrupted_by (guest_of (H.machine machine.old).memory g.old) (source_of source)).shown }
    ensures note { result ≡ taken_by (guest_of (H.machine machine.old).memory g.old) (interrupt_of (source_of source)) }
{
    match initiate(machine, s, g, source.exception()) {
        Initiated::Taken => {
            end_request(g, source);
            Note::Vector(source.vector())
        }
        Initiated::KernelStackBad => Note::Vector(KERNEL_STACK),
        Initiated::Stopped(code) => {
            show_stop(g, port, code);
            Note::Nothing
        }
    }
}

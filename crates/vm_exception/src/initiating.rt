ghost use Rattle.std.specs.Prelude.{◌≡◌, Some};
ghost use Rattle.vm_exception.specs.Initiated.{Initiates, IsProper};
ghost use Rattle.vm_exception.specs.declared.initiated.Initiated.TheVariants.{Stopped};
ghost use Rattle.vm_shadow.specs.StandsFor.{StandsFor};
ghost use Rattle.vm_state.specs.State.{HasPlace, state_of};

use crate::Initiated;
use crate::attempts::{Attempt, take};
use vax_hw::Hardware;
use vm_shadow::Shadow;
use vm_state::{Exc, GuestState, StopCode, StopReason};

/// The guest stops with a code.
fn stop(g: &mut GuestState, code: StopCode) -> Initiated
    ensures result { result ≡ Stopped code }
    ensures state { state_of g.new ≡ record (state_of g.old) { halt = Some code } }
    ensures place { HasPlace g.old.pages g.old.base g.old.start g.new }
{
    g.halt = Some(code);
    Initiated::Stopped(code)
}

/// Initiates an exception or an interrupt of a guest: PSL, PC and parameters are pushed on the new stack, and it goes on at
/// its vector. The PC that is pushed is the guest's. `Stopped` sets the stop code and changes nothing else.
pub fn initiate<H: Hardware>(
    machine: &mut H,
    s: &mut Shadow,
    g: &mut GuestState,
    e: Exc,
) -> Initiated
    requires stands { StandsFor (H.machine machine.old).memory s.old g.old }
    requires proper { IsProper e }
    ensures { Initiates e (H.machine machine.old) s.old g.old result (H.machine machine.new) s.new g.new }
{
    match take(machine, s, g, e) {
        Attempt::Arrives => Initiated::Taken,
        Attempt::StackFaulty {
            is_interrupt_stack: true,
        } => stop(g, StopCode(StopReason::InterruptStackBad)),
        Attempt::StackFaulty {
            is_interrupt_stack: false,
        } => match take(machine, s, g, Exc::KernelStack) {
            Attempt::Arrives => Initiated::KernelStackBad,
            Attempt::StackFaulty { .. } => stop(g, StopCode(StopReason::InterruptStackBad)),
            Attempt::Halts(code) => stop(g, code),
        },
        Attempt::Halts(code) => stop(g, code),
    }
}

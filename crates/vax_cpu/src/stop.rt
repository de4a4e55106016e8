ghost use Rattle.std.specs.Prelude.{◌≡◌};
ghost use Rattle.vax_hw.specs.Real.{exit_of};
ghost use Rattle.vax_operand.specs.Left.{operands_with_registers};
ghost use Rattle.vax_table.specs.Troubles.{trouble_of};
ghost use Rattle.vax_table.specs.Whole.{trap_of};
ghost use Rattle.vax_cpu.specs.Outcomes.{stop_exit};
ghost use Rattle.vax_kept.specs.declared.fault.Fault.TheVariants as faults;
ghost use Rattle.vax_cpu.specs.declared.stop.Stop.TheVariants as stops;

use crate::perform::trap_of;
use vax_hw::{Exit, Refusal, Sens};
use vax_kept::Fault;
use vax_operand::{Trouble, Values};

/// Why an instruction doesn't retire, without the operands of its trap: kept small, since it is passed on by each function that
/// an instruction goes through.
#[derive(Clone, Copy)]
pub enum Stop {
    Fault(Fault),
    Modify(u32),
    Emulate(Sens),
}

/// A trouble as a stop.
pub fn stop_of(trouble: Trouble) -> Stop
    ensures { result ≡ stops.Fault (faults.Trouble trouble) }
{
    Stop::Fault(Fault::Trouble(trouble))
}

/// What a trouble stops the machine with.
fn exit_of(trouble: Trouble) -> Exit
    ensures { result ≡ exit_of (trouble_of trouble) }
{
    match trouble {
        Trouble::NotValid { va, write } => Exit::NotValid { va, write },
        Trouble::Denied { va, write } => Exit::Denied { va, write },
        Trouble::ReservedOperand => Exit::Refused(Refusal::ReservedOperand),
    }
}

/// The exit of a stop: these are the operands, and the registers after them.
pub fn end_with(stop: Stop, o: &Values, r: &[u32; 16], exit: &mut Exit)
    ensures { exit.new ≡ stop_exit (operands_with_registers o.now r.now) stop }
{
    match stop {
        Stop::Fault(Fault::Trouble(trouble)) => {
            *exit = exit_of(trouble);
        }
        Stop::Fault(Fault::Refused(refusal)) => {
            *exit = Exit::Refused(refusal);
        }
        Stop::Modify(va) => {
            *exit = Exit::Modify { va };
        }
        Stop::Emulate(op) => {
            *exit = Exit::Emulate(trap_of(op, o, r));
        }
    }
}

ghost use Rattle.std.specs.Prelude.{◌≡◌, true};
ghost use Rattle.vax_table.specs.Effects.{effect};
ghost use Rattle.vax_table.specs.Operations.{is_narrow};
ghost use Rattle.vax_table.specs.Plan.{performed};
ghost use Rattle.vax_table.specs.Interaction.{outcome};
ghost use Rattle.vax_operand.specs.Left.{left, operands_with_registers};
ghost use Rattle.vax_flow.specs.Flow.{is_flow};

use crate::bits::branch_on_bit;
use crate::branches::{branch, branch_on_low_bit, call_subroutine, case, leave_subroutine};
use crate::calls::{call_general, call_on_stack, ret};
use crate::loops::{add_and_compare, add_one, subtract_one};
use crate::stack::{pop_registers, push_operand, push_registers};
use vax_operand::{Space, Trouble, Values};
use vax_table::Operation;
use vax_table::effect::Plan;

/// What an operation does after its operands that goes on elsewhere, or works on the stack: branches, loops, CASE,
/// subroutines, calls, RET, the bit branches, PUSHL, PUSHA, PUSHR and POPR. `o` is the operands, and `plan` has the registers
/// as they left them. An error is the first trouble, and then it doesn't matter what `plan` is.
#[tactic(auto, unfolding(vax_table::specs::Plan::performed))]
pub fn flow<S: Space>(
    s: &S,
    what: Operation,
    o: &Values,
    psw: u8,
    plan: &mut Plan,
) -> Result<(), Trouble>
    requires flow { is_flow what ≡ true }
    requires narrow { is_narrow what ≡ true }
    ensures { left result (effect plan.new) ≡ outcome (S.space s.now) (performed what (operands_with_registers o.now plan.old.r) psw) }
{
    match what {
        Operation::Push => push_operand(s, o, psw, plan),
        Operation::Branch(condition) => {
            branch(condition, o, psw, plan);
            Ok(())
        }
        Operation::CallSubroutine => call_subroutine(s, o, psw, plan),
        Operation::LeaveSubroutine => leave_subroutine(s, o, psw, plan),
        Operation::AddAndCompare(w) => {
            add_and_compare(w, o, psw, plan);
            Ok(())
        }
        Operation::AddOne(at_limit) => {
            add_one(at_limit, o, psw, plan);
            Ok(())
        }
        Operation::SubtractOne(at_zero) => {
            subtract_one(at_zero, o, psw, plan);
            Ok(())
        }
        Operation::BranchOnLowBit(on) => {
            branch_on_low_bit(on, o, psw, plan);
            Ok(())
        }
        Operation::BranchOnBit(on, becomes) => branch_on_bit(s, on, becomes, o, psw, plan),
        Operation::Case(w) => case(s, w, o, psw, plan),
        Operation::PushRegisters => push_registers(s, o, psw, plan),
        Operation::PopRegisters => pop_registers(s, o, psw, plan),
        Operation::CallGeneral => call_general(s, o, psw, plan),
        Operation::CallOnStack => call_on_stack(s, o, psw, plan),
        _ => ret(s, o, psw, plan),
    }
}

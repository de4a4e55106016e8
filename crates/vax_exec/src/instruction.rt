ghost use Rattle.std.specs.Prelude.{◌≡◌, true, ◌%◌, ◌^◌};
ghost use Rattle.vax_table.specs.Effects.{effect, effects};
ghost use Rattle.vax_table.specs.Operations.{is_narrow, operation_of};
ghost use Rattle.vax_table.specs.Plan.{is_planned, performed, planned};
ghost use Rattle.vax_table.specs.Interaction.{outcome};
ghost use Rattle.vax_table.specs.Spelling.{IsWellFormed, view};
ghost use Rattle.vax_operand.specs.Left.{left, operands_with_registers};
ghost use Rattle.vax_exec.specs.Other.{is_other};

use crate::compute::{compute, move_quad};
use crate::status::{clear_status, set_status};
use arrayvec::ArrayVec;
use vax_arch::Psl;
use vax_decode::Decoded;
use vax_flow::{begin, branch, flow};
use vax_operand::{Operands, Prepared, Space, Trouble, Values, evaluate, evaluate_into};
use vax_table::effect::Plan;
use vax_table::{Operation, operation};

/// What an instruction does after its operands that neither computes nor branches by the codes alone.
#[inline(never)]
#[tactic(auto, unfolding(vax_table::specs::Plan::performed))]
fn perform_other<S: Space>(
    s: &S,
    what: Operation,
    o: &Values,
    psw: u8,
    plan: &mut Plan,
) -> Result<(), Trouble>
    requires other { is_other what ≡ true }
    requires narrow { is_narrow what ≡ true }
    ensures { left result (effect plan.new) ≡ outcome (S.space s.now) (performed what (operands_with_registers o.now plan.old.r) psw) }
{
    match what {
        Operation::Nothing => {
            begin(plan, psw);
            Ok(())
        }
        Operation::ClearQuad => {
            move_quad(0, 0, o, psw, plan);
            Ok(())
        }
        Operation::MoveQuad => {
            move_quad(o.values[0], 1, o, psw, plan);
            Ok(())
        }
        Operation::SetStatus => set_status(o, psw, plan),
        Operation::ClearStatus => clear_status(o, psw, plan),
        _ => flow(s, what, o, psw, plan),
    }
}

/// What an instruction does after its operands.
#[inline(always)]
#[tactic(auto, unfolding(vax_table::specs::Plan::performed))]
fn perform<S: Space>(
    s: &S,
    what: &Operation,
    o: &Values,
    psl: Psl,
    plan: &mut Plan,
) -> Result<(), Trouble>
    requires planned { is_planned what.now ≡ true }
    requires narrow { is_narrow what.now ≡ true }
    ensures { left result (effect plan.new) ≡ outcome (S.space s.now) (performed what.now (operands_with_registers o.now plan.old.r) (psl.0 % 2 ^ 8)) }
{
    let psw = (psl.0 % 0x100) as u8;
    if let Operation::Compute(op, w, inputs, target) = *what {
        compute(op, w, inputs, target, o, psw, plan);
        return Ok(());
    }
    if let Operation::Branch(condition) = *what {
        branch(condition, o, psw, plan);
        return Ok(());
    }
    perform_other(s, *what, o, psw, plan)
}

/// The outcome of a plain instruction that is neither MOVPSL nor PROBE, BPT or XFC: `psl` is the processor status longword,
/// of which the low byte counts. The plan's registers are R0 to R15 before it, and after it then; its operands go to `o`.
/// An error is the first trouble of its accesses and tests, in order; nothing is to change then, and it doesn't matter what
/// `o` and `plan` are.
#[inline(always)]
#[tactic(auto, unfolding(vax_table::specs::Plan::planned), using(vax_table::proofs::Scripts::binds))]
pub fn plan_into<S: Space>(
    s: &S,
    e: &Prepared,
    psl: Psl,
    o: &mut Values,
    plan: &mut Plan,
) -> Result<(), Trouble>
    requires formed { IsWellFormed (view e.now.decoded) }
    requires planned { is_planned (operation_of e.now.decoded.opcode) ≡ true }
    ensures { left result (effect plan.new) ≡ outcome (S.space s.now) (planned (view e.now.decoded) plan.old.r (psl.0 % 2 ^ 8)) }
{
    evaluate_into(s, e, &mut plan.r, o)?;
    perform(s, &e.operation, o, psl, plan)
}

/// The outcome of a plain instruction, as `plan_into` gives it; `r` is R0 to R15 before it.
#[tactic(auto, unfolding(vax_table::specs::Plan::planned), using(vax_table::proofs::Scripts::binds))]
pub fn plan<S: Space>(s: &S, d: &Decoded, r: &[u32; 16], psl: Psl) -> Result<Plan, Trouble>
    requires formed { IsWellFormed (view d.now) }
    requires planned { is_planned (operation_of d.now.opcode) ≡ true }
    ensures { effects result ≡ outcome (S.space s.now) (planned (view d.now) r.now (psl.0 % 2 ^ 8)) }
{
    let Operands { values, dests, r } = evaluate(s, d, r)?;
    let mut plan = Plan {
        r,
        psw: 0,
        writes: ArrayVec::new(),
        trap: None,
    };
    perform(
        s,
        &operation(d.opcode),
        &Values { values, dests },
        psl,
        &mut plan,
    )?;
    Ok(plan)
}

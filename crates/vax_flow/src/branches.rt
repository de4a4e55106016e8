ghost use Rattle.std.specs.Prelude.{◌≡◌, ◌≢◌, ◌<◌, ◌^◌};
ghost use Rattle.vv_base.specs.Bits.{is_set};
ghost use Rattle.vax_table.specs.Branches.{branched_on_low_bit, called_subroutine, cased, comes_out, left_subroutine};
ghost use Rattle.vax_table.specs.Operations.{branched, holds};
ghost use Rattle.vax_table.specs.Effects.{effect};
ghost use Rattle.vax_table.specs.Operand.{extended};
ghost use Rattle.vax_table.specs.Interaction.{outcome};
ghost use Rattle.vax_operand.specs.Left.{left, operands_with_registers};

use crate::begun::begin;
use crate::stack::push;
use vax_alu::{AluOp, alu};
use vax_operand::{Dest, Space, Trouble, Values};
use vax_table::Condition;
use vax_table::effect::Plan;
use vv_base::Width;

/// Whether bit k of a status word is set.
fn has(psw: u8, k: u32) -> bool
    requires { k < 8 }
    ensures { result ≡ is_set psw k }
{
    (psw >> k) % 2 == 1
}

/// Whether the condition codes satisfy a condition.
pub fn holds(condition: Condition, psw: u8) -> bool
    ensures { result ≡ holds condition psw }
{
    match condition {
        Condition::Always => true,
        Condition::NotEqual => !has(psw, 2),
        Condition::Equal => has(psw, 2),
        Condition::Greater => !(has(psw, 3) || has(psw, 2)),
        Condition::LessOrEqual => has(psw, 3) || has(psw, 2),
        Condition::GreaterOrEqual => !has(psw, 3),
        Condition::Less => has(psw, 3),
        Condition::GreaterUnsigned => !(has(psw, 0) || has(psw, 2)),
        Condition::LessOrEqualUnsigned => has(psw, 0) || has(psw, 2),
        Condition::OverflowClear => !has(psw, 1),
        Condition::OverflowSet => has(psw, 1),
        Condition::CarryClear => !has(psw, 0),
        Condition::CarrySet => has(psw, 0),
    }
}

/// A branch, and JMP.
#[inline(always)]
#[tactic(auto, unfolding(vax_table::specs::Operations::branched))]
pub fn branch(condition: Condition, o: &Values, psw: u8, plan: &mut Plan)
    ensures { effect plan.new ≡ branched condition (operands_with_registers o.now plan.old.r) psw }
{
    begin(plan, psw);
    plan.go_if(holds(condition, psw), o.long(0));
}

/// BSB and JSB.
#[tactic(auto, unfolding(vax_table::specs::Branches::called_subroutine), using(vax_table::proofs::Scripts::binds))]
pub fn call_subroutine<S: Space>(
    space: &S,
    o: &Values,
    psw: u8,
    plan: &mut Plan,
) -> Result<(), Trouble>
    ensures { left result (effect plan.new) ≡ outcome (S.space space.now) (called_subroutine (operands_with_registers o.now plan.old.r) psw) }
{
    begin(plan, psw);
    let next = plan.r[15];
    push(space, plan, next)?;
    plan.go_to(o.long(0));
    Ok(())
}

/// RSB.
#[tactic(auto, unfolding(vax_table::specs::Branches::left_subroutine))]
pub fn leave_subroutine<S: Space>(
    space: &S,
    o: &Values,
    psw: u8,
    plan: &mut Plan,
) -> Result<(), Trouble>
    ensures { left result (effect plan.new) ≡ outcome (S.space space.now) (left_subroutine (operands_with_registers o.now plan.old.r) psw) }
{
    let sp = plan.r[14];
    let pc = space.read(sp, Width::Long)? as u32;
    begin(plan, psw);
    plan.r[14] = sp.wrapping_add(4);
    plan.go_to(pc);
    Ok(())
}

/// A displacement of a word, sign-extended to 32 bits.
fn extended(word: u64) -> u32
    requires { word < 2 ^ 16 }
    ensures { result ≡ extended 2 word }
{
    if word < 0x8000 {
        word as u32
    } else {
        (word + 0xFFFF_0000) as u32
    }
}

/// CASE in a width.
#[tactic(auto, unfolding(vax_table::specs::Branches::cased))]
pub fn case<S: Space>(
    space: &S,
    w: Width,
    o: &Values,
    psw: u8,
    plan: &mut Plan,
) -> Result<(), Trouble>
    requires { w ≢ Width.Quad }
    ensures { left result (effect plan.new) ≡ outcome (S.space space.now) (cased w (operands_with_registers o.now plan.old.r) psw) }
{
    let t = alu(AluOp::Sub, o.long(1), o.long(0), w, psw).value;
    let limit = o.long(2);
    let table = plan.r[15];
    begin(plan, alu(AluOp::Cmp, t, limit, w, psw).psw);
    if t <= limit {
        let entry = table.wrapping_add(t.wrapping_mul(2));
        let displacement = space.read(entry, Width::Word)?;
        plan.go_to(table.wrapping_add(extended(displacement)));
    } else {
        let size = limit.wrapping_add(1).wrapping_mul(2);
        plan.go_to(table.wrapping_add(size));
    }
    Ok(())
}

/// Whether a test comes out as it is to.
pub fn comes_out(wanted: bool, is: bool) -> bool
    ensures { result ≡ comes_out wanted is }
{
    wanted == is
}

/// BLBS and BLBC.
#[tactic(auto, unfolding(vax_table::specs::Branches::branched_on_low_bit))]
pub fn branch_on_low_bit(on: bool, o: &Values, psw: u8, plan: &mut Plan)
    ensures { effect plan.new ≡ branched_on_low_bit on (operands_with_registers o.now plan.old.r) psw }
{
    begin(plan, psw);
    plan.go_if(comes_out(on, o.long(0) % 2 == 1), o.long(1));
}

ghost use Rattle.std.specs.Prelude.{◌≡◌, ◌≢◌, ◌<◌};
ghost use Rattle.vax_table.specs.Branches.{added_and_compared, added_one, is_at_most, is_less, keeping_c, looped, subtracted_one};
ghost use Rattle.vax_table.specs.Effects.{dest_of, effect, went_if};
ghost use Rattle.vax_operand.specs.Left.{operands_with_registers};

use crate::begun::begin;
use vax_alu::{Alu, AluOp, alu};
use vax_operand::Values;
use vax_table::effect::Plan;
use vv_base::{Width, signed};

/// A status word's new codes, with C as it was.
pub fn keeping_c(psw: u8, new: u8) -> u8
    ensures { result ≡ keeping_c psw new }
{
    new / 2 * 2 + psw % 2
}

/// A loop's index, the operand of this number, becomes the result, and it branches where its test says so.
fn loop_to(
    w: Width,
    index: usize,
    x: &Alu,
    taken: bool,
    to: u32,
    o: &Values,
    psw: u8,
    plan: &mut Plan,
)
    requires { index < 4 }
    ensures { effect plan.new ≡ went_if taken to (looped w
        (dest_of (operands_with_registers o.now plan.old.r) index) x.now
        (operands_with_registers o.now plan.old.r) psw) }
{
    begin(plan, keeping_c(psw, x.psw));
    if let Some(kind) = x.trap {
        plan.trap = Some(kind);
    }
    plan.put(o.dests[index], w, u64::from(x.value));
    plan.go_if(taken, to);
}

/// Signed, in a width: less.
pub fn is_less(w: Width, a: u32, b: u32) -> bool
    requires { w ≢ Width.Quad }
    ensures { result ≡ is_less w a b }
{
    signed(a, w) < signed(b, w)
}

/// Signed, in a width: at most.
pub fn is_at_most(w: Width, a: u32, b: u32) -> bool
    requires { w ≢ Width.Quad }
    ensures { result ≡ is_at_most w a b }
{
    signed(a, w) <= signed(b, w)
}

/// ACB in a width.
#[tactic(auto, unfolding(vax_table::specs::Branches::added_and_compared))]
pub fn add_and_compare(w: Width, o: &Values, psw: u8, plan: &mut Plan)
    requires { w ≢ Width.Quad }
    ensures { effect plan.new ≡ added_and_compared w (operands_with_registers o.now plan.old.r) psw }
{
    let (limit, add) = (o.long(0), o.long(1));
    let x = alu(AluOp::Add, add, o.long(2), w, psw);
    let taken = if is_at_most(w, 0, add) {
        is_at_most(w, x.value, limit)
    } else {
        is_at_most(w, limit, x.value)
    };
    loop_to(w, 2, &x, taken, o.long(3), o, psw, plan);
}

/// AOBLEQ where it branches at the limit too, else AOBLSS.
#[tactic(auto, unfolding(vax_table::specs::Branches::added_one))]
pub fn add_one(at_limit: bool, o: &Values, psw: u8, plan: &mut Plan)
    ensures { effect plan.new ≡ added_one at_limit (operands_with_registers o.now plan.old.r) psw }
{
    let limit = o.long(0);
    let x = alu(AluOp::Add, 1, o.long(1), Width::Long, psw);
    let taken = if at_limit {
        is_at_most(Width::Long, x.value, limit)
    } else {
        is_less(Width::Long, x.value, limit)
    };
    loop_to(Width::Long, 1, &x, taken, o.long(2), o, psw, plan);
}

/// SOBGEQ where it branches at zero too, else SOBGTR.
#[tactic(auto, unfolding(vax_table::specs::Branches::subtracted_one))]
pub fn subtract_one(at_zero: bool, o: &Values, psw: u8, plan: &mut Plan)
    ensures { effect plan.new ≡ subtracted_one at_zero (operands_with_registers o.now plan.old.r) psw }
{
    let x = alu(AluOp::Sub, 1, o.long(0), Width::Long, psw);
    let taken = if at_zero {
        is_at_most(Width::Long, 0, x.value)
    } else {
        is_less(Width::Long, 0, x.value)
    };
    loop_to(Width::Long, 0, &x, taken, o.long(1), o, psw, plan);
}

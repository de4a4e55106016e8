ghost use Rattle.std.specs.Prelude.{◌≡◌, ◌≢◌, ◌<◌, ◌-◌, List, ℕ, slice_set};
ghost use Rattle.arrayvec.specs.ArrayVec.{array_vec_len};
ghost use Rattle.vax_table.specs.Computing.{moved_quad};
ghost use Rattle.vax_table.specs.Operations.{computed, first_input, second_input, target_of};
ghost use Rattle.vax_table.specs.Effects.{dest_of, effect, put};
ghost use Rattle.vax_table.specs.Operand.{extended};
ghost use Rattle.vax_table.specs.declared.act.Dest.TheVariants.{Nowhere};
ghost use Rattle.vax_table.specs.declared.evaluation.Operands.{Operands};
ghost use Rattle.vv_base.specs.Width.{low, size_of};
ghost use Rattle.vax_operand.specs.Left.{operands_with_registers};

use vax_alu::{AluOp, alu};
use vax_flow::{begin, moved_psw};
use vax_operand::{Dest, Values};
use vax_table::effect::Plan;
use vax_table::{Inputs, Target};
use vv_base::Width;

/// The low bits of a longword, sign-extended from a width.
fn extended(w: Width, v: u32) -> u32
    ensures { result ≡ extended (size_of w) (low w v) }
{
    match w {
        Width::Byte if v % 0x100 >= 0x80 => v % 0x100 + 0xFFFF_FF00,
        Width::Byte => v % 0x100,
        Width::Word if v % 0x1_0000 >= 0x8000 => v % 0x1_0000 + 0xFFFF_0000,
        Width::Word => v % 0x1_0000,
        Width::Long | Width::Quad => v,
    }
}

/// The numbers of an operation: the first, and the second, which is 0 where it has none.
#[inline(always)]
fn numbers(inputs: Inputs, o: &Values) -> (u32, u32)
    ensures first { (r : List ℕ) → result.0 ≡ first_input inputs (operands_with_registers o.now r) }
    ensures second { (r : List ℕ) → result.1 ≡ second_input inputs (operands_with_registers o.now r) }
{
    match inputs {
        Inputs::Zero => (0, 0),
        Inputs::First => (o.long(0), 0),
        Inputs::Signed(w) => (extended(w, o.long(0)), 0),
        Inputs::Both => (o.long(0), o.long(1)),
        Inputs::OneAndFirst => (1, o.long(0)),
    }
}

/// Sets a register, if there is one of this number.
#[inline(always)]
fn set(r: &mut [u32; 16], n: u8, v: u32)
    ensures { r.new ≡ slice_set r.old n v }
{
    if n < 16 {
        r[usize::from(n)] = v;
    }
}

/// A result at its destination: mostly a longword in a register.
#[inline(always)]
fn put(dest: &Dest, w: Width, value: u32, plan: &mut Plan)
    requires room { array_vec_len plan.old.writes < 20 }
    ensures { effect plan.new ≡ put dest.now w value (effect plan.old) }
{
    if let Dest::Register(n) = *dest {
        if let Width::Long = w {
            set(&mut plan.r, n, value);
            return;
        }
    }
    plan.put(*dest, w, u64::from(value));
}

/// The number of the operand that gets the result, from 1 on, or 0 where none does.
#[inline(always)]
fn number_of(target: Target) -> usize
    ensures few { result < 4 }
    ensures none { result ≡ 0 → (o : Operands) → target_of target o ≡ Nowhere }
    ensures some { 0 < result → (o : Operands) → target_of target o ≡ dest_of o (result - 1) }
{
    usize::from(target as u8)
}

/// A result at the destination of the operand that gets it.
#[inline(always)]
fn put_result(target: Target, o: &Values, w: Width, value: u32, plan: &mut Plan)
    requires room { array_vec_len plan.old.writes < 20 }
    ensures { (r : List ℕ) → effect plan.new ≡ put (target_of target (operands_with_registers o.now r)) w value (effect plan.old) }
{
    let number = number_of(target);
    if number > 0 {
        put(&o.dests[number - 1], w, value, plan);
    }
}

/// An operation of the arithmetic in a width.
#[inline(always)]
#[tactic(auto, unfolding(vax_table::specs::Operations::computed))]
pub fn compute(
    op: AluOp,
    w: Width,
    inputs: Inputs,
    target: Target,
    o: &Values,
    psw: u8,
    plan: &mut Plan,
)
    requires { w ≢ Width.Quad }
    ensures { effect plan.new ≡ computed op w inputs target (operands_with_registers o.now plan.old.r) psw }
{
    let (first, second) = numbers(inputs, o);
    let x = alu(op, first, second, w, psw);
    begin(plan, x.psw);
    if let Some(kind) = x.trap {
        plan.trap = Some(kind);
    }
    put_result(target, o, w, x.value, plan);
}

/// CLRQ and MOVQ: a quadword at the destination of the operand of this number, with its codes; C stays.
#[tactic(auto, unfolding(vax_table::specs::Computing::moved_quad, vax_table::specs::Arithmetic::alu_of))]
pub fn move_quad(v: u64, index: usize, o: &Values, psw: u8, plan: &mut Plan)
    requires { index < 4 }
    ensures { effect plan.new ≡ moved_quad v (dest_of (operands_with_registers o.now plan.old.r) index) (operands_with_registers o.now plan.old.r) psw }
{
    begin(plan, moved_psw(v, psw));
    plan.put(o.dests[index], Width::Quad, v);
}

ghost use Rattle.std.specs.Prelude.{◌≡◌, ◌<◌, ◌≤◌, ◌+◌};
ghost use Rattle.arrayvec.specs.ArrayVec.{array_vec_len};
ghost use Rattle.vax_table.specs.Calls.{registers_popped, registers_pushed, values_of};
ghost use Rattle.vax_table.specs.Computing.{operand_pushed};
ghost use Rattle.vax_table.specs.Effects.{effect};
ghost use Rattle.vax_table.specs.Interaction.{outcome};
ghost use Rattle.vv_base.specs.Bits.{is_set};
ghost use Rattle.vax_table.specs.Stack.{named_down, named_up, pop, pop_all, push, push_all};
ghost use Rattle.vax_operand.specs.Left.{left, operands_with_registers};

use crate::begun::begin;
use vax_alu::{AluOp, alu};
use vax_operand::{Space, Trouble, Values};
use vax_table::effect::Plan;
use vax_table::evaluation::Place;
use vv_base::Width;

/// Pushes a longword.
#[tactic(auto, unfolding(vax_table::specs::Stack::push))]
pub fn push<S: Space>(space: &S, plan: &mut Plan, v: u32) -> Result<(), Trouble>
    requires room { array_vec_len plan.old.writes < 20 }
    ensures pushed { left result (effect plan.new) ≡ outcome (S.space space.now) (push v (effect plan.old)) }
    ensures stores { array_vec_len plan.new.writes ≤ array_vec_len plan.old.writes + 1 }
{
    let sp = plan.r[14].wrapping_sub(4);
    space.claim(sp, Width::Long)?;
    plan.r[14] = sp;
    plan.store(sp, Width::Long, u64::from(v));
    Ok(())
}

/// Pops a longword into a register.
#[tactic(auto, unfolding(vax_table::specs::Stack::pop))]
pub fn pop<S: Space>(space: &S, place: &mut Place, n: usize) -> Result<(), Trouble>
    requires { n < 16 }
    ensures { left result place.new ≡ outcome (S.space space.now) (pop n place.old) }
{
    let v = space.read(place.at, Width::Long)? as u32;
    place.r[n] = v;
    place.at = place.at.wrapping_add(4);
    Ok(())
}

/// Whether a mask names a register.
fn does_name(mask: u32, n: u32) -> bool
    requires { n < 32 }
    ensures { result ≡ is_set mask n }
{
    (mask >> n) % 2 == 1
}

/// Pushes those of the registers below `count` that a mask names, from the highest down.
#[tactic(auto, unfolding(vax_table::specs::Stack::named_down), using(vax_table::proofs::Scripts::binds))]
pub fn push_named<S: Space>(
    space: &S,
    plan: &mut Plan,
    r: &[u32; 16],
    count: u32,
    mask: u32,
) -> Result<(), Trouble>
    requires count { count ≤ 15 }
    requires room { array_vec_len plan.old.writes + count ≤ 20 }
    ensures pushed { left result (effect plan.new) ≡ outcome (S.space space.now) (push_all (values_of r.now (named_down count mask)) (effect plan.old)) }
    ensures stores { array_vec_len plan.new.writes ≤ array_vec_len plan.old.writes + count }
{
    for n in (0..count).rev() {
        if does_name(mask, n) {
            push(space, plan, r[n as usize])?;
        }
    }
    Ok(())
}

/// Pops those of the registers below `count` that a mask names, from the lowest up.
#[tactic(auto, using(crate::proofs::Pops::pops))]
pub fn pop_named<S: Space>(
    space: &S,
    place: &mut Place,
    count: u32,
    mask: u32,
) -> Result<(), Trouble>
    requires { count ≤ 15 }
    ensures { left result place.new ≡ outcome (S.space space.now) (pop_all (named_up count 0 mask) place.old) }
{
    for n in 0..count {
        if does_name(mask, n) {
            pop(space, place, n as usize)?;
        }
    }
    Ok(())
}

/// PUSHL and PUSHA.
#[tactic(auto, unfolding(vax_table::specs::Computing::operand_pushed))]
pub fn push_operand<S: Space>(
    space: &S,
    o: &Values,
    psw: u8,
    plan: &mut Plan,
) -> Result<(), Trouble>
    ensures { left result (effect plan.new) ≡ outcome (S.space space.now) (operand_pushed (operands_with_registers o.now plan.old.r) psw) }
{
    let v = o.long(0);
    begin(plan, alu(AluOp::Move, v, 0, Width::Long, psw).psw);
    push(space, plan, v)?;
    Ok(())
}

/// PUSHR.
#[tactic(auto, unfolding(vax_table::specs::Calls::registers_pushed))]
pub fn push_registers<S: Space>(
    space: &S,
    o: &Values,
    psw: u8,
    plan: &mut Plan,
) -> Result<(), Trouble>
    ensures { left result (effect plan.new) ≡ outcome (S.space space.now) (registers_pushed (operands_with_registers o.now plan.old.r) psw) }
{
    let r = plan.r;
    begin(plan, psw);
    push_named(space, plan, &r, 15, o.long(0))?;
    Ok(())
}

/// POPR. A popped SP is the value that was popped.
#[tactic(auto, unfolding(vax_table::specs::Calls::registers_popped), using(vax_table::proofs::Scripts::binds))]
pub fn pop_registers<S: Space>(
    space: &S,
    o: &Values,
    psw: u8,
    plan: &mut Plan,
) -> Result<(), Trouble>
    ensures { left result (effect plan.new) ≡ outcome (S.space space.now) (registers_popped (operands_with_registers o.now plan.old.r) psw) }
{
    let mask = o.long(0);
    let r = plan.r;
    let mut place = Place { at: r[14], r };
    pop_named(space, &mut place, 15, mask)?;
    if !does_name(mask, 14) {
        place.r[14] = place.at;
    }
    begin(plan, psw);
    let r = place.r;
    plan.r = r;
    Ok(())
}

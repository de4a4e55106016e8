ghost use Rattle.std.specs.Prelude.{◌≡◌, ◌≤◌, [], ◌∷◌, slice_index};
ghost use Rattle.arrayvec.specs.ArrayVec.{array_vec_len};
ghost use Rattle.vax_table.specs.Calls.{called_general, called_on_stack, entered, entry_mask, frame_popped, frame_word, in_procedure, list_dropped, procedure_status, returned};
ghost use Rattle.vax_table.specs.Effects.{effect};
ghost use Rattle.vax_table.specs.Interaction.{outcome};
ghost use Rattle.vax_table.specs.Stack.{push_all};
ghost use Rattle.vax_table.specs.Troubles.{with_trouble};
ghost use Rattle.vax_operand.specs.Left.{left, operands_with_registers};

use crate::begun::begin;
use crate::stack::{pop, pop_named, push, push_named};
use vax_operand::{Space, Trouble, Values};
use vax_table::effect::Plan;
use vax_table::evaluation::Place;
use vv_base::Width;

/// A frame's second longword.
fn frame_word(is_on_stack: bool, mask: u32, sp: u32, psw: u8) -> u32
    ensures { result ≡ frame_word is_on_stack mask sp psw }
{
    let flag = if is_on_stack { 0x2000_0000 } else { 0 };
    0x4000_0000 * (sp % 4) + flag + 0x1_0000 * (mask % 0x1000) + u32::from(psw / 0x20 * 0x20)
}

/// The status word of a procedure.
fn procedure_status(mask: u32, psw: u8) -> u8
    ensures { result ≡ procedure_status mask psw }
{
    let overflow = (mask / 0x4000 % 2) as u8;
    let decimal = (mask / 0x8000 % 2) as u8;
    0x10 * (psw / 0x10 % 2) + 0x20 * overflow + 0x80 * decimal
}

/// Pushes the end of a frame: PC, FP and AP of these registers, its second longword, and no handler.
#[tactic(auto, using(vax_table::proofs::Scripts::binds))]
fn push_frame_end<S: Space>(
    space: &S,
    plan: &mut Plan,
    r: &[u32; 16],
    word: u32,
) -> Result<(), Trouble>
    requires room { array_vec_len plan.old.writes ≤ 15 }
    ensures { left result (effect plan.new) ≡ outcome (S.space space.now)
        (push_all (slice_index r.now 15 ∷ slice_index r.now 13 ∷ slice_index r.now 12 ∷ word ∷ 0 ∷ [])
        (effect plan.old)) }
{
    push(space, plan, r[15])?;
    push(space, plan, r[13])?;
    push(space, plan, r[12])?;
    push(space, plan, word)?;
    push(space, plan, 0)
}

/// FP is SP, AP the argument list, and PC after the mask.
fn begin_procedure(plan: &mut Plan, procedure: u32, mask: u32, list: u32)
    ensures { effect plan.new ≡ in_procedure procedure mask list (effect plan.old) }
{
    let fp = plan.r[14];
    plan.r[12] = list;
    plan.r[13] = fp;
    plan.r[15] = procedure.wrapping_add(2);
    plan.psw = procedure_status(mask, plan.psw);
}

/// Enters a procedure: the frame is pushed after what is there.
#[tactic(auto, unfolding(vax_table::specs::Calls::entered), using(vax_table::proofs::Scripts::binds))]
fn enter<S: Space>(
    space: &S,
    plan: &mut Plan,
    is_on_stack: bool,
    procedure: u32,
    mask: u32,
    list: u32,
) -> Result<(), Trouble>
    requires room { array_vec_len plan.old.writes ≤ 3 }
    ensures { left result (effect plan.new) ≡ outcome (S.space space.now) (entered is_on_stack procedure mask list (effect plan.old)) }
{
    let r = plan.r;
    let word = frame_word(is_on_stack, mask, r[14], plan.psw);
    plan.r[14] = r[14] / 4 * 4;
    push_named(space, plan, &r, 12, mask)?;
    push_frame_end(space, plan, &r, word)?;
    begin_procedure(plan, procedure, mask, list);
    Ok(())
}

/// The entry mask of a procedure; its bits 13:12 are a reserved operand.
fn read_mask<S: Space>(space: &S, procedure: u32) -> Result<u32, Trouble>
    ensures { with_trouble result ≡ outcome (S.space space.now) (entry_mask procedure) }
{
    let mask = space.read(procedure, Width::Word)? as u32;
    if mask / 0x1000 % 4 == 0 {
        Ok(mask)
    } else {
        Err(Trouble::ReservedOperand)
    }
}

/// CALLG.
#[tactic(auto, unfolding(vax_table::specs::Calls::called_general), using(vax_table::proofs::Scripts::binds))]
pub fn call_general<S: Space>(
    space: &S,
    o: &Values,
    psw: u8,
    plan: &mut Plan,
) -> Result<(), Trouble>
    ensures { left result (effect plan.new) ≡ outcome (S.space space.now) (called_general (operands_with_registers o.now plan.old.r) psw) }
{
    let procedure = o.long(1);
    let mask = read_mask(space, procedure)?;
    begin(plan, psw);
    enter(space, plan, false, procedure, mask, o.long(0))?;
    Ok(())
}

/// CALLS.
#[tactic(auto, unfolding(vax_table::specs::Calls::called_on_stack), using(vax_table::proofs::Scripts::binds))]
pub fn call_on_stack<S: Space>(
    space: &S,
    o: &Values,
    psw: u8,
    plan: &mut Plan,
) -> Result<(), Trouble>
    ensures { left result (effect plan.new) ≡ outcome (S.space space.now) (called_on_stack (operands_with_registers o.now plan.old.r) psw) }
{
    let procedure = o.long(1);
    let mask = read_mask(space, procedure)?;
    begin(plan, psw);
    push(space, plan, o.long(0))?;
    let list = plan.r[14];
    enter(space, plan, true, procedure, mask, list)?;
    Ok(())
}

/// SP after a frame: where the argument list was on the stack, the count's longword and 4 times its low byte go too.
fn drop_list<S: Space>(space: &S, is_on_stack: bool, sp: u32) -> Result<u32, Trouble>
    ensures { with_trouble result ≡ outcome (S.space space.now) (list_dropped is_on_stack sp) }
{
    if is_on_stack {
        let count = space.read(sp, Width::Long)? as u32;
        Ok(sp.wrapping_add(4 + 4 * (count % 0x100)))
    } else {
        Ok(sp)
    }
}

/// Pops the frame after its first two longwords.
#[tactic(auto, unfolding(vax_table::specs::Calls::frame_popped), using(vax_table::proofs::Scripts::binds))]
fn pop_frame<S: Space>(space: &S, place: &mut Place, mask: u32) -> Result<(), Trouble>
    ensures { left result place.new ≡ outcome (S.space space.now) (frame_popped mask place.old) }
{
    pop(space, place, 12)?;
    pop(space, place, 13)?;
    pop(space, place, 15)?;
    pop_named(space, place, 12, mask)
}

/// RET.
#[tactic(auto, unfolding(vax_table::specs::Calls::returned), using(vax_table::proofs::Scripts::binds))]
pub fn ret<S: Space>(space: &S, o: &Values, psw: u8, plan: &mut Plan) -> Result<(), Trouble>
    ensures { left result (effect plan.new) ≡ outcome (S.space space.now) (returned (operands_with_registers o.now plan.old.r) psw) }
{
    let r = plan.r;
    let fp = r[13];
    space.read(fp, Width::Long)?;
    let word = space.read(fp.wrapping_add(4), Width::Long)? as u32;
    if word / 0x100 % 0x100 != 0 {
        return Err(Trouble::ReservedOperand);
    }
    let mut place = Place {
        at: fp.wrapping_add(8),
        r,
    };
    pop_frame(space, &mut place, word / 0x1_0000)?;
    let is_on_stack = word / 0x2000_0000 % 2 == 1;
    let sp = drop_list(
        space,
        is_on_stack,
        place.at.wrapping_add(word / 0x4000_0000),
    )?;
    begin(plan, psw);
    let r = place.r;
    plan.r = r;
    plan.r[14] = sp;
    plan.psw = (word % 0x100) as u8;
    Ok(())
}

ghost use Rattle.std.specs.Prelude.{◌≡◌, ◌<◌, ℕ, List, None, Ok, true, IfSome};
ghost use Rattle.arrayvec.specs.ArrayVec.{array_vec_len};
ghost use Rattle.vax_table.specs.Effects.{effect, put};
ghost use Rattle.vax_table.specs.Fetch.{fetched};
ghost use Rattle.vax_table.specs.AllOperands.{operands_of, trap_operands};
ghost use Rattle.vax_table.specs.Operations.{operation_of};
ghost use Rattle.vax_table.specs.Plan.{is_planned};
ghost use Rattle.vax_table.specs.Interaction.{outcome};
ghost use Rattle.vax_table.specs.Spelling.{IsWellFormed, view};
ghost use Rattle.vax_table.specs.Whole.{first_operand, probe_of, trap_of, trapping};
ghost use Rattle.vax_table.specs.Acted.{acted, plain_meaning, probing, is_always_done};
ghost use Rattle.vax_table.specs.declared.effect.Plan.{Plan};
ghost use Rattle.vax_table.specs.declared.evaluation.Operands.{Operands};
ghost use Rattle.vax_table.specs.declared.meaning.Operation.TheVariants.{MoveStatus};
ghost use Rattle.vv_base.specs.declared.width.Width.TheVariants.{Long};
ghost use Rattle.vax_operand.specs.Left.{left, operands_with_registers};
ghost use Rattle.vax_hw.specs.Machine.{seen_psl};
ghost use Rattle.vax_hw.specs.Real.{in_kernel};
ghost use Rattle.vax_kept.specs.Changed.{AreAlikeBut};
ghost use Rattle.vax_cpu.specs.Outcomes.{acts_of, attempted, found, is_of_status, meaning_of, settled_as};
ghost use Rattle.vax_kept.specs.Fetched.{exits};
ghost use Rattle.vax_cpu.specs.Completed.{fetched_at, meaning_at, settled, settled_at};

use crate::probe::{judge, probed};
use crate::state::{State, seen_psl};
use crate::stop::{Stop, stop_of};
use std::cell::Cell;
use vax_arch::Intent;
use vax_decode::Decoded;
use vax_exec::{Plan, begin, plan_into};
use vax_hw::{Mode, Psl, Refusal, Sens, Trapped, World};
use vax_kept::{Fault, Kept, fetch, has_known, has_known_in_page};
use vax_operand::{
    Dest, Operands, Prepared, Space, Trouble, Values, evaluate, evaluate_into, evaluate_trap,
};
use vax_paged::Paged;
use vax_table::Operation;
use vv_base::Width;

/// The outcome of an instruction: what it planned, or with its operands a trap, or PROBE's test of them.
#[derive(Clone, Copy)]
pub enum Act {
    Plain,
    Traps(Sens),
    Probes(Intent),
}

/// An instruction that was found, with its opcode.
#[derive(Clone, Copy)]
struct Found {
    opcode: u8,
    act: Act,
}

/// MFPR's opcode, and the mode of an operand that is a register.
const MFPR: u8 = 0xDB;

const REGISTER: u8 = 5;

/// CHM and REI are done in every mode.
fn is_always_done(op: Sens) -> bool
    ensures { result ≡ is_always_done op }
{
    matches!(op, Sens::Chm(_) | Sens::Rei)
}

/// The first operand of a trap: CHM's code is sign-extended.
fn first_operand(op: Sens, o: &Values, r: &[u32; 16]) -> u32
    ensures { result ≡ first_operand op (operands_with_registers o.now r.now) }
{
    let a = o.long(0);
    match op {
        Sens::Chm(_) if a % 0x1_0000 >= 0x8000 => a % 0x1_0000 + 0xFFFF_0000,
        Sens::Chm(_) => a % 0x1_0000,
        _ => a,
    }
}

/// A trap with these operands, and the registers after them.
pub fn trap_of(op: Sens, o: &Values, r: &[u32; 16]) -> Trapped
    ensures { result ≡ trap_of op (operands_with_registers o.now r.now) }
{
    let mut regs = [0; 15];
    regs.copy_from_slice(&r[..15]);
    Trapped {
        op,
        a: first_operand(op, o, r),
        b: o.long(1),
        c: o.long(2),
        dest: o.dests[1],
        next_pc: r[15],
        regs,
    }
}

/// Whether an instruction that traps has the operands that are prepared: each has but MFPR to memory, whose destination is
/// not translated then.
fn traps_as_prepared(d: &Decoded) -> bool
    ensures { result ≡ true → (r : List ℕ) → trap_operands (view d.now) r ≡ operands_of (view d.now) r }
{
    if d.opcode != MFPR {
        return true;
    }
    match d.specs.as_slice() {
        [_, to] => to.mode == REGISTER,
        _ => false,
    }
}

/// The operands of an instruction that traps, not as they are prepared.
#[cold]
#[inline(never)]
fn evaluate_anew<S: Space>(
    s: &S,
    d: &Decoded,
    r: &mut [u32; 16],
    v: &mut Values,
) -> Result<(), Trouble>
    requires { IsWellFormed (view d.now) }
    ensures { left result (operands_with_registers v.new r.new) ≡ outcome (S.space s.now) (trap_operands (view d.now) r.old) }
{
    let Operands {
        values,
        dests,
        r: later,
    } = evaluate_trap(s, d, r)?;
    *v = Values { values, dests };
    *r = later;
    Ok(())
}

/// The operands of an instruction that traps: `r` is R0 to R15 before it, and after it with the side effects. After an error it
/// doesn't matter what `r` and `v` are.
fn evaluate_trapped<S: Space>(
    s: &S,
    e: &Prepared,
    r: &mut [u32; 16],
    v: &mut Values,
) -> Result<(), Trouble>
    requires { IsWellFormed (view e.now.decoded) }
    ensures { left result (operands_with_registers v.new r.new) ≡ outcome (S.space s.now) (trap_operands (view e.now.decoded) r.old) }
{
    if traps_as_prepared(&e.decoded) {
        return evaluate_into(s, e, r, v);
    }
    evaluate_anew(s, &e.decoded, r, v)
}

/// A sensitive instruction that traps; its operands go to `o` and the plan's registers.
#[tactic(auto, using(vax_table::proofs::Scripts::binds))]
#[inline(always)]
fn trap<S: Space>(
    s: &S,
    op: Sens,
    kept: &Kept,
    o: &mut Values,
    plan: &mut Plan,
) -> Result<Act, Stop>
    requires { IsWellFormed (view kept.now.prepared.decoded) }
    ensures { acts_of kept.now o.new plan.new result ≡ exits (outcome (S.space s.now) (trapping op (view kept.now.prepared.decoded) plan.old.r)) }
{
    evaluate_trapped(s, &kept.prepared, &mut plan.r, o).map_err(stop_of)?;
    Ok(Act::Traps(op))
}

/// The sensitive instruction that PROBE traps as.
pub fn probe_of(intent: Intent) -> Sens
    ensures { result ≡ probe_of intent }
{
    match intent {
        Intent::Read => Sens::Prober,
        Intent::Write => Sens::Probew,
    }
}

/// A plain instruction but MOVPSL, PROBE, BPT and XFC.
#[tactic(auto, using(vax_table::proofs::Scripts::binds, vax_table::proofs::Plans::plans_planned))]
fn plain<S: Space>(
    s: &S,
    kept: &Kept,
    psl: Psl,
    o: &mut Values,
    plan: &mut Plan,
) -> Result<Act, Stop>
    requires formed { IsWellFormed (view kept.now.prepared.decoded) }
    requires planned { is_planned (operation_of kept.now.prepared.decoded.opcode) ≡ true }
    ensures { acts_of kept.now o.new plan.new result ≡ exits (outcome (S.space s.now) (plain_meaning psl.0 (view kept.now.prepared.decoded) plan.old.r)) }
{
    plan_into(s, &kept.prepared, psl, o, plan).map_err(stop_of)?;
    Ok(Act::Plain)
}

/// A longword at its destination, as `Plan::put` puts it, and in a register without a call.
#[inline(always)]
fn put_long(plan: &mut Plan, dest: &Dest, v: u32)
    requires room { array_vec_len plan.old.writes < 20 }
    ensures { effect plan.new ≡ put dest.now Long v (effect plan.old) }
{
    match *dest {
        Dest::Register(n) if n < 16 => {
            plan.r[usize::from(n)] = v;
        }
        _ => plan.put(*dest, Width::Long, u64::from(v)),
    }
}

/// MOVPSL.
#[tactic(auto, unfolding(vax_table::specs::Plan::plan_of), using(vax_table::proofs::Scripts::binds))]
#[inline(always)]
fn moves_status<S: Space>(
    s: &S,
    kept: &Kept,
    psl: Psl,
    o: &mut Values,
    plan: &mut Plan,
) -> Result<Act, Stop>
    requires formed { IsWellFormed (view kept.now.prepared.decoded) }
    requires moves { operation_of kept.now.prepared.decoded.opcode ≡ MoveStatus }
    ensures { acts_of kept.now o.new plan.new result ≡ exits (outcome (S.space s.now) (plain_meaning psl.0 (view kept.now.prepared.decoded) plan.old.r)) }
{
    evaluate_into(s, &kept.prepared, &mut plan.r, o).map_err(stop_of)?;
    begin(plan, (psl.0 % 0x100) as u8);
    put_long(plan, &o.dests[0], psl.0);
    Ok(Act::Plain)
}

/// MOVPSL, out of line.
#[cold]
#[inline(never)]
fn move_status<S: Space>(
    s: &S,
    kept: &Kept,
    psl: Psl,
    o: &mut Values,
    plan: &mut Plan,
) -> Result<Act, Stop>
    requires formed { IsWellFormed (view kept.now.prepared.decoded) }
    requires moves { operation_of kept.now.prepared.decoded.opcode ≡ MoveStatus }
    ensures { acts_of kept.now o.new plan.new result ≡ exits (outcome (S.space s.now) (plain_meaning psl.0 (view kept.now.prepared.decoded) plan.old.r)) }
{
    moves_status(s, kept, psl, o, plan)
}

/// PROBE after its operands, which go to `o` and the plan's registers.
#[tactic(auto, unfolding(vax_table::specs::Acted::acted), using(vax_table::proofs::Scripts::binds))]
#[inline(always)]
fn probes<S: Space>(
    s: &S,
    intent: Intent,
    kept: &Kept,
    o: &mut Values,
    plan: &mut Plan,
) -> Result<Act, Stop>
    requires { IsWellFormed (view kept.now.prepared.decoded) }
    ensures { acts_of kept.now o.new plan.new result ≡ exits (outcome (S.space s.now) (probing intent (view kept.now.prepared.decoded) plan.old.r)) }
{
    evaluate_into(s, &kept.prepared, &mut plan.r, o).map_err(stop_of)?;
    Ok(Act::Probes(intent))
}

/// The outcome of an instruction that is kept, in kernel mode or not, with the PSL that MOVPSL stores. The plan's registers are
/// those before it. Its operands go to `o`, and what it plans to `plan`; after an error, and where it traps, these are
/// unspecified.
#[tactic(auto, unfolding(vax_table::specs::Acted::acted, vax_table::specs::Plan::plan_of, vax_table::specs::Plan::performed), using(vax_table::proofs::Scripts::binds))]
#[inline(always)]
pub fn carry_out<S: Space>(
    s: &S,
    is_kernel: bool,
    kept: &Kept,
    psl: Psl,
    o: &mut Values,
    plan: &mut Plan,
) -> Result<Act, Stop>
    requires { IsWellFormed (view kept.now.prepared.decoded) }
    ensures { acts_of kept.now o.new plan.new result ≡ exits (outcome (S.space s.now) (acted is_kernel psl.0 (view kept.now.prepared.decoded) plan.old.r)) }
{
    let d = &kept.prepared.decoded;
    let refusal = match kept.prepared.operation {
        Operation::Sensitive(op) => {
            if is_always_done(op) || is_kernel {
                return trap(s, op, kept, o, plan);
            }
            return Err(Stop::Fault(Fault::Refused(Refusal::Instruction)));
        }
        Operation::Probe(intent) => {
            return probes(s, intent, kept, o, plan);
        }
        Operation::MoveStatus => {
            return move_status(s, kept, psl, o, plan);
        }
        Operation::Breakpoint => Refusal::Breakpoint,
        Operation::Customer => Refusal::Customer,
        Operation::Other => Refusal::Instruction,
        _ => {
            return plain(s, kept, psl, o, plan);
        }
    };
    evaluate(s, d, &plan.r).map_err(stop_of)?;
    Err(Stop::Fault(Fault::Refused(refusal)))
}

/// Whether the guest is in kernel mode.
fn is_in_kernel(w: &World) -> bool
    ensures { result ≡ in_kernel w.now }
{
    w.vmpsl.current() == Mode::Kernel
}

/// The instruction at PC over a memory, and its outcome, with the plan's registers in place of the world's. It is kept,
/// or taken where it was kept already.
#[tactic(auto, using(vax_table::proofs::Acted::instruction_binds))]
fn find(
    memory: &[u8],
    world: &World,
    kept: &mut Kept,
    o: &mut Values,
    plan: &mut Plan,
) -> Result<Found, Stop>
    ensures { found o.new plan.new result ≡ meaning_at memory.now world.now plan.old.r }
{
    let space = Paged { memory, world };
    fetch(&space, plan.r[15], kept).map_err(Stop::Fault)?;
    let is_kernel = is_in_kernel(world);
    let act = carry_out(&space, is_kernel, kept, seen_psl(world), o, plan)?;
    Ok(Found {
        opcode: kept.prepared.decoded.opcode,
        act,
    })
}

/// Whether an instruction that was found retires, by its plan: a plain one where the modify bits of all that it stores are
/// set; PROBE where the machine judges its bytes.
#[inline(always)]
fn settle(memory: &[u8], world: &World, act: Act, o: &Values, plan: &mut Plan) -> Result<(), Stop>
    ensures { settled_as o.now plan.new result ≡ settled memory.now world.now (meaning_of o.now plan.old act) }
{
    match act {
        Act::Plain if plan.writes.is_empty() => Ok(()),
        Act::Plain => {
            let space = Paged { memory, world };
            match space.first_clear(plan.writes.as_slice()) {
                Some(va) => Err(Stop::Modify(va)),
                None => Ok(()),
            }
        }
        Act::Traps(op) => Err(Stop::Emulate(op)),
        Act::Probes(intent) => match judge(&Paged { memory, world }, intent, o) {
            Some(is_accessible) => {
                probed(is_accessible, (world.psl.0 % 0x100) as u8, plan);
                Ok(())
            }
            None => Err(Stop::Emulate(probe_of(intent))),
        },
    }
}

/// Whether the instruction at PC retires by the plan and without a trap, as far as that is decided quickly: it is kept and plain,
/// and all that it refers to lies in pages that are known. The plan's registers are those before it, in place of the world's.
/// Where this answers no, the plan is unspecified.
pub fn attempt_known(
    state: &State,
    missed: &Cell<u32>,
    kept: &Kept,
    o: &mut Values,
    plan: &mut Plan,
) -> bool
    ensures untrapped { result ≡ true → plan.new.trap ≡ None }
    ensures changed { result ≡ true → kept.now.changed < 15 → AreAlikeBut kept.now.changed plan.old.r plan.new.r }
    ensures attempted { result ≡ true → Ok (kept.now.prepared.decoded.opcode, effect plan.new) ≡ settled_at state.now.memory state.now.world plan.old.r }
{
    let world = state.world();
    let space = state.mapped(missed);
    if !has_known(&space, world, kept, plan.r[15]) {
        return false;
    }
    match plan_into(&space, &kept.prepared, seen_psl(world), o, plan) {
        Ok(()) => match plan.trap {
            Some(_) => false,
            None => space.may_store(world, plan.writes.as_slice()),
        },
        Err(_) => false,
    }
}

/// Whether an operation is MOVPSL's or PROBE's.
pub fn is_of_status(operation: Operation) -> bool
    ensures { result ≡ is_of_status operation }
{
    matches!(operation, Operation::MoveStatus | Operation::Probe(_))
}

/// The outcome of MOVPSL or PROBE at PC, which is the kept one, where all that it refers to lies in pages that are known. The
/// plan's registers are those before it, in place of the world's.
#[inline(always)]
fn find_of_status(
    state: &State,
    missed: &Cell<u32>,
    kept: &Kept,
    o: &mut Values,
    plan: &mut Plan,
) -> Option<Act>
    requires fetched { Ok (view kept.now.prepared.decoded) ≡ fetched_at state.now.memory state.now.world plan.old.r }
    requires formed { IsWellFormed (view kept.now.prepared.decoded) }
    ensures { IfSome result (λ a. acts_of kept.now o.new plan.new (Ok a) ≡ meaning_at state.now.memory state.now.world plan.old.r) }
{
    let space = state.mapped(missed);
    match kept.prepared.operation {
        Operation::Probe(intent) => match probes(&space, intent, kept, o, plan) {
            Ok(act) => Some(act),
            Err(_) => None,
        },
        Operation::MoveStatus => match moves_status(
            &space,
            kept,
            seen_psl(state.world()),
            o,
            plan,
        ) {
            Ok(act) => Some(act),
            Err(_) => None,
        },
        _ => None,
    }
}

/// Whether MOVPSL or PROBE at PC, which is the kept one, retires by the plan, where all that it refers to lies in pages that are
/// known. The plan's registers are those before it, in place of the world's. Where this answers no, the plan is unspecified.
pub fn attempt_of_status(
    state: &State,
    missed: &Cell<u32>,
    kept: &Kept,
    o: &mut Values,
    plan: &mut Plan,
) -> bool
    requires fetched { Ok (view kept.now.prepared.decoded) ≡ fetched_at state.now.memory state.now.world plan.old.r }
    requires formed { IsWellFormed (view kept.now.prepared.decoded) }
    ensures untrapped { result ≡ true → plan.new.trap ≡ None }
    ensures attempted { result ≡ true → Ok (kept.now.prepared.decoded.opcode, effect plan.new) ≡ settled_at state.now.memory state.now.world plan.old.r }
{
    match find_of_status(state, missed, kept, o, plan) {
        Some(act) => {
            settle(state.memory(), state.world(), act, o, plan).is_ok() && plan.trap.is_none()
        }
        None => false,
    }
}

/// The outcome of the instruction at PC, where it is kept, and all that it refers to lies in pages that are known. The plan's
/// registers are those before it, in place of the world's.
#[inline(always)]
fn find_known(
    state: &State,
    missed: &Cell<u32>,
    kept: &Kept,
    o: &mut Values,
    plan: &mut Plan,
) -> Option<Act>
    ensures { IfSome result (λ a. acts_of kept.now o.new plan.new (Ok a) ≡ meaning_at state.now.memory state.now.world plan.old.r) }
{
    let world = state.world();
    let space = state.mapped(missed);
    if !has_known_in_page(&space, world, kept, plan.r[15]) {
        return None;
    }
    match carry_out(&space, is_in_kernel(world), kept, seen_psl(world), o, plan) {
        Ok(act) => Some(act),
        Err(_) => None,
    }
}

/// The opcode of the instruction at PC, which retires by the plan, or why it doesn't retire, where it is kept and all that it
/// refers to lies in pages that are known. `before` are the registers before it. Otherwise the plan is unspecified.
#[cold]
#[inline(never)]
pub fn attempt_kept(
    state: &State,
    missed: &Cell<u32>,
    kept: &Kept,
    o: &mut Values,
    before: &[u32; 16],
    plan: &mut Plan,
) -> Option<Result<u8, Stop>>
    ensures { IfSome result (λ x. attempted o.new plan.new x ≡ settled_at state.now.memory state.now.world before.now) }
{
    plan.r = *before;
    match find_known(state, missed, kept, o, plan) {
        Some(act) => match settle(state.memory(), state.world(), act, o, plan) {
            Ok(()) => Some(Ok(kept.prepared.decoded.opcode)),
            Err(stop) => Some(Err(stop)),
        },
        None => None,
    }
}

/// The opcode of the instruction at PC over a memory, which retires by the plan, or why it doesn't retire. The plan's registers
/// are those before it, in place of the world's. After an error the plan is unspecified.
pub fn attempt(
    memory: &[u8],
    world: &World,
    kept: &mut Kept,
    o: &mut Values,
    plan: &mut Plan,
) -> Result<u8, Stop>
    ensures { attempted o.new plan.new result ≡ settled_at memory.now world.now plan.old.r }
{
    let found = find(memory, world, kept, o, plan)?;
    settle(memory, world, found.act, o, plan)?;
    Ok(found.opcode)
}

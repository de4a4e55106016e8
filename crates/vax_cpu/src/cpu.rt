ghost use Rattle.std.specs.Prelude.{◌≡◌, ◌*◌, ◌≤◌, length, sum, take, IfOk, IfSome, MatchOption, Ok};
ghost use Rattle.vax_hw.specs.Machine.{Machine, zeros};
ghost use Rattle.vax_hw.specs.Real.{real};
ghost use Rattle.vax_paged.specs.Paged.{placed};
ghost use Rattle.vax_table.specs.Troubles.{intent_of};
ghost use Rattle.vax_cpu.specs.Completed.{EndsWith, RunsOnWithSum, settled_at, with_registers};
ghost use Rattle.vax_cpu.specs.Outcomes.{attempted};

use crate::at_once::step_at_once;
use crate::here::stands_in_page;
use crate::perform::{attempt, attempt_kept, attempt_known, attempt_of_status, is_of_status};
use crate::rarer::rarer_at_once;
use crate::state::State;
use crate::stop::{Stop, end_with};
use arrayvec::ArrayVec;
use std::alloc::Global;
use std::cell::Cell;
use std::marker::Model;
use vax_exec::Plan;
use vax_hw::{Exit, Hardware, World};
use vax_kept::{Code, Kept, renew, sum_after};
use vax_normal::sum_of;
use vax_operand::Values;
use vv_base::NoMemory;

/// The machine of the program: its memory is a number of pages of 512 bytes.
#[derive(Drop)]
pub struct Cpu {
    state: State,
    code: Code,
    operands: Values,
    /// The last instruction's plan; its registers are the machine's.
    plan: Plan,
}

impl Model for Cpu {
    ghost use Rattle.vax_cpu.specs.Completed.{with_registers};
    ghost use Rattle.vax_hw.specs.Machine.{Machine};

    ghost Value = { Machine };

    ghost view = { λ m. with_registers m.plan.r m.state };
}

impl Cpu {
    /// A machine of 1 to 65,536 pages of zeros, whose counts are 0.
    pub fn new(alloc: Global, pages: u32) -> Result<Cpu, NoMemory>
        requires some { 1 ≤ pages }
        requires most { pages ≤ 65536 }
        ensures size { IfOk result (λ m. length m.memory ≡ 512 * pages) }
        ensures memory { IfOk result (λ m. m.memory ≡ zeros (512 * pages)) }
        ensures counts { IfOk result (λ m. (m.retired ≡ 0) × (m.trail ≡ 0) × (m.misses ≡ 0)) }
    {
        Ok(Cpu {
            state: State::new(alloc, pages)?,
            code: Code::nothing(alloc)?,
            operands: Values::none(),
            plan: Plan {
                r: [0; 16],
                psw: 0,
                writes: ArrayVec::new(),
                trap: None,
            },
        })
    }

    /// The place of an address, if its page is known and open: the machine does not walk the page tables for it then.
    #[tactic(auto, using(vax_paged::proofs::Knowing::known_placed))]
    pub fn known_place(&self, va: u32, write: bool) -> Option<usize>
        ensures { IfSome result (λ place. placed self.now.memory self.now.world (intent_of write) va ≡ Ok place) }
    {
        let missed = Cell::new(u32::MAX);
        self.state.mapped(&missed).place(va, write)
    }
}

/// The opcode of the instruction at PC, which retires by the plan, or why it doesn't retire, by the page tables. A page
/// that was missed is known then, if it retires: after an exit the tables may be others. `before` are the registers before it.
#[cold]
#[inline(never)]
fn attempt_walked(
    state: &mut State,
    missed: &Cell<u32>,
    code: &mut Code,
    o: &mut Values,
    before: &[u32; 16],
    plan: &mut Plan,
) -> Result<u8, Stop>
    ensures attempted { attempted o.new plan.new result ≡ settled_at state.old.memory state.old.world before.now }
    ensures state { state.new ≡ state.old }
{
    plan.r = *before;
    let place = code.place_for(before[15]);
    let kept = &mut code.places[place];
    let attempt = attempt(state.memory(), state.world(), kept, o, plan);
    if attempt.is_ok() && missed.get() != u32::MAX {
        state.learn(missed);
    }
    attempt
}

/// The opcode of the instruction at PC, which retires by the plan, or why it doesn't retire: by the pages that are known, or else
/// by the page tables.
#[inline(always)]
fn attempt_next(
    state: &mut State,
    missed: &Cell<u32>,
    code: &mut Code,
    o: &mut Values,
    before: &[u32; 16],
    plan: &mut Plan,
) -> Result<u8, Stop>
    ensures attempted { attempted o.new plan.new result ≡ settled_at state.old.memory state.old.world before.now }
    ensures state { state.new ≡ state.old }
{
    let kept = code.at(before[15]);
    if kept.end == 0 {
        if let Some(attempt) = attempt_kept(state, missed, kept, o, before, plan) {
            return attempt;
        }
    }
    attempt_walked(state, missed, code, o, before, plan)
}

/// MOVPSL or PROBE at PC by the pages that are known, if it is kept and retires by them: the sum of R0 to R14 after it.
#[cold]
#[inline(never)]
fn step_of_status(
    state: &mut State,
    missed: &Cell<u32>,
    kept: &Kept,
    o: &mut Values,
    plan: &mut Plan,
) -> Option<u64>
    ensures { MatchOption result ((state.new ≡ state.old) × (plan.new.r ≡ plan.old.r)) (λ t. RunsOnWithSum t state.old plan.old.r state.new plan.new.r) }
{
    let before = plan.r;
    if !stands_in_page(state, missed, kept, before[15]) {
        return None;
    }
    if !attempt_of_status(state, missed, kept, o, plan) {
        plan.r = before;
        return None;
    }
    let total = sum_of(&plan.r);
    let opcode = kept.prepared.decoded.opcode;
    if plan.writes.is_empty() {
        state.retire_at_once(before[15], opcode, total, plan.psw, &plan.r);
    } else {
        state.retire(before[15], opcode, total, plan, missed);
    }
    Some(total)
}

/// The instruction at PC by the pages that are known, if it is kept and retires by them, and none was missed before: the sum of
/// R0 to R14 after it. `total` is that sum before it.
#[inline(always)]
fn step_known(
    state: &mut State,
    missed: &Cell<u32>,
    kept: &Kept,
    o: &mut Values,
    plan: &mut Plan,
    total: u64,
) -> Option<u64>
    requires { total ≡ sum (take 15 plan.old.r) }
    ensures { MatchOption result ((state.new ≡ state.old) × (plan.new.r ≡ plan.old.r)) (λ t. RunsOnWithSum t state.old plan.old.r state.new plan.new.r) }
{
    if kept.end == 0 {
        if !is_of_status(kept.prepared.operation) {
            return None;
        }
        return step_of_status(state, missed, kept, o, plan);
    }
    if missed.get() != u32::MAX {
        return None;
    }
    let before = plan.r;
    if !attempt_known(state, missed, kept, o, plan) {
        plan.r = before;
        return None;
    }
    let total = sum_after(total, kept.changed, &before, &plan.r);
    state.retire(
        before[15],
        kept.prepared.decoded.opcode,
        total,
        plan,
        missed,
    );
    Some(total)
}

/// The instruction at PC in a form that isn't among the commonest, or by its plan.
#[inline(never)]
fn step_rarer(
    state: &mut State,
    missed: &Cell<u32>,
    kept: &Kept,
    o: &mut Values,
    plan: &mut Plan,
    total: u64,
) -> Option<u64>
    requires { total ≡ sum (take 15 plan.old.r) }
    ensures { MatchOption result ((state.new ≡ state.old) × (plan.new.r ≡ plan.old.r)) (λ t. RunsOnWithSum t state.old plan.old.r state.new plan.new.r) }
{
    if let Some(sum) = rarer_at_once(state, missed, kept, &mut plan.r, total) {
        return Some(sum);
    }
    step_known(state, missed, kept, o, plan, total)
}

/// The instruction at PC by what is kept of it, if it retires by that: the sum of R0 to R14 after it. `total` is that sum before
/// it.
#[inline(always)]
fn step_kept(
    state: &mut State,
    missed: &Cell<u32>,
    kept: &Kept,
    o: &mut Values,
    plan: &mut Plan,
    total: u64,
) -> Option<u64>
    requires { total ≡ sum (take 15 plan.old.r) }
    ensures { MatchOption result ((state.new ≡ state.old) × (plan.new.r ≡ plan.old.r)) (λ t. RunsOnWithSum t state.old plan.old.r state.new plan.new.r) }
{
    if let Some(sum) = step_at_once(state, missed, kept, &mut plan.r, total) {
        return Some(sum);
    }
    step_rarer(state, missed, kept, o, plan, total)
}

/// The instruction at PC, whatever it is: the sum of R0 to R14 after it, or with what the run ends, in `exit`.
#[cold]
#[inline(never)]
fn step_whole(
    state: &mut State,
    missed: &Cell<u32>,
    code: &mut Code,
    o: &mut Values,
    plan: &mut Plan,
    exit: &mut Exit,
) -> Option<u64>
    ensures { MatchOption result (EndsWith exit.new (with_registers plan.old.r state.old)
        (with_registers plan.new.r state.new)) (λ t. RunsOnWithSum t state.old plan.old.r state.new plan.new.r) }
{
    let before = plan.r;
    match attempt_next(state, missed, code, o, &before, plan) {
        Ok(opcode) => {
            let total = sum_of(&plan.r);
            state.retire(before[15], opcode, total, plan, missed);
            match plan.trap {
                Some(kind) => {
                    *exit = Exit::Arithmetic { kind };
                    None
                }
                None => Some(total),
            }
        }
        Err(stop) => {
            end_with(stop, o, &plan.r, exit);
            plan.r = before;
            state.stop(exit);
            None
        }
    }
}

/// A run of at most `budget` instructions, which says in `exit` why it ended. The plan's registers are the machine's, in place of
/// the world's.
fn run_parts(
    state: &mut State,
    code: &mut Code,
    o: &mut Values,
    plan: &mut Plan,
    budget: u32,
    exit: &mut Exit,
)
    ensures { (with_registers plan.new.r state.new, exit.new) ≡ real budget (with_registers plan.old.r state.old) }
{
    let missed = Cell::new(u32::MAX);
    let mut total = sum_of(&plan.r);
    let mut left = budget;
    let mut renewals = budget;
    while left > 0 {
        let pc = plan.r[15];
        let kept = code.at(pc);
        if let Some(sum) = step_kept(state, &missed, kept, o, plan, total) {
            total = sum;
            left -= 1;
            continue;
        }
        let is_other = kept.end != 0 && missed.get() == u32::MAX;
        if is_other && renewals > 0 && renew(&state.mapped(&missed), pc, code) {
            renewals -= 1;
            continue;
        }
        let Some(sum) = step_whole(state, &missed, code, o, plan, exit) else {
            return;
        };
        total = sum;
        left -= 1;
    }
    *exit = Exit::Budget;
}

impl Hardware for Cpu {
    ghost machine = { λ m. m };

    fn pages(&self) -> u32 {
        self.state.pages()
    }

    fn retired(&self) -> u64 {
        self.state.retired()
    }

    fn trail(&self) -> u64 {
        self.state.trail()
    }

    fn misses(&self) -> u64 {
        self.state.misses()
    }

    fn read_long(&self, pa: u32) -> u32 {
        self.state.read_long(pa)
    }

    fn write_long(&mut self, pa: u32, v: u32) {
        self.state.write_long(pa, v);
    }

    fn load_world(&mut self, w: &World) {
        self.state.load(w);
        let r = w.r;
        self.plan.r = r;
    }

    fn save_world(&self) -> World {
        let r = self.plan.r;
        World {
            r,
            ..*self.state.world()
        }
    }

    fn run(&mut self, budget: u32) -> Exit {
        let mut exit = Exit::Budget;
        run_parts(
            &mut self.state,
            &mut self.code,
            &mut self.operands,
            &mut self.plan,
            budget,
            &mut exit,
        );
        exit
    }
}

ghost use Rattle.std.specs.Prelude.{◌≡◌, sum, take, MatchOption};
ghost use Rattle.vax_table.specs.Spelling.{view};
ghost use Rattle.vax_normal.specs.ProbeTest.{IsProbeTest};
ghost use Rattle.vax_normal.specs.StatusMove.{IsStatusMove};
ghost use Rattle.vax_cpu.specs.Completed.{RunsOnWithSum};

use crate::here::stands_in_page;
use crate::probe::{judge_at, probed_psw};
use crate::state::{State, seen_psl};
use std::cell::Cell;
use vax_kept::Kept;
use vax_normal::{ProbeTest, StatusMove, go_on};
use vax_paged::Paged;

/// MOVPSL at PC in a page that is known, of which this is the normal form: the sum of R0 to R14 after it, if it is done.
#[inline(always)]
pub fn step_status_move(
    state: &mut State,
    missed: &Cell<u32>,
    kept: &Kept,
    form: &StatusMove,
    r: &mut [u32; 16],
    total: u64,
) -> Option<u64>
    requires form { IsStatusMove form.now (view kept.now.prepared.decoded) }
    requires sum { total ≡ sum (take 15 r.old) }
    ensures { MatchOption result ((state.new ≡ state.old) × (r.new ≡ r.old)) (λ t. RunsOnWithSum t state.old r.old state.new r.new) }
{
    let pc = r[15];
    if !stands_in_page(state, missed, kept, pc) {
        return None;
    }
    let psl = seen_psl(state.world());
    let psw = state.psw();
    let total = form.finish(psl.0, r, total);
    state.retire_at_once(pc, kept.prepared.decoded.opcode, total, psw, r);
    Some(total)
}

/// PROBER or PROBEW at PC in a page that is known, of which this is the normal form, where the machine judges the bytes: the
/// sum of R0 to R14 after it, if it is done.
#[inline(always)]
pub fn step_probe(
    state: &mut State,
    missed: &Cell<u32>,
    kept: &Kept,
    form: &ProbeTest,
    r: &mut [u32; 16],
    total: u64,
) -> Option<u64>
    requires form { IsProbeTest form.now (view kept.now.prepared.decoded) }
    requires sum { total ≡ sum (take 15 r.old) }
    ensures { MatchOption result ((state.new ≡ state.old) × (r.new ≡ r.old)) (λ t. RunsOnWithSum t state.old r.old state.new r.new) }
{
    let pc = r[15];
    if !stands_in_page(state, missed, kept, pc) {
        return None;
    }
    let space = Paged {
        memory: state.memory(),
        world: state.world(),
    };
    let mode = form.mode.value(r);
    let bytes = form.bytes.value(r);
    let is_accessible = judge_at(&space, form.intent, mode, bytes, form.base.value(r))?;
    let psw = probed_psw(is_accessible, state.psw());
    go_on(r, form.length, total);
    state.retire_at_once(pc, kept.prepared.decoded.opcode, total, psw, r);
    Some(total)
}

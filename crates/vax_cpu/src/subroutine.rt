ghost use Rattle.std.specs.Prelude.{◌≡◌, sum, take, MatchOption};
ghost use Rattle.vax_table.specs.Spelling.{view};
ghost use Rattle.vax_normal.specs.Subroutine.{IsCall, IsReturn};
ghost use Rattle.vax_cpu.specs.Completed.{RunsOnWithSum};

use crate::here::stands;
use crate::state::State;
use std::cell::Cell;
use vax_kept::Kept;
use vax_normal::{After, Call, return_address, return_to};
use vv_base::Width;

/// BSBB or BSBW at PC over pages that are known, of which this is the normal form: the sum of R0 to R14 after it, if it is done.
#[inline(always)]
pub fn step_call(
    state: &mut State,
    missed: &Cell<u32>,
    kept: &Kept,
    form: &Call,
    r: &mut [u32; 16],
    total: u64,
) -> Option<u64>
    requires form { IsCall form.now (view kept.now.prepared.decoded) }
    requires sum { total ≡ sum (take 15 r.old) }
    ensures { MatchOption result ((state.new ≡ state.old) × (r.new ≡ r.old)) (λ t. RunsOnWithSum t state.old r.old state.new r.new) }
{
    let pc = r[15];
    if !stands(state, missed, kept, pc) {
        return None;
    }
    let store = form.store(r);
    let space = state.mapped(missed);
    let place = space.open_place(state.world(), store.va, Width::Long)?;
    let psw = state.psw();
    let total = form.finish(r, total);
    let after = After { psw, total };
    state.retire_storing(pc, kept.prepared.decoded.opcode, after, place, &store, r);
    Some(total)
}

/// RSB at PC over pages that are known: the sum of R0 to R14 after it, if it is done.
#[inline(always)]
pub fn step_return(
    state: &mut State,
    missed: &Cell<u32>,
    kept: &Kept,
    r: &mut [u32; 16],
    total: u64,
) -> Option<u64>
    requires form { IsReturn (view kept.now.prepared.decoded) }
    requires sum { total ≡ sum (take 15 r.old) }
    ensures { MatchOption result ((state.new ≡ state.old) × (r.new ≡ r.old)) (λ t. RunsOnWithSum t state.old r.old state.new r.new) }
{
    let pc = r[15];
    if !stands(state, missed, kept, pc) {
        return None;
    }
    let space = state.mapped(missed);
    let to = return_address(&space, r)?;
    let psw = state.psw();
    let total = return_to(to, r, total);
    state.retire_at_once(pc, kept.prepared.decoded.opcode, total, psw, r);
    Some(total)
}

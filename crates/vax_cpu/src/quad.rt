ghost use Rattle.std.specs.Prelude.{◌≡◌, sum, take, MatchOption};
ghost use Rattle.vax_table.specs.Spelling.{view};
ghost use Rattle.vax_normal.specs.QuadMove.{IsQuadMove};
ghost use Rattle.vax_cpu.specs.Completed.{RunsOnWithSum};

use crate::here::stands;
use crate::in_memory::claim;
use crate::state::State;
use std::cell::Cell;
use vax_flow::moved_psw;
use vax_kept::Kept;
use vax_normal::{After, QuadMove};
use vv_base::Width;

/// CLRQ or MOVQ at PC over pages that are known, of which this is the normal form: the sum of R0 to R14 after it, if it is done.
#[inline(always)]
pub fn step_quad(
    state: &mut State,
    missed: &Cell<u32>,
    kept: &Kept,
    form: &QuadMove,
    r: &mut [u32; 16],
    total: u64,
) -> Option<u64>
    requires form { IsQuadMove form.now (view kept.now.prepared.decoded) }
    requires sum { total ≡ sum (take 15 r.old) }
    ensures { MatchOption result ((state.new ≡ state.old) × (r.new ≡ r.old)) (λ t. RunsOnWithSum t state.old r.old state.new r.new) }
{
    let pc = r[15];
    if !stands(state, missed, kept, pc) {
        return None;
    }
    let space = state.mapped(missed);
    let claimed = claim(&space, state.world(), &form.writes, Width::Quad, r)?;
    let value = form.find(&space, r)?;
    let psw = moved_psw(value, state.psw());
    let opcode = kept.prepared.decoded.opcode;
    match form.store(r, value) {
        None => {
            let total = form.finish(value, r, total);
            state.retire_at_once(pc, opcode, total, psw, r);
            Some(total)
        }
        Some(store) => {
            let total = form.finish(value, r, total);
            let after = After { psw, total };
            state.retire_storing(pc, opcode, after, claimed.place, &store, r);
            Some(total)
        }
    }
}

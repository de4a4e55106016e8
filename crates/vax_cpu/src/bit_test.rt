ghost use Rattle.std.specs.Prelude.{◌≡◌, sum, take, MatchOption};
ghost use Rattle.vax_table.specs.Spelling.{view};
ghost use Rattle.vax_normal.specs.BitTest.{IsBitTest};
ghost use Rattle.vax_cpu.specs.Completed.{RunsOnWithSum};

use crate::here::stands;
use crate::state::State;
use std::cell::Cell;
use vax_kept::Kept;
use vax_normal::BitTest;

/// BBS or BBC of memory at PC over pages that are known, of which this is the normal form: the sum of R0 to R14 after it, if it
/// is done.
#[inline(always)]
pub fn step_bit_test(
    state: &mut State,
    missed: &Cell<u32>,
    kept: &Kept,
    form: &BitTest,
    r: &mut [u32; 16],
    total: u64,
) -> Option<u64>
    requires form { IsBitTest form.now (view kept.now.prepared.decoded) }
    requires sum { total ≡ sum (take 15 r.old) }
    ensures { MatchOption result ((state.new ≡ state.old) × (r.new ≡ r.old)) (λ t. RunsOnWithSum t state.old r.old state.new r.new) }
{
    let pc = r[15];
    if !stands(state, missed, kept, pc) {
        return None;
    }
    let space = state.mapped(missed);
    let byte = form.find(&space, r)?;
    let psw = state.psw();
    form.finish(byte, r, total);
    state.retire_at_once(pc, kept.prepared.decoded.opcode, total, psw, r);
    Some(total)
}

ghost use Rattle.std.specs.Prelude.{◌≡◌, sum, take, MatchOption};
ghost use Rattle.vax_table.specs.Spelling.{view};
ghost use Rattle.vax_normal.specs.Normal.{IsNormal};
ghost use Rattle.vax_cpu.specs.Completed.{RunsOnWithSum};

use crate::here::stands;
use crate::in_memory::step_in_memory;
use crate::state::State;
use std::cell::Cell;
use vax_kept::Kept;
use vax_normal::Normal;

/// The instruction at PC at once, of which this is the normal form: the sum of R0 to R14 after it, if it is done.
#[inline(always)]
fn step_by(
    state: &mut State,
    missed: &Cell<u32>,
    kept: &Kept,
    normal: &Normal,
    r: &mut [u32; 16],
    total: u64,
) -> Option<u64>
    requires normal { IsNormal normal.now (view kept.now.prepared.decoded) }
    requires sum { total ≡ sum (take 15 r.old) }
    ensures { MatchOption result ((state.new ≡ state.old) × (r.new ≡ r.old)) (λ t. RunsOnWithSum t state.old r.old state.new r.new) }
{
    let pc = r[15];
    if !stands(state, missed, kept, pc) {
        return None;
    }
    match normal.carry_out(r, state.psw(), total) {
        Some(after) => {
            state.retire_at_once(pc, kept.prepared.decoded.opcode, after.total, after.psw, r);
            Some(after.total)
        }
        None => None,
    }
}

/// The instruction at PC at once, if it is kept in normal form.
#[inline(always)]
pub fn step_at_once(
    state: &mut State,
    missed: &Cell<u32>,
    kept: &Kept,
    r: &mut [u32; 16],
    total: u64,
) -> Option<u64>
    requires { total ≡ sum (take 15 r.old) }
    ensures { MatchOption result ((state.new ≡ state.old) × (r.new ≡ r.old)) (λ t. RunsOnWithSum t state.old r.old state.new r.new) }
{
    match &kept.normal {
        Some(normal) => step_by(state, missed, kept, normal, r, total),
        None => match &kept.in_memory {
            Some(form) => step_in_memory(state, missed, kept, form, r, total),
            None => None,
        },
    }
}

ghost use Rattle.std.specs.Prelude.{◌≡◌, sum, take, MatchOption};
ghost use Rattle.vax_cpu.specs.Completed.{RunsOnWithSum};

use crate::bit_test::step_bit_test;
use crate::indexed::step_indexed;
use crate::quad::step_quad;
use crate::state::State;
use crate::status::{step_probe, step_status_move};
use crate::subroutine::{step_call, step_return};
use std::cell::Cell;
use vax_kept::Kept;
use vax_normal::Rarer;

/// The instruction at PC at once, if it is kept in one of the rarer normal forms.
#[inline(always)]
pub fn rarer_at_once(
    state: &mut State,
    missed: &Cell<u32>,
    kept: &Kept,
    r: &mut [u32; 16],
    total: u64,
) -> Option<u64>
    requires { total ≡ sum (take 15 r.old) }
    ensures { MatchOption result ((state.new ≡ state.old) × (r.new ≡ r.old)) (λ t. RunsOnWithSum t state.old r.old state.new r.new) }
{
    match &kept.rarer {
        None => None,
        Some(Rarer::Moves(form)) => step_quad(state, missed, kept, form, r, total),
        Some(Rarer::Probes(form)) => step_probe(state, missed, kept, form, r, total),
        Some(Rarer::MovesStatus(form)) => step_status_move(state, missed, kept, form, r, total),
        Some(Rarer::Calls(form)) => step_call(state, missed, kept, form, r, total),
        Some(Rarer::Returns) => step_return(state, missed, kept, r, total),
        Some(Rarer::TestsBit(form)) => step_bit_test(state, missed, kept, form, r, total),
        Some(Rarer::ComputesIndexed(form)) => step_indexed(state, missed, kept, form, r, total),
    }
}

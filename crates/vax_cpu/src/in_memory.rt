ghost use Rattle.std.specs.Prelude.{◌≡◌, sum, take, IfSome, MatchOption};
ghost use Rattle.vax_table.specs.Spelling.{view};
ghost use Rattle.vax_normal.specs.InMemory.{HasClaimed, IsInMemory, reach_address};
ghost use Rattle.vax_paged.specs.InPage.{IsOpenAt};
ghost use Rattle.vax_paged.specs.Known.{AreKnown, known_space};
ghost use Rattle.vax_cpu.specs.Completed.{RunsOnWithSum};

use crate::here::stands;
use crate::state::State;
use std::cell::Cell;
use vax_hw::World;
use vax_kept::Kept;
use vax_normal::{After, InMemory, Reach};
use vax_paged::{Mapped, number_inside};
use vv_base::Width;

/// The place of what a form claims, and the number there; where it claims nothing they don't matter.
#[derive(Clone, Copy)]
pub struct Claimed {
    pub place: usize,
    pub number: u64,
}

/// What a form claims, if it does so, where that lies in one known page.
#[inline(always)]
pub fn claim(
    space: &Mapped,
    world: &World,
    writes: &Option<Reach>,
    width: Width,
    r: &[u32; 16],
) -> Option<Claimed>
    requires known { AreKnown space.now.memory.now world.now space.now.known.now }
    requires width { IfSome writes.now (λ p. p.width ≡ width) }
    ensures number { IfSome result (λ c. HasClaimed (known_space space.now.memory.now space.now.known.now) writes.now r.now c.number) }
    ensures place { IfSome result (λ c. IfSome writes.now
        (λ p. IsOpenAt space.now.memory.now world.now space.now.known.now (reach_address p r.now) width c.place)) }
{
    let Some(reach) = writes else {
        return Some(Claimed {
            place: 0,
            number: 0,
        });
    };
    let place = space.open_place(world, reach.address(r), width)?;
    let number = number_inside(space.memory, place, width);
    Some(Claimed { place, number })
}

/// The instruction at PC over pages that are known, of which this is the normal form in memory: the sum of R0 to R14 after it,
/// if it is done.
#[inline(always)]
pub fn step_in_memory(
    state: &mut State,
    missed: &Cell<u32>,
    kept: &Kept,
    form: &InMemory,
    r: &mut [u32; 16],
    total: u64,
) -> Option<u64>
    requires form { IsInMemory form.now (view kept.now.prepared.decoded) }
    requires sum { total ≡ sum (take 15 r.old) }
    ensures { MatchOption result ((state.new ≡ state.old) × (r.new ≡ r.old)) (λ t. RunsOnWithSum t state.old r.old state.new r.new) }
{
    let pc = r[15];
    if !stands(state, missed, kept, pc) {
        return None;
    }
    let space = state.mapped(missed);
    let claimed = claim(&space, state.world(), &form.writes, form.width, r)?;
    let found = form.find(&space, r, state.psw(), claimed.number)?;
    let opcode = kept.prepared.decoded.opcode;
    match form.store(r, found.value) {
        None => {
            let total = form.finish(found.value, r, total);
            state.retire_at_once(pc, opcode, total, found.psw, r);
            Some(total)
        }
        Some(store) => {
            let total = form.finish(found.value, r, total);
            let after = After {
                psw: found.psw,
                total,
            };
            state.retire_storing(pc, opcode, after, claimed.place, &store, r);
            Some(total)
        }
    }
}

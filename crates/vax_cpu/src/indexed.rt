ghost use Rattle.std.specs.Prelude.{◌≡◌, Ok, sum, take, IfSome, MatchOption};
ghost use Rattle.vax_arch.specs.declared.mode.Intent.TheVariants.{Write};
ghost use Rattle.vax_table.specs.Spelling.{view};
ghost use Rattle.vax_paged.specs.InPage.{IsOpenAt};
ghost use Rattle.vax_paged.specs.Known.{AreKnown, known_space};
ghost use Rattle.vax_normal.specs.Indexed.{HasIndexed, IsIndexed, indexed_address};
ghost use Rattle.vax_cpu.specs.Completed.{RunsOnWithSum};

use crate::here::stands;
use crate::in_memory::Claimed;
use crate::state::State;
use std::cell::Cell;
use vax_arch::Intent;
use vax_hw::World;
use vax_kept::Kept;
use vax_normal::{After, Indexed};
use vax_operand::Space;
use vax_paged::{Mapped, number_inside};

/// The number to which a form refers, and its place, where it claims that: it lies in one known page then.
#[inline(always)]
fn refer(space: &Mapped, world: &World, form: &Indexed, r: &[u32; 16]) -> Option<Claimed>
    requires { AreKnown space.now.memory.now world.now space.now.known.now }
    ensures number { IfSome result (λ c. HasIndexed (known_space space.now.memory.now space.now.known.now) form.now.intent form.now.reach r.now c.number) }
    ensures place { IfSome result (λ c. form.now.intent ≡ Write →
        IsOpenAt space.now.memory.now world.now space.now.known.now
        (indexed_address form.now.reach r.now) form.now.reach.width c.place) }
{
    let at = form.reach.address(r);
    let width = form.reach.width;
    match form.intent {
        Intent::Read => match space.read(at, width) {
            Ok(number) => Some(Claimed { place: 0, number }),
            Err(_) => None,
        },
        Intent::Write => {
            let place = space.open_place(world, at, width)?;
            let number = number_inside(space.memory, place, width);
            Some(Claimed { place, number })
        }
    }
}

/// An operation of the arithmetic with an index at PC over pages that are known, of which this is the normal form: the sum of R0
/// to R14 after it, if it is done.
#[inline(never)]
pub fn step_indexed(
    state: &mut State,
    missed: &Cell<u32>,
    kept: &Kept,
    form: &Indexed,
    r: &mut [u32; 16],
    total: u64,
) -> Option<u64>
    requires form { IsIndexed form.now (view kept.now.prepared.decoded) }
    requires sum { total ≡ sum (take 15 r.old) }
    ensures { MatchOption result ((state.new ≡ state.old) × (r.new ≡ r.old)) (λ t. RunsOnWithSum t state.old r.old state.new r.new) }
{
    let pc = r[15];
    if !stands(state, missed, kept, pc) {
        return None;
    }
    let space = state.mapped(missed);
    let there = refer(&space, state.world(), form, r)?;
    let found = form.find(there.number, r, state.psw())?;
    let opcode = kept.prepared.decoded.opcode;
    match form.store(r, found.value) {
        None => {
            let total = form.finish(found.value, r, total);
            state.retire_at_once(pc, opcode, total, found.psw, r);
            Some(total)
        }
        Some(store) => {
            let total = form.finish(found.value, r, total);
            let after = After {
                psw: found.psw,
                total,
            };
            state.retire_storing(pc, opcode, after, there.place, &store, r);
            Some(total)
        }
    }
}

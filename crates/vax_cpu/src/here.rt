ghost use Rattle.std.specs.Prelude.{◌≡◌, true, Ok};
ghost use Rattle.vax_table.specs.Fetch.{fetched};
ghost use Rattle.vax_table.specs.Interaction.{outcome};
ghost use Rattle.vax_table.specs.Operations.{operation_of};
ghost use Rattle.vax_table.specs.Plan.{is_planned};
ghost use Rattle.vax_table.specs.Spelling.{IsWellFormed, view};
ghost use Rattle.vax_kept.specs.Fetched.{exits};
ghost use Rattle.vax_paged.specs.Paged.{paged};

use crate::state::State;
use std::cell::Cell;
use vax_kept::{Kept, has_at, has_known, has_known_in_page, has_short};

/// Whether kept bytes are at an address, by the pages that are known, and the instruction is one that `plan_into` plans. The page
/// of the address is that of the last instruction then.
#[cold]
#[inline(never)]
fn stands_elsewhere(state: &mut State, missed: &Cell<u32>, kept: &Kept, pc: u32) -> bool
    ensures state { state.new ≡ state.old }
    ensures fetched { result ≡ true → Ok (view kept.now.prepared.decoded) ≡ exits (outcome (paged state.old.memory state.old.world) (fetched pc)) }
    ensures planned { result ≡ true → is_planned (operation_of kept.now.prepared.decoded.opcode) ≡ true }
{
    state.go_to(pc);
    has_known(&state.mapped(missed), state.world(), kept, pc)
}

/// Whether kept bytes are at an address, by what is known, and the instruction is one that `plan_into` plans.
#[inline(always)]
pub fn stands(state: &mut State, missed: &Cell<u32>, kept: &Kept, pc: u32) -> bool
    ensures state { state.new ≡ state.old }
    ensures fetched { result ≡ true → Ok (view kept.now.prepared.decoded) ≡ exits (outcome (paged state.old.memory state.old.world) (fetched pc)) }
    ensures planned { result ≡ true → is_planned (operation_of kept.now.prepared.decoded.opcode) ≡ true }
{
    match state.place_here(pc, kept.near_end) {
        Some(place) => has_at(state.memory(), state.world(), kept, pc, place),
        None => stands_elsewhere(state, missed, kept, pc),
    }
}

/// Whether kept bytes are at an address, in one page, by the pages that are known; the page of the address is that of the last
/// instruction then.
#[cold]
#[inline(never)]
fn stands_in_other_page(state: &mut State, missed: &Cell<u32>, kept: &Kept, pc: u32) -> bool
    ensures state { state.new ≡ state.old }
    ensures fetched { result ≡ true → Ok (view kept.now.prepared.decoded) ≡ exits (outcome (paged state.old.memory state.old.world) (fetched pc)) }
    ensures formed { result ≡ true → IsWellFormed (view kept.now.prepared.decoded) }
{
    state.go_to(pc);
    has_known_in_page(&state.mapped(missed), state.world(), kept, pc)
}

/// Whether kept bytes are at an address, in one page, by what is known, whatever the instruction is.
#[inline(always)]
pub fn stands_in_page(state: &mut State, missed: &Cell<u32>, kept: &Kept, pc: u32) -> bool
    ensures state { state.new ≡ state.old }
    ensures fetched { result ≡ true → Ok (view kept.now.prepared.decoded) ≡ exits (outcome (paged state.old.memory state.old.world) (fetched pc)) }
    ensures formed { result ≡ true → IsWellFormed (view kept.now.prepared.decoded) }
{
    let length = kept.prepared.decoded.length;
    if length == 0 || length > 8 {
        return stands_in_other_page(state, missed, kept, pc);
    }
    match state.place_here(pc, 513 - u32::from(length)) {
        Some(place) => has_short(state.memory(), state.world(), kept, pc, place),
        None => stands_in_other_page(state, missed, kept, pc),
    }
}

ghost use Rattle.std.specs.Prelude.{◌≡◌, ◌==◌, ◌≢◌, ◌≤◌, ◌<◌, ◌↔◌, ◌∷◌, [], length, IsTrue, IfSome, is_none, MatchBool, MatchOption, All, Any, Contains, ℕ};
ghost use Rattle.std.specs.Bool.{OnTrue};
ghost use Rattle.vm_slots.specs.Held.{AreSlots, slot_of, without, others_held, IsLeastFree, LastGoes, contexts_of, brought_forward};

use crate::{Context, Taken};
use arrayvec::ArrayVec;
use std::marker::Model;

/// The contexts that have one of the four process slots, seen as the list of them, the most recent first, each with its slot.
#[derive(Drop)]
pub struct Slots {
    held: ArrayVec<(Context, u8), 4>,
}

impl Model for Slots {
    ghost use Rattle.std.specs.Prelude.{List, ℕ};
    ghost use Rattle.vm_slots.specs.declared.context.Context.{Context};

    ghost Value = { List (Context × ℕ) };

    ghost use Rattle.vm_slots.specs.Held.{AreSlots};

    ghost view = { λ slots. slots.held.items };

    ghost invariant = { λ slots. AreSlots slots.held.items };
}

impl Slots {
    /// No context is held.
    pub fn new() -> Self
        ensures { result ≡ [] }
    {
        Slots {
            held: ArrayVec::new(),
        }
    }

    /// The slot of a context; `None` exactly where it isn't held.
    pub fn find(&self, c: &Context) -> Option<u8>
        ensures value { result ≡ slot_of c.now self.now }
        ensures held { (slot : ℕ) → (result ≡ Some slot) ↔ Contains self.now (c.now, slot) }
        ensures facts { AreSlots self.now }
    {
        slot_among(self.held.as_slice(), c)
    }

    /// Brings a context to the front. One that is held keeps its slot. Another gets the least slot
    /// that is free, and where four others are held the last of them goes first.
    pub fn take(&mut self, c: &Context) -> Taken
        ensures front { self.new ≡ (c.now, result.slot) ∷ others_held c.now self.old }
        ensures kept { IfSome (slot_of c.now self.old) (λ slot. result.slot ≡ slot) }
        ensures fresh { result.fresh ≡ is_none (slot_of c.now self.old) }
        ensures least { OnTrue result.fresh (IsLeastFree result.slot (others_held c.now self.old)) }
        ensures evicted { IsTrue result.evicted ↔ (length (without c.now self.old) ≡ 4) }
        ensures gone { OnTrue result.evicted (LastGoes self.old (others_held c.now self.old) result.slot) }

        ensures facts { AreSlots self.new }
        ensures contexts { contexts_of self.new ≡ brought_forward c.now (contexts_of self.old) }
    {
        let found = self.find(c);
        let evicted = keep_others(&mut self.held, c);
        let slot = slot_for(found, self.held.as_slice());
        self.held.insert(0, (*c, slot));
        Taken {
            slot,
            fresh: found.is_none(),
            evicted,
        }
    }

    /// No context is held any longer.
    pub fn clear(&mut self)
        ensures { self.new ≡ [] }
    {
        self.held.clear();
    }
}

/// The slot of a context among these.
fn slot_among(held: &[(Context, u8)], c: &Context) -> Option<u8>
    ensures { result ≡ slot_of c.now held.now }
{
    let (_, slot) = held.iter().find(|entry| entry.0 == *c)?;
    Some(*slot)
}

/// Leaves the three most recent others; true where there was a fourth.
fn keep_others(held: &mut ArrayVec<(Context, u8), 4>, c: &Context) -> bool
    ensures stay { held.new.items ≡ others_held c.now held.old.items }
    ensures four { result ≡ (length (without c.now held.old.items) == 4) }
{
    held.retain(|entry| entry.0 != *c);
    let are_four = held.is_full();
    held.truncate(3);
    are_four
}

/// The slot of a context that was found, or a free one.
fn slot_for(found: Option<u8>, held: &[(Context, u8)]) -> u8
    requires { length held.now ≤ 3 }
    ensures { MatchOption found (IsLeastFree result held.now) (λ own. result ≡ own) }
{
    match found {
        Some(slot) => slot,
        None => free_slot(held),
    }
}

fn is_free(slot: u8, held: &[(Context, u8)]) -> bool
    ensures { MatchBool result (All (λ h. h.1 ≢ slot) held.now) (Any (λ h. h.1 ≡ slot) held.now) }
{
    held.iter().all(|entry| entry.1 != slot)
}

/// The least slot that none of at most three contexts has.
fn free_slot(held: &[(Context, u8)]) -> u8
    requires { length held.now ≤ 3 }
    ensures { IsLeastFree result held.now }
{
    for slot in 0..3 {
        if is_free(slot, held) {
            return slot;
        }
    }
    3
}

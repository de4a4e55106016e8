ghost use Rattle.std.specs.Prelude.{◌≡◌, ◌+◌, ◌*◌, ◌≤◌, ◌<◌, ◌%◌, ◌^◌, ◌++◌, [], ◌∷◌, false, length, if◌then◌else◌, All, IfSome};
ghost use Rattle.vv_base.specs.Width.{size_of};
ghost use Rattle.arrayvec.specs.ArrayVec.{array_vec_len};
ghost use Rattle.vax_table.specs.Claims.{addresses};
ghost use Rattle.vax_table.specs.PlanLaws.{bytes_of_stores};
ghost use Rattle.vax_table.specs.Stores.{all_stored};
ghost use Rattle.vax_table.specs.Tries.{first_clear};
ghost use Rattle.vax_paged.specs.Puts.{made, puts_from, puts_of};
ghost use Rattle.vax_paged.specs.InPage.{IsStoreInPage, all_lie_in, lies_in};
ghost use Rattle.vax_arch.specs.Walk.{Tables};
ghost use Rattle.vax_hw.specs.Machine.{machine_tables};
ghost use Rattle.vax_hw.specs.RealTables.{everywhere};
ghost use Rattle.vax_paged.specs.Known.{AreAllKnown, AreKnown, IsSameBut, watches};
ghost use Rattle.vax_paged.specs.Paged.{is_clear_for, written_place};

use crate::entries::{Entry, Paged};
use crate::known::Mapped;
use crate::memory::{store_byte, store_bytes, store_in};
use crate::modes::KnownPages;
use crate::pages::ModePages;
use arrayvec::ArrayVec;
use std::cell::Cell;
use vax_hw::World;
use vax_table::effect::Store;

/// A byte that is stored, and its place in the machine.
#[derive(Clone, Copy, Debug, Default, PartialEq, Eq)]
pub struct Put {
    pub place: u32,
    pub byte: u8,
}

/// Stores bytes in order; what rests on them isn't known any more.
pub fn make(memory: &mut [u8], known: &mut KnownPages, puts: &[Put])
    ensures memory { memory.new ≡ made puts.now memory.old }
    ensures known { (t : Tables) → AreAllKnown memory.old t known.old → AreAllKnown memory.new t known.new }
{
    for put in puts {
        let place = put.place as usize;
        store_byte(memory, place, put.byte);
        known.stored(place, place);
    }
}

impl Paged<'_> {
    /// Whether the modify bit of an address's page is clear.
    #[tactic(auto, unfolding(vax_hw::specs::RealTables::is_clear_in), using(crate::proofs::Lookups::mapped))]
    fn is_clear(&self, va: u32) -> bool
        ensures { result ≡ is_clear_for self.now.memory.now self.now.world.now va }
    {
        match self.entry(va / 512) {
            Entry::Found(entry) => !entry.modified(),
            Entry::NotValid | Entry::TooFar => false,
        }
    }

    /// The first of `bytes` bytes whose page's modify bit is clear, each by its own page.
    #[tactic(auto, using(crate::proofs::Puts::byte_by_byte))]
    fn first_clear_by_bytes(&self, va: u32, bytes: u32) -> Option<u32>
        ensures { result ≡ first_clear (is_clear_for self.now.memory.now self.now.world.now) (addresses bytes va) }
    {
        if bytes == 0 {
            None
        } else if self.is_clear(va) {
            Some(va)
        } else {
            self.first_clear_by_bytes(va.wrapping_add(1), bytes - 1)
        }
    }

    /// The first of some bytes whose page's modify bit is clear: by one look-up where they lie in one page.
    fn first_clear_from(&self, va: u32, bytes: u32) -> Option<u32>
        requires some { 1 ≤ bytes }
        requires few { bytes ≤ 9 }
        ensures { result ≡ first_clear (is_clear_for self.now.memory.now self.now.world.now) (addresses bytes va) }
    {
        if va % 512 + bytes > 512 {
            self.first_clear_by_bytes(va, bytes)
        } else if self.is_clear(va) {
            Some(va)
        } else {
            None
        }
    }

    /// The first byte of these stores, in order, whose page's modify bit is clear.
    #[tactic(auto, using(crate::proofs::Puts::store_by_store))]
    pub fn first_clear(&self, stores: &[Store]) -> Option<u32>
        ensures { result ≡ first_clear (is_clear_for self.now.memory.now self.now.world.now) (bytes_of_stores stores.now) }
    {
        let [first, rest @ ..] = stores else {
            return None;
        };
        match self.first_clear_from(first.va, u32::from(first.width.bytes())) {
            Some(va) => Some(va),
            None => self.first_clear(rest),
        }
    }

    /// The place of a byte that is written; where there is none, it lies nowhere in the machine.
    fn place_or_end(&self, va: u32) -> u32
        requires { length self.now.memory.now < 2 ^ 32 }
        ensures { result ≡ written_place self.now.memory.now self.now.world.now va }
    {
        match self.place(va, true) {
            Ok(place) => place,
            Err(_) => self.memory.len() as u32,
        }
    }

    /// The bytes of a store, after others.
    fn add_store(&self, puts: &mut ArrayVec<Put, 160>, store: &Store)
        requires memory { length self.now.memory.now < 2 ^ 32 }
        requires room { array_vec_len puts.old + 8 ≤ 160 }
        ensures room { array_vec_len puts.new ≤ array_vec_len puts.old + 8 }
        ensures items { puts.new.items ≡ puts.old.items ++ puts_from
            (written_place self.now.memory.now self.now.world.now)
            (size_of store.now.width) store.now.va store.now.value }
    {
        let mut va = store.va;
        let mut rest = store.value;
        for _left in (0..store.width.bytes()).rev() {
            puts.push(Put {
                place: self.place_or_end(va),
                byte: (rest % 256) as u8,
            });
            va = va.wrapping_add(1);
            rest /= 256;
        }
    }

    /// The bytes of stores, in order.
    pub fn puts(&self, stores: &[Store]) -> ArrayVec<Put, 160>
        requires memory { length self.now.memory.now < 2 ^ 32 }
        requires few { length stores.now ≤ 20 }
        ensures { result.items ≡ puts_of (written_place self.now.memory.now self.now.world.now) stores.now }
    {
        let mut puts = ArrayVec::new();
        for store in stores {
            self.add_store(&mut puts, store);
        }
        puts
    }
}

/// Makes stores in order byte by byte, at the places of before the first.
#[tactic(auto, using(crate::proofs::Puts::as_stored))]
#[cold]
#[inline(never)]
fn store_by_bytes(memory: &mut [u8], world: &World, known: &mut KnownPages, stores: &[Store])
    requires memory { length memory.old < 2 ^ 32 }
    requires few { length stores.now ≤ 20 }
    ensures memory { memory.new ≡ all_stored (written_place memory.old world.now) stores.now memory.old }
    ensures known { (t : Tables) → AreAllKnown memory.old t known.old → AreAllKnown memory.new t known.new }
{
    let space = Paged {
        memory: &*memory,
        world,
    };
    let puts = space.puts(stores);
    make(memory, known, puts.as_slice());
}

/// The place of a store that lies in one page, where memory has it whole, by the tables.
fn walked_place(memory: &[u8], world: &World, store: &Store) -> Option<usize>
    ensures { IfSome result (λ place. IsStoreInPage memory.now world.now store.now place) }
{
    let bytes = u32::from(store.width.bytes());
    if store.va % 512 + bytes > 512 {
        return None;
    }
    match (Paged { memory, world }).place(store.va, true) {
        Ok(place) if place as usize + bytes as usize <= memory.len() => Some(place as usize),
        _ => None,
    }
}

/// The place of a store that lies in one page, where memory has it whole: by what is known of the page, or else by the tables.
fn whole_place(
    memory: &[u8],
    world: &World,
    known: &ModePages,
    missed: &Cell<u32>,
    store: &Store,
) -> Option<usize>
    requires { AreKnown memory.now world.now known.now }
    ensures { IfSome result (λ place. IsStoreInPage memory.now world.now store.now place) }
{
    let space = Mapped {
        memory,
        known,
        missed,
    };
    match space.whole_place(world, store) {
        Some(place) => Some(place),
        None => walked_place(memory, world, store),
    }
}

/// The place of a store that lies in one known page, whose frame isn't watched.
fn unwatched_place(
    memory: &[u8],
    world: &World,
    known: &KnownPages,
    missed: &Cell<u32>,
    store: &Store,
) -> Option<usize>
    requires { AreAllKnown memory.now (machine_tables world.now) known.now }
    ensures whole { IfSome result (λ place. IsStoreInPage memory.now world.now store.now place) }
    ensures unwatched { IfSome result (λ place. watches known.now.marks.items known.now.mark place ≡ false) }
{
    let space = Mapped {
        memory,
        known: known.of(world.psl.current()),
        missed,
    };
    match space.whole_place(world, store) {
        Some(place) if !known.watches(place) => Some(place),
        _ => None,
    }
}

/// Makes stores in order, if each lies in one known page whose frame isn't watched, so that what is known stays so. The last
/// one's place is found before the others are made, and it is made after them. Answers whether they were made.
fn store_each(
    memory: &mut [u8],
    world: &World,
    known: &KnownPages,
    missed: &Cell<u32>,
    stores: &[Store],
) -> bool
    requires { AreAllKnown memory.old (machine_tables world.now) known.now }
    ensures memory { memory.new ≡ (if result then all_stored (written_place memory.old world.now) stores.now memory.old else memory.old) }
    ensures known { AreAllKnown memory.new (machine_tables world.now) known.now }
{
    let [before @ .., last] = stores else {
        return true;
    };
    let Some(place) = unwatched_place(&*memory, world, known, missed, last) else {
        return false;
    };
    if !store_each(memory, world, known, missed, before) {
        return false;
    }
    store_in(memory, place, last.width, last.value);
    true
}

/// Whether a store lies in a page.
fn lies_in(page: u32, store: &Store) -> bool
    ensures { result ≡ lies_in page store.now }
{
    store.va / 512 == page && store.va % 512 + u32::from(store.width.bytes()) < 513
}

/// Whether stores do.
fn all_lie_in(page: u32, stores: &[Store]) -> bool
    ensures { result ≡ all_lie_in page stores.now }
{
    let [first, rest @ ..] = stores else {
        return true;
    };
    lies_in(page, first) && all_lie_in(page, rest)
}

/// Makes stores in order that lie in one page, which has this place.
fn store_from(memory: &mut [u8], world: &World, base: usize, stores: &[Store])
    requires low { base ≤ everywhere }
    requires in_page { All (λ x. IsStoreInPage memory.old world.now x (base + x.va % 512)) stores.now }
    ensures memory { memory.new ≡ all_stored (written_place memory.old world.now) stores.now memory.old }
    ensures elsewhere { IsSameBut base base memory.old memory.new }
{
    for store in stores {
        let place = base + store.va as usize % 512;
        store_in(memory, place, store.width, store.value);
    }
}

/// Makes stores in order, if they lie in one known page whose frame isn't watched, so that what is known stays so. Answers
/// whether they were made.
fn store_in_page(
    memory: &mut [u8],
    world: &World,
    known: &KnownPages,
    missed: &Cell<u32>,
    stores: &[Store],
) -> bool
    requires { AreAllKnown memory.old (machine_tables world.now) known.now }
    ensures memory { memory.new ≡ (if result then all_stored (written_place memory.old world.now) stores.now memory.old else memory.old) }
    ensures known { AreAllKnown memory.new (machine_tables world.now) known.now }
{
    let [first, ..] = stores else {
        return false;
    };
    let page = first.va / 512;
    let space = Mapped {
        memory: &*memory,
        known: known.of(world.psl.current()),
        missed,
    };
    let Some(base) = space.open_page(world, page) else {
        return false;
    };
    if known.watches(base) || !all_lie_in(page, stores) {
        return false;
    }
    store_from(memory, world, base, stores);
    true
}

/// Makes several stores.
fn store_several(
    memory: &mut [u8],
    world: &World,
    known: &mut KnownPages,
    missed: &Cell<u32>,
    stores: &[Store],
)
    requires memory { length memory.old < 2 ^ 32 }
    requires known { AreAllKnown memory.old (machine_tables world.now) known.old }
    requires few { length stores.now ≤ 20 }
    ensures memory { memory.new ≡ all_stored (written_place memory.old world.now) stores.now memory.old }
    ensures known { AreAllKnown memory.new (machine_tables world.now) known.new }
{
    if !store_in_page(memory, world, &*known, missed, stores)
        && !store_each(memory, world, &*known, missed, stores)
    {
        store_by_bytes(memory, world, known, stores);
    }
}

/// Makes a store that lies in one page, at its place.
#[inline(always)]
pub fn store_at(
    memory: &mut [u8],
    world: &World,
    known: &mut KnownPages,
    place: usize,
    store: &Store,
)
    requires whole { IsStoreInPage memory.old world.now store.now place }
    requires known { AreAllKnown memory.old (machine_tables world.now) known.old }
    ensures memory { memory.new ≡ all_stored (written_place memory.old world.now) (store.now ∷ []) memory.old }
    ensures known { AreAllKnown memory.new (machine_tables world.now) known.new }
{
    store_in(memory, place, store.width, store.value);
    known.stored(place, place);
}

/// Makes a store that goes over a page's end, if both its pages are known. Answers whether it was made.
fn store_over_end(
    memory: &mut [u8],
    world: &World,
    known: &mut KnownPages,
    missed: &Cell<u32>,
    store: &Store,
) -> bool
    requires { AreAllKnown memory.old (machine_tables world.now) known.old }
    ensures memory { memory.new ≡ (if result then all_stored (written_place memory.old world.now) (store.now ∷ []) memory.old else memory.old) }
    ensures known { AreAllKnown memory.new (machine_tables world.now) known.new }
{
    let space = Mapped {
        memory: &*memory,
        known: known.of(world.psl.current()),
        missed,
    };
    let Some((low, high)) = space.places_over_end(world, store) else {
        return false;
    };
    let first = 512 - store.va % 512;
    let bytes = u32::from(store.width.bytes());
    let rest = store_bytes(memory, low, first, store.value);
    store_bytes(memory, high, bytes - first, rest);
    known.stored(low, high);
    true
}

/// Makes one store that doesn't lie in one page.
#[cold]
#[inline(never)]
fn store_crossing(
    memory: &mut [u8],
    world: &World,
    known: &mut KnownPages,
    missed: &Cell<u32>,
    store: &Store,
)
    requires memory { length memory.old < 2 ^ 32 }
    requires known { AreAllKnown memory.old (machine_tables world.now) known.old }
    ensures memory { memory.new ≡ all_stored (written_place memory.old world.now) (store.now ∷ []) memory.old }
    ensures known { AreAllKnown memory.new (machine_tables world.now) known.new }
{
    if !store_over_end(memory, world, known, missed, store) {
        store_by_bytes(memory, world, known, &[*store]);
    }
}

/// Makes one store.
fn store_one(
    memory: &mut [u8],
    world: &World,
    known: &mut KnownPages,
    missed: &Cell<u32>,
    store: &Store,
)
    requires memory { length memory.old < 2 ^ 32 }
    requires known { AreAllKnown memory.old (machine_tables world.now) known.old }
    ensures memory { memory.new ≡ all_stored (written_place memory.old world.now) (store.now ∷ []) memory.old }
    ensures known { AreAllKnown memory.new (machine_tables world.now) known.new }
{
    let pages = known.of(world.psl.current());
    match whole_place(&*memory, world, pages, missed, store) {
        Some(place) => store_at(memory, world, known, place, store),
        None => store_crossing(memory, world, known, missed, store),
    }
}

/// Makes stores in order, at the places of before the first.
pub fn store_all(
    memory: &mut [u8],
    world: &World,
    known: &mut KnownPages,
    missed: &Cell<u32>,
    stores: &[Store],
)
    requires memory { length memory.old < 2 ^ 32 }
    requires known { AreAllKnown memory.old (machine_tables world.now) known.old }
    requires few { length stores.now ≤ 20 }
    ensures memory { memory.new ≡ all_stored (written_place memory.old world.now) stores.now memory.old }
    ensures known { AreAllKnown memory.new (machine_tables world.now) known.new }
{
    match stores {
        [] => {}
        [store] => store_one(memory, world, known, missed, store),
        _ => store_several(memory, world, known, missed, stores),
    }
}

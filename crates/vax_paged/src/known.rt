ghost use Rattle.std.specs.Prelude.{◌≡◌, ◌+◌, ◌*◌, ◌≤◌, ◌<◌, ◌%◌, ◌^◌, if◌then◌else◌, ℕ, List, None, Ok, true, length, IfOk, IfSome};
ghost use Rattle.vv_base.specs.Width.{size_of};
ghost use Rattle.vax_arch.specs.Fields.{current_of, frame_of, is_modified};
ghost use Rattle.vax_arch.specs.Protection.{may_of};
ghost use Rattle.vax_arch.specs.Walk.{Tables, granted};
ghost use Rattle.vax_arch.specs.WalkLaws.{table_place};
ghost use Rattle.vax_arch.specs.declared.mode.Intent.TheVariants.{Write};
ghost use Rattle.vax_hw.specs.RealTables.{everywhere, place_by};
ghost use Rattle.vax_hw.specs.Machine.{machine_tables};
ghost use Rattle.vax_table.specs.Claims.{addresses};
ghost use Rattle.vax_table.specs.PlanLaws.{bytes_of_stores};
ghost use Rattle.vax_table.specs.Interaction.{number_at};
ghost use Rattle.vax_table.specs.Tries.{first_clear};
ghost use Rattle.vax_table.specs.Troubles.{intent_of, with_trouble};
ghost use Rattle.vax_paged.specs.InPage.{IsOpenAt, IsStoreInPage, IsStoreOverEnd, lies_in};
ghost use Rattle.vax_paged.specs.Known.{AreKnown, IsKnownIn, IsLearned, known_space, page_for, place_known, place_or_absent};
ghost use Rattle.vax_paged.specs.Paged.{is_clear_for};

use crate::entries::{Look, Paged};
use crate::memory::{byte_in, bytes_over, long_in, number_in};
use crate::pages::ModePages;
use std::cell::Cell;
use vax_arch::{Intent, Mode, Pte, REGION, may};
use vax_hw::World;
use vax_operand::{Space, Trouble};
use vax_table::effect::Store;
use vv_base::Width;

/// An entry of the translation buffer: what the tables said of a page. No page has the number 0xFFFF_FFFF.
#[derive(Clone, Copy)]
pub struct Known {
    /// The page's number, an address divided by 512, if it may be read.
    pub read_page: u32,
    /// The page's number, if it may be written, and its modify bit is set.
    pub write_page: u32,
    /// The place of the page's first byte.
    pub base: u32,
}

/// What is known of a page, which is so as long as two longwords stay as they are.
#[derive(Clone, Copy)]
pub struct Learned {
    pub known: Known,
    /// The place of the system table's entry for the page's table.
    pub table: usize,
    /// The place of the page's entry.
    pub place: usize,
}

/// The number of a page that is open.
fn page_if(is_open: bool, page: u32) -> u32
    ensures { result ≡ (if is_open then page else 4294967295) }
{
    if is_open { page } else { 0xFFFF_FFFF }
}

/// Whether an entry opens its page.
#[tactic(auto, unfolding(vax_arch::specs::Walk::granted))]
fn is_open(entry: Pte, mode: Mode, intent: Intent) -> bool
    ensures { result ≡ true → (va : ℕ) → place_by va (granted may_of everywhere entry.0 mode intent) ≡ Ok (512 * frame_of entry.0 + va % 512) }
{
    entry.valid() && may(entry.prot(), mode, intent)
}

/// Whether an entry opens its page for writing, and its modify bit is set.
fn is_open_to_write(entry: Pte, mode: Mode) -> bool
    ensures opens { result ≡ true → (va : ℕ) → place_by va (granted may_of everywhere entry.0 mode Write) ≡ Ok (512 * frame_of entry.0 + va % 512) }
    ensures modified { result ≡ true → is_modified entry.0 ≡ true }
{
    entry.modified() && is_open(entry, mode, Intent::Write)
}

impl Paged<'_> {
    /// The place of the system table's entry for a page's table, whether there is one or not.
    #[tactic(auto, unfolding(vax_arch::specs::WalkLaws::table_place))]
    fn table_place(&self, page: u32) -> usize
        requires { page < 2 ^ 23 }
        ensures is { result ≡ table_place (machine_tables self.now.world.now) page }
        ensures small { result ≤ everywhere }
    {
        let base = if page / REGION == 0 {
            self.world.p0br
        } else {
            self.world.p1br
        };
        let at = base.wrapping_add(4 * (page % REGION));
        self.in_system_table(at / 512 % REGION)
    }

    /// What the tables say of a page, if it has an entry.
    pub fn looked_up(&self, page: u32) -> Option<Learned>
        requires { page < 2 ^ 23 }
        ensures learned { IfSome result (IsLearned self.now.memory.now (machine_tables self.now.world.now) (current_of self.now.world.now.psl.0)) }
        ensures low { IfSome result (λ x. (x.table ≤ everywhere) × (x.place ≤ everywhere)) }
    {
        let Look::Found(place) = self.look(page) else {
            return None;
        };
        let table = self.table_place(page);
        let entry = Pte(long_in(self.memory, place));
        let mode = self.world.psl.current();
        Some(Learned {
            known: Known {
                read_page: page_if(is_open(entry, mode, Intent::Read), page),
                write_page: page_if(is_open_to_write(entry, mode), page),
                base: 512 * entry.frame(),
            },
            table,
            place,
        })
    }
}

/// The machine's memory by the pages that are known, which the translation buffer has. A page that was looked up and isn't known
/// is noted.
#[derive(Clone, Copy)]
pub struct Mapped<'a> {
    pub memory: &'a [u8],
    pub known: &'a ModePages,
    pub missed: &'a Cell<u32>,
}

impl Mapped<'_> {
    /// The place of an address, if its page is known and open.
    #[inline(always)]
    pub fn place(&self, va: u32, write: bool) -> Option<usize>
        ensures is { place_or_absent result ≡ place_known self.now.known.now (intent_of write) va }
        ensures small { IfSome result (λ place. place < 2 ^ 32 + 512) }
    {
        if let Some(place) = self.known.place(va, write) {
            return Some(place);
        }
        self.missed.set(va / 512);
        None
    }

    /// The byte at an address.
    fn byte(&self, va: u32, write: bool) -> Result<u8, Trouble>
        ensures { with_trouble result ≡ number_at (known_space self.now.memory.now self.now.known.now) (intent_of write) 1 va }
    {
        match self.place(va, write) {
            Some(place) => Ok(byte_in(self.memory, place)),
            None => Err(Trouble::NotValid { va, write }),
        }
    }

    /// The number in `bytes` bytes, the lowest first, each by its own page.
    #[tactic(auto, using(vax_operand::proofs::ByteByByte::byte_by_byte))]
    #[cold]
    #[inline(never)]
    fn number_by_bytes(self, va: u32, bytes: u32, write: bool) -> Result<u64, Trouble>
        requires { bytes ≤ 8 }
        ensures number { with_trouble result ≡ number_at (known_space self.entry.memory.now self.entry.known.now) (intent_of write) bytes va }
        ensures fits { IfOk result (λ v. v < 256 ^ bytes) }
    {
        if bytes == 0 {
            return Ok(0);
        }
        let byte = self.byte(va, write)?;
        let rest = self.number_by_bytes(va.wrapping_add(1), bytes - 1, write)?;
        Ok(u64::from(byte) + 256 * rest)
    }

    /// The number in `bytes` bytes over a page's end, the lowest first: by both pages, where they are known.
    #[cold]
    #[inline(never)]
    fn number_over_end(self, va: u32, bytes: u32, write: bool) -> Result<u64, Trouble>
        requires over_end { 512 < va % 512 + bytes }
        requires few { bytes ≤ 8 }
        ensures number { with_trouble result ≡ number_at (known_space self.entry.memory.now self.entry.known.now) (intent_of write) bytes va }
        ensures fits { IfOk result (λ v. v < 256 ^ bytes) }
    {
        let first = 512 - va % 512;
        let Some(low) = self.place(va, write) else {
            return self.number_by_bytes(va, bytes, write);
        };
        match self.place(va.wrapping_add(first), write) {
            Some(high) => Ok(bytes_over(self.memory, first, low, high, bytes)),
            None => self.number_by_bytes(va, bytes, write),
        }
    }

    /// The number of a width, the lowest byte first: by one look-up where it lies in one page.
    #[inline(always)]
    fn number(&self, va: u32, w: Width, write: bool) -> Result<u64, Trouble>
        ensures number { with_trouble result ≡ number_at (known_space self.now.memory.now self.now.known.now) (intent_of write) (size_of w) va }
        ensures fits { IfOk result (λ v. v < 256 ^ size_of w) }
    {
        if va % 512 + u32::from(w.bytes()) > 512 {
            return self.number_over_end(va, u32::from(w.bytes()), write);
        }
        match self.place(va, write) {
            Some(place) => Ok(number_in(self.memory, place, w)),
            None => Err(Trouble::NotValid { va, write }),
        }
    }

    /// The place of a number of one known page that may be written, where memory has it whole, and eight bytes.
    #[inline(always)]
    pub fn open_place(&self, world: &World, va: u32, w: Width) -> Option<usize>
        requires { AreKnown self.now.memory.now world.now self.now.known.now }
        ensures open { IfSome result (IsOpenAt self.now.memory.now world.now self.now.known.now va w) }
        ensures low { IfSome result (λ place. place ≤ everywhere) }
        ensures eight { IfSome result (λ place. place + 8 ≤ length self.now.memory.now) }
    {
        let bytes = u32::from(w.bytes());
        if va % 512 + bytes > 512 {
            return None;
        }
        match self.place(va, true) {
            Some(place) if place + 8 <= self.memory.len() => Some(place),
            _ => None,
        }
    }

    /// The place of a known page that may be written, where memory has it whole.
    pub fn open_page(&self, world: &World, page: u32) -> Option<usize>
        requires known { AreKnown self.now.memory.now world.now self.now.known.now }
        requires page { page < 2 ^ 23 }
        ensures open { IfSome result (λ base. (x : Store) → lies_in page x ≡ true → IsStoreInPage self.now.memory.now world.now x (base + x.va % 512)) }
        ensures low { IfSome result (λ base. base ≤ everywhere) }
    {
        match self.place(512 * page, true) {
            Some(base) if base + 512 <= self.memory.len() => Some(base),
            _ => None,
        }
    }

    /// The place of a store that lies in one known page, where memory has it whole.
    pub fn whole_place(&self, world: &World, store: &Store) -> Option<usize>
        requires { AreKnown self.now.memory.now world.now self.now.known.now }
        ensures whole { IfSome result (λ place. IsStoreInPage self.now.memory.now world.now store.now place) }
    {
        self.open_place(world, store.va, store.width)
    }

    /// The places of both parts of a store over a page's end, where both pages are known and memory has them whole.
    pub fn places_over_end(&self, world: &World, store: &Store) -> Option<(usize, usize)>
        requires { AreKnown self.now.memory.now world.now self.now.known.now }
        ensures { IfSome result (λ places. IsStoreOverEnd self.now.memory.now world.now store.now places.0 places.1) }
    {
        let first = 512 - store.va % 512;
        let bytes = u32::from(store.width.bytes());
        if bytes <= first {
            return None;
        }
        let low = self.place(store.va, true)?;
        let high = self.place(store.va.wrapping_add(first), true)?;
        let size = self.memory.len();
        if low + first as usize <= size && high + (bytes - first) as usize <= size {
            Some((low, high))
        } else {
            None
        }
    }

    /// Whether both pages of bytes over a page's end are known for writing, so that their modify bits are set.
    fn is_modified_over_end(&self, world: &World, va: u32, bytes: u32) -> bool
        requires known { AreKnown self.now.memory.now world.now self.now.known.now }
        requires over_end { 512 < va % 512 + bytes }
        requires few { bytes ≤ 8 }
        ensures { result ≡ true → first_clear (is_clear_for self.now.memory.now world.now) (addresses bytes va) ≡ None }
    {
        let next = va.wrapping_add(512 - va % 512);
        match (self.place(va, true), self.place(next, true)) {
            (Some(_), Some(_)) => true,
            _ => false,
        }
    }

    /// Whether the pages of a store are known for writing, so that their modify bits are set.
    fn is_modified(&self, world: &World, store: &Store) -> bool
        requires { AreKnown self.now.memory.now world.now self.now.known.now }
        ensures { result ≡ true → first_clear (is_clear_for self.now.memory.now world.now) (addresses (size_of store.now.width) store.now.va) ≡ None }
    {
        let bytes = u32::from(store.width.bytes());
        if store.va % 512 + bytes > 512 {
            return self.is_modified_over_end(world, store.va, bytes);
        }
        match self.place(store.va, true) {
            Some(_) => true,
            None => false,
        }
    }

    /// Whether the pages of each store are known for writing, so that no modify bit of theirs is clear.
    #[tactic(auto, using(crate::proofs::Puts::store_by_store))]
    pub fn may_store(&self, world: &World, stores: &[Store]) -> bool
        requires { AreKnown self.now.memory.now world.now self.now.known.now }
        ensures { result ≡ true → first_clear (is_clear_for self.now.memory.now world.now) (bytes_of_stores stores.now) ≡ None }
    {
        let [first, rest @ ..] = stores else {
            return true;
        };
        self.is_modified(world, first) && self.may_store(world, rest)
    }
}

impl Space for Mapped<'_> {
    ghost space = { λ m. known_space m.memory.now m.known.now };

    #[inline(always)]
    fn read(&self, va: u32, w: Width) -> Result<u64, Trouble> {
        self.number(va, w, false)
    }

    #[inline(always)]
    fn claim(&self, va: u32, w: Width) -> Result<u64, Trouble> {
        self.number(va, w, true)
    }
}

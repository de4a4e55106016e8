ghost use Rattle.std.specs.Prelude.{◌≡◌, [], ◌∷◌, true, None, ◌+◌, ◌*◌, ◌≤◌, ◌<◌, ◌/◌, ◌%◌, ◌^◌, ℕ, length, slice_index, sum, take, IfOk, IfSome, Ok};
ghost use Rattle.vv_base.specs.Bytes.{long_at, long_bytes, overwritten};
ghost use Rattle.vax_arch.specs.declared.mode.Intent.TheVariants.{Read};
ghost use Rattle.vax_hw.specs.RealTables.{everywhere};
ghost use Rattle.vax_hw.specs.Machine.{Machine, machine_tables, psl_with_psw, psw_of, zeros, seen_psl};
ghost use Rattle.vax_hw.specs.Real.{misses_after};
ghost use Rattle.vax_table.specs.Effects.{effect};
ghost use Rattle.vax_normal.specs.Normal.{quietly};
ghost use Rattle.vax_cpu.specs.Completed.{completed_but_registers};
ghost use Rattle.vax_paged.specs.InPage.{IsStoreInPage};
ghost use Rattle.vax_paged.specs.Known.{AreKnown};
ghost use Rattle.vax_paged.specs.Paged.{placed};

use std::alloc::Global;
use std::cell::Cell;
use std::marker::Model;
use vax_exec::Plan;
use vax_hw::{Exit, Psl, World};
use vax_normal::After;
use vax_paged::{KnownPages, Mapped, Paged, store_all, store_at};
use vax_table::effect::Store;
use vv_base::{NoMemory, get_u32, put_u32};

/// What the machine is to those who use it, but for its registers: memory, what else is loaded, and counts. The registers of
/// the world that it keeps don't matter.
#[derive(Drop)]
pub struct State {
    memory: Vec<u8>,
    pages: u32,
    world: World,
    retired: u64,
    trail: u64,
    misses: u64,
    known: KnownPages,
}

impl Model for State {
    ghost use Rattle.std.specs.Prelude.{◌≡◌, ◌≤◌, ◌*◌, length};
    ghost use Rattle.vax_hw.specs.Machine.{Machine};
    ghost use Rattle.vax_hw.specs.Machine.{machine_tables};
    ghost use Rattle.vax_paged.specs.Known.{AreAllKnown};

    ghost Value = { Machine };

    ghost view = { λ m. record { memory = m.memory.items; world = m.world; retired = m.retired; trail = m.trail; misses = m.misses } };

    ghost invariant = { λ m. (length m.memory.items ≡ 512 * m.pages) × (1 ≤ m.pages) × (m.pages ≤ 65536) × AreAllKnown m.memory.items (machine_tables m.world) m.known };
}

/// A PSL with another status word.
fn with_psw(psl: Psl, psw: u8) -> Psl
    ensures { result ≡ psl_with_psw psl psw }
{
    Psl(psl.0 / 256 * 256 + u32::from(psw))
}

/// Whether two worlds have the same page tables.
fn has_same_tables(a: &World, b: &World) -> bool
    ensures { result ≡ true → machine_tables a.now ≡ machine_tables b.now }
{
    a.p0br == b.p0br
        && a.p0lr == b.p0lr
        && a.p1br == b.p1br
        && a.p1lr == b.p1lr
        && a.sbr == b.sbr
        && a.slr == b.slr
}

/// The longword at a place of a memory, which is a list of bytes.
fn long_in(memory: &[u8], at: usize) -> u32
    requires { at + 4 ≤ length memory.now }
    ensures value { result ≡ long_at memory.now at }
    ensures bytes { (i : ℕ) → slice_index memory.now i < 256 }
{
    get_u32(memory, at)
}

/// The PSL that MOVPSL stores: VMPSL's upper bytes over the real status word.
pub fn seen_psl(w: &World) -> Psl
    ensures { result.0 ≡ seen_psl w.now }
{
    Psl(w.vmpsl.0 / 0x100 * 0x100 + w.psl.0 % 0x100)
}

/// A world of zeros.
fn no_world() -> World {
    World {
        r: [0; 16],
        psl: Psl(0),
        vmpsl: Psl(0),
        p0br: 0,
        p0lr: 0,
        p1br: 0,
        p1lr: 0,
        sbr: 0,
        slr: 0,
    }
}

impl State {
    /// 1 to 65,536 pages of zeros, and counts of 0.
    #[tactic(auto, unfolding(vax_hw::specs::Machine::zeros))]
    pub fn new(alloc: Global, pages: u32) -> Result<State, NoMemory>
        requires some { 1 ≤ pages }
        requires most { pages ≤ 65536 }
        ensures size { IfOk result (λ m. length m.memory ≡ 512 * pages) }
        ensures memory { IfOk result (λ m. m.memory ≡ zeros (512 * pages)) }
        ensures counts { IfOk result (λ m. (m.retired ≡ 0) × (m.trail ≡ 0) × (m.misses ≡ 0)) }
    {
        Ok(State {
            memory: vec![in alloc; 0; 512 * pages as usize]?,
            pages,
            world: no_world(),
            retired: 0,
            trail: 0,
            misses: 0,
            known: KnownPages::nothing(alloc, pages)?,
        })
    }

    /// How many pages there are.
    pub fn pages(&self) -> u32
        ensures size { length self.now.memory ≡ 512 * result }
        ensures some { 1 ≤ result }
        ensures most { result ≤ 65536 }
    {
        self.pages
    }

    /// The memory's bytes.
    pub fn memory(&self) -> &[u8]
        ensures value { result.now ≡ self.now.memory }
        ensures size { length result.now < 2 ^ 32 }
    {
        &self.memory
    }

    /// What is loaded.
    pub fn world(&self) -> &World
        ensures { result.now ≡ self.now.world }
    {
        &self.world
    }

    /// The memory by the pages that are known. The number of a page that is missed goes to `missed`.
    pub fn mapped<'a>(&'a self, missed: &'a Cell<u32>) -> Mapped<'a>
        ensures memory { result.memory.now ≡ self.now.memory }
        ensures known { AreKnown self.now.memory self.now.world result.known.now }
    {
        Mapped {
            memory: &self.memory,
            known: self.known.of(self.world.psl.current()),
            missed,
        }
    }

    /// The place of an address in the page of the last instruction, if it lies before this place of the page.
    #[inline(always)]
    pub fn place_here(&self, va: u32, end: u32) -> Option<usize>
        requires { end ≤ 512 }
        ensures is { IfSome result (λ place. placed self.now.memory self.now.world Read va ≡ Ok place) }
        ensures low { IfSome result (λ place. place ≤ everywhere) }
        ensures inside { IfSome result (λ place. va % 512 < end) }
    {
        match self.known.offset_here(self.world.psl, va, end) {
            Some(offset) => Some(self.known.here.first as usize + offset as usize),
            None => None,
        }
    }

    /// The page of an address is that of the last instruction from now on, if it is known; nothing else changes.
    pub fn go_to(&mut self, va: u32)
        ensures { self.new ≡ self.old }
    {
        self.known.go_to(self.world.psl, va);
    }

    /// What the tables say of the page that was missed is known from now on, if there is one and they say anything; nothing
    /// else changes.
    #[cold]
    #[inline(never)]
    pub fn learn(&mut self, missed: &Cell<u32>)
        ensures { self.new ≡ self.old }
    {
        let page = missed.replace(u32::MAX);
        if page >= 0x80_0000 {
            return;
        }
        let space = Paged {
            memory: &self.memory,
            world: &self.world,
        };
        if let Some(learned) = space.looked_up(page) {
            self.known.learn(self.world.psl.current(), page, learned);
        }
    }

    /// How many instructions have retired, modulo 2^64.
    pub fn retired(&self) -> u64
        ensures { result ≡ self.now.retired }
    {
        self.retired
    }

    /// The trail, modulo 2^64.
    pub fn trail(&self) -> u64
        ensures { result ≡ self.now.trail }
    {
        self.trail
    }

    /// How many entries were missed, modulo 2^64.
    pub fn misses(&self) -> u64
        ensures { result ≡ self.now.misses }
    {
        self.misses
    }

    /// The longword at a place.
    pub fn read_long(&self, place: u32) -> u32
        requires { place + 4 ≤ length self.now.memory }
        ensures value { result ≡ long_at self.now.memory place }
        ensures bytes { (at : ℕ) → slice_index self.now.memory at < 256 }
    {
        long_in(&self.memory, place as usize)
    }

    /// Stores a longword at a place.
    pub fn write_long(&mut self, place: u32, v: u32)
        requires { place + 4 ≤ length self.old.memory }
        ensures { self.new ≡ (record self.old { memory = overwritten self.old.memory place (long_bytes v) }) }
    {
        let place = place as usize;
        put_u32(&mut self.memory, place, v);
        self.known.stored(place, place + 3);
    }

    /// Loads both status longwords and the table registers.
    pub fn load(&mut self, w: &World)
        ensures { self.new ≡ (record self.old { world = record w.now { r = self.old.world.r } }) }
    {
        let r = self.world.r;
        let loaded = World { r, ..*w };
        if has_same_tables(&self.world, w) {
            self.world = loaded;
            return;
        }
        self.known.forget();
        self.world = loaded;
    }

    /// An instruction at an address has retired: its stores are made, the status word is that after it, and it is counted.
    /// `after` has the sum of R0 to R14, and `r` are the registers.
    #[inline(always)]
    fn retire_with(
        &mut self,
        pc: u32,
        opcode: u8,
        after: After,
        stores: &[Store],
        r: &[u32; 16],
        missed: &Cell<u32>,
    )
        requires sum { after.total ≡ sum (take 15 r.now) }
        requires few { length stores.now ≤ 20 }
        ensures { self.new ≡ completed_but_registers pc opcode (record { r = r.now; psw = after.psw; writes = stores.now; trap = None }) self.old }
    {
        store_all(
            &mut self.memory,
            &self.world,
            &mut self.known,
            missed,
            stores,
        );
        self.retire_at_once(pc, opcode, after.total, after.psw, r);
    }

    /// An instruction with a plan has retired: its stores are made, and it is counted. `total` is the sum of R0 to R14 after it.
    #[inline(always)]
    pub fn retire(&mut self, pc: u32, opcode: u8, total: u64, plan: &Plan, missed: &Cell<u32>)
        requires { total ≡ sum (take 15 plan.now.r) }
        ensures { self.new ≡ completed_but_registers pc opcode (effect plan.now) self.old }
    {
        let after = After {
            psw: plan.psw,
            total,
        };
        self.retire_with(pc, opcode, after, plan.writes.as_slice(), &plan.r, missed);
    }

    /// An instruction that makes one store, in one page at this place, has retired: the store is made, and the instruction is
    /// counted. `after` has the sum of R0 to R14, and `r` are the registers.
    #[inline(always)]
    pub fn retire_storing(
        &mut self,
        pc: u32,
        opcode: u8,
        after: After,
        place: usize,
        store: &Store,
        r: &[u32; 16],
    )
        requires sum { after.total ≡ sum (take 15 r.now) }
        requires place { IsStoreInPage self.old.memory self.old.world store.now place }
        ensures { self.new ≡ completed_but_registers pc opcode (record { r = r.now; psw = after.psw; writes = store.now ∷ []; trap = None }) self.old }
    {
        store_at(&mut self.memory, &self.world, &mut self.known, place, store);
        self.retire_at_once(pc, opcode, after.total, after.psw, r);
    }

    /// The status word.
    #[inline(always)]
    pub fn psw(&self) -> u8
        ensures { result ≡ psw_of self.now.world }
    {
        (self.world.psl.0 % 0x100) as u8
    }

    /// An instruction at an address has retired, which stores nothing: the status word is this after it, and it is counted.
    /// `total` is the sum of R0 to R14 after it, and `r` are the registers.
    #[inline(always)]
    pub fn retire_at_once(&mut self, pc: u32, opcode: u8, total: u64, psw: u8, r: &[u32; 16])
        requires { total ≡ sum (take 15 r.now) }
        ensures { self.new ≡ completed_but_registers pc opcode (quietly r.now psw) self.old }
    {
        let own = u64::from(pc) + 3 * u64::from(opcode);
        self.trail = self.trail.wrapping_add(own).wrapping_add(total);
        self.retired = self.retired.wrapping_add(1);
        self.world.psl = with_psw(self.world.psl, psw);
    }

    /// An instruction didn't retire: an entry that wasn't valid is counted.
    pub fn stop(&mut self, exit: &Exit)
        ensures { self.new ≡ (record self.old { misses = misses_after self.old.misses exit.now }) }
    {
        if let Exit::NotValid { .. } = exit {
            self.misses = self.misses.wrapping_add(1);
        }
    }
}

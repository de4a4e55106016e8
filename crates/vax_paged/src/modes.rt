ghost use Rattle.std.specs.Prelude.{◌≡◌, ◌+◌, ◌*◌, ◌≤◌, ◌<◌, ◌/◌, ◌%◌, ◌^◌, ℕ, List, true, slice_set, IfOk, IfSome};
ghost use Rattle.vax_arch.specs.Walk.{Tables, page_of};
ghost use Rattle.vax_hw.specs.RealTables.{everywhere};
ghost use Rattle.vax_paged.specs.Known.{AreAllIn, AreAllKnown, AreKnownIn, IsKnownIn, IsLearned, IsSameBut, watches};

use crate::known::{Known, Learned};
use crate::pages::ModePages;
use std::alloc::Global;
use vax_arch::{Mode, Psl};
use vv_base::NoMemory;

/// The page of the last instruction.
#[derive(Clone, Copy)]
pub struct Here {
    /// The address of its first byte.
    pub start: u32,
    /// Bits 31:24 of the PSL, which have the mode; 0x100, where no page is known to be the last.
    pub high: u32,
    /// The place of its first byte.
    pub first: u32,
}

/// Bits 31:24 of a PSL, apart from the status word, so that they needn't wait until that is stored.
#[inline(always)]
fn high_of(psl: Psl) -> u32
    ensures { result ≡ psl.0 / 2 ^ 24 }
{
    psl.0 / 0x100_0000
}

/// No page.
fn nowhere() -> Here
    ensures start { result.start ≡ 0 }
    ensures high { result.high ≡ 256 }
{
    Here {
        start: 0,
        high: 0x100,
        first: 0,
    }
}

/// The translation buffer: the pages that are known in each mode, that of the last instruction, and the frames of memory whose
/// stores are watched, since what is known rests on them: those that have the present mark.
#[derive(Drop)]
pub struct KnownPages {
    pub kernel: ModePages,
    pub executive: ModePages,
    pub supervisor: ModePages,
    pub user: ModePages,
    pub here: Here,
    pub marks: Vec<u32>,
    pub mark: u32,
}

impl KnownPages {
    /// None is known, over `pages` pages of memory.
    pub fn nothing(alloc: Global, pages: u32) -> Result<KnownPages, NoMemory>
        ensures { IfOk result (λ p. (memory : List ℕ) (t : Tables) → AreAllKnown memory t p) }
    {
        Ok(KnownPages {
            kernel: ModePages::nothing(),
            executive: ModePages::nothing(),
            supervisor: ModePages::nothing(),
            user: ModePages::nothing(),
            here: nowhere(),
            marks: vec![in alloc; 0; pages as usize]?,
            mark: 1,
        })
    }

    /// None is known any more, and no store is watched.
    #[inline(never)]
    pub fn forget(&mut self)
        ensures { (memory : List ℕ) (t : Tables) → AreAllKnown memory t self.new }
    {
        self.kernel.forget();
        self.executive.forget();
        self.supervisor.forget();
        self.user.forget();
        self.here = nowhere();
        self.mark = self.mark.wrapping_add(1);
    }

    /// Those of a mode.
    pub fn of(&self, m: Mode) -> &ModePages
        ensures { (memory : List ℕ) (t : Tables) → AreAllKnown memory t self.now → AreKnownIn memory t m result.now }
    {
        match m {
            Mode::Kernel => &self.kernel,
            Mode::Executive => &self.executive,
            Mode::Supervisor => &self.supervisor,
            Mode::User => &self.user,
        }
    }

    /// How far an address is in the page of the last instruction, if it lies there before this place of the page.
    #[inline(always)]
    pub fn offset_here(&self, psl: Psl, va: u32, end: u32) -> Option<u32>
        ensures high { IfSome result (λ offset. (self.now.here.high ≡ psl.0 / 2 ^ 24) × (self.now.here.high < 256)) }
        ensures low { self.now.here.start < 2 ^ 32 }
        ensures offset { IfSome result (λ offset. va ≡ (self.now.here.start + offset) % 2 ^ 32) }
        ensures inside { IfSome result (λ offset. offset < end) }
    {
        let offset = va.wrapping_sub(self.here.start);
        if offset < end && self.here.high == high_of(psl) {
            Some(offset)
        } else {
            None
        }
    }

    /// The page of an address is that of the last instruction from now on, if it is known.
    pub fn go_to(&mut self, psl: Psl, va: u32)
        ensures { (memory : List ℕ) (t : Tables) → AreAllKnown memory t self.old → AreAllKnown memory t self.new }
    {
        let Some(first) = self.of(psl.current()).place(512 * (va / 512), false) else {
            return;
        };
        if first >= 0x1_0000_0000 {
            return;
        }
        self.here = Here {
            start: 512 * (va / 512),
            high: high_of(psl),
            first: first as u32,
        };
    }

    /// Whether stores to the frame of a place are watched.
    pub fn watches(&self, place: usize) -> bool
        ensures { result ≡ watches self.now.marks.items self.now.mark place }
    {
        match self.marks.get(place / 512) {
            Some(mark) => *mark == self.mark,
            None => true,
        }
    }

    /// There were stores to the frames of two places, and to no others.
    pub fn stored(&mut self, first: usize, last: usize)
        ensures { (memory other : List ℕ) (t : Tables) → AreAllKnown memory t self.old → IsSameBut first last memory other → AreAllKnown other t self.new }
    {
        if !self.watches(first) && !self.watches(last) {
            return;
        }
        self.forget();
    }

    /// Stores to a frame are watched from now on.
    fn watch_frame(&mut self, frame: usize)
        ensures same { self.new ≡ (record self.old { marks = self.new.marks }) }
        ensures marks { self.new.marks.items ≡ slice_set self.old.marks.items frame self.old.mark }
    {
        if frame < self.marks.len() {
            self.marks[frame] = self.mark;
        }
    }

    /// Stores to the longword at a place are watched from now on.
    fn watch(&mut self, place: usize)
        requires { place ≤ everywhere }
        ensures same { self.new ≡ (record self.old { marks = self.new.marks }) }
        ensures more { (at : ℕ) → watches self.old.marks.items self.old.mark at ≡ true → watches self.new.marks.items self.new.mark at ≡ true }
        ensures watched { (i : ℕ) → i < 4 → watches self.new.marks.items self.new.mark (place + i) ≡ true }
    {
        self.watch_frame(place / 512);
        self.watch_frame((place + 3) / 512);
    }

    /// A page is known in a mode.
    fn put(&mut self, m: Mode, at: usize, known: Known)
        requires { at < 2048 }
        ensures marks { self.new.marks ≡ self.old.marks }
        ensures mark { self.new.mark ≡ self.old.mark }
        ensures known { (memory : List ℕ) (t : Tables) → AreAllIn memory t self.old → IsKnownIn memory t m known → AreAllIn memory t self.new }
    {
        match m {
            Mode::Kernel => self.kernel.put(at, known),
            Mode::Executive => self.executive.put(at, known),
            Mode::Supervisor => self.supervisor.put(at, known),
            Mode::User => self.user.put(at, known),
        }
    }

    /// One more page in a mode, and stores to its entries are watched.
    pub fn learn(&mut self, m: Mode, page: u32, learned: Learned)
        requires table { learned.table ≤ everywhere }
        requires place { learned.place ≤ everywhere }
        ensures { (memory : List ℕ) (t : Tables) → AreAllKnown memory t self.old → IsLearned memory t m learned → AreAllKnown memory t self.new }
    {
        self.watch(learned.table);
        self.watch(learned.place);
        self.put(m, (page % 2048) as usize, learned.known);
    }
}

ghost use Rattle.std.specs.Bool.{OnTrue};
ghost use Rattle.std.specs.Prelude.{◌+◌, ◌*◌, ◌≤◌, IfOk};
ghost use Rattle.vm_guest.specs.Kept.{IsShadowedIn};

use crate::{Place, is_allowed};
use std::alloc::Global;
use vax_cpu::Cpu;
use vax_hw::Hardware;
use vm_clock::Clock;
use vm_console::{Console, KeptPort};
use vm_guest::{Counts, Guest};
use vm_state::GuestState;
use vv_base::NoMemory;

/// The pages of the guest.
pub const PAGES: u32 = 64;

/// The first page of the guest's real tables, and the pages of the machine.
const TABLES: u32 = 100;

const MACHINE: u32 = 700;

/// How many steps are plain, sensitive, faults, interrupts, modify steps, idle and stopped.
pub type Kinds = [u64; 7];

/// How steps are taken: one by one, or in two calls, with the number of steps of the first.
#[derive(Clone, Copy, Debug, PartialEq, Eq)]
pub enum Quanta {
    Single,
    Cut(u32),
}

/// What every guest that is set up has.
static UNMAPPED: [(Place, u32); 4] = [
    (Place::Scbb, 0x4400),
    (Place::Psl, 0),
    (Place::Stack(0), 0x3000),
    (Place::R(14), 0x3000),
];

/// What it has besides where mapping is on.
static MAPPED: [(Place, u32); 7] = [
    (Place::Mapen, 1),
    (Place::P0br, 0x8000_4200),
    (Place::P0lr, 64),
    (Place::Sbr, 0x4000),
    (Place::Slr, 64),
    (Place::Stack(0), 0x8000_3000),
    (Place::R(14), 0x8000_3000),
];

/// A guest of 64 pages in a machine, in which it is between calls, and what its console was shown.
#[derive(Drop)]
pub struct Stage {
    pub machine: Cpu,
    pub guest: Guest,
    pub port: KeptPort<2048>,
}

/// How many steps of each kind were counted.
pub fn kinds_of(counts: &Counts) -> Kinds {
    [
        counts.plain,
        counts.sensitive,
        counts.faults,
        counts.interrupts,
        counts.modify,
        counts.idle,
        counts.stopped,
    ]
}

/// The sums of two.
pub fn sums(a: &Kinds, b: &Kinds) -> Kinds {
    let mut sums = [0; 7];
    for k in 0..7 {
        sums[k] = a[k].wrapping_add(b[k]);
    }
    sums
}

/// A copy of a guest's state.
fn copy_of(g: &GuestState) -> GuestState {
    let mut queue = arrayvec::ArrayVec::new();
    let _ = queue.try_extend_from_slice(g.queue.as_slice());
    GuestState {
        r: g.r,
        psl: g.psl,
        stacks: g.stacks,
        p0br: g.p0br,
        p0lr: g.p0lr,
        p1br: g.p1br,
        p1lr: g.p1lr,
        sbr: g.sbr,
        slr: g.slr,
        pcbb: g.pcbb,
        scbb: g.scbb,
        astlvl: g.astlvl,
        sisr: g.sisr,
        mapen: g.mapen,
        clock: Clock::of_parts(&g.clock.parts()),
        console: Console::of_parts(&g.console.parts()),
        kcall_due: g.kcall_due,
        queue,
        waiting: g.waiting,
        halt: g.halt,
        steps: g.steps,
        pages: g.pages,
        base: g.base,
        start: g.start,
        modify_faults: g.modify_faults,
    }
}

impl Stage {
    /// A guest that starts at an address, its memory zero, from a page of the machine on.
    pub fn new(alloc: Global, base: u32, start: u32) -> Result<Stage, NoMemory>
        requires { base ≤ 36 }
        ensures { IfOk result (λ stage. IsShadowedIn stage.machine.memory stage.guest) }
    {
        let mut machine = Cpu::new(alloc, MACHINE)?;
        let mut guest = Guest::new(alloc, &mut machine, PAGES, base, TABLES, start, false)?;
        let port = KeptPort::new(alloc)?;
        guest.start(&mut machine);
        Ok(Stage {
            machine,
            guest,
            port,
        })
    }

    /// Both tables and the vectors, where mapping is on.
    fn put_tables(&mut self, mapped: bool) -> bool
        requires { IsShadowedIn self.old.machine.memory self.old.guest }
        ensures { IsShadowedIn self.new.machine.memory self.new.guest }
    {
        !mapped
            || self.put_rising(0x4000, 64, 0xA400_0000, 1)
                && self.put_rising(0x4200, 64, 0xA400_0000, 1)
                && self.put_rising(0x4400, 128, 0x8000_1000, 0)
                && self.put_all(&MAPPED)
    }

    /// A guest in kernel mode at 200, with IPL 0, and the system control block at 4400. With mapping off each vector is
    /// 1000 and KSP 3000. With mapping on the system table at 4000 and the P0 table at 4200 map each of the 64 pages to the
    /// frame of its number, open to all and modified, each vector is 80001000 and KSP 80003000.
    pub fn set_up(alloc: Global, mapped: bool) -> Result<Stage, NoMemory>
        ensures { IfOk result (λ stage. IsShadowedIn stage.machine.memory stage.guest) }
    {
        let mut stage = Stage::new(alloc, 16, 0x200)?;
        let _ = stage.put_rising(0x4400, 128, 0x1000, 0);
        let _ = stage.put_all(&UNMAPPED);
        let _ = stage.put_tables(mapped);
        Ok(stage)
    }

    /// Its registers.
    pub fn state(&self) -> &GuestState {
        self.guest.state()
    }

    /// Whether `count` bytes from a physical address on lie in memory.
    fn holds(&self, pa: u32, count: usize) -> bool
        ensures { OnTrue result (pa + count ≤ 512 * self.now.guest.state.pages) }
    {
        let size = 512 * u64::from(self.guest.state().pages);
        let count = count as u64;
        count <= size && u64::from(pa) <= size - count
    }

    /// Writes bytes of memory, if they lie in it; whether they do.
    pub fn put(&mut self, pa: u32, bytes: &[u8]) -> bool
        requires { IsShadowedIn self.old.machine.memory self.old.guest }
        ensures { IsShadowedIn self.new.machine.memory self.new.guest }
    {
        let is_inside = self.holds(pa, bytes.len());
        if is_inside {
            self.guest.store(&mut self.machine, pa, bytes);
        }
        is_inside
    }

    /// Reads bytes of memory, if they lie in it; whether they do.
    pub fn fetch(&self, pa: u32, bytes: &mut [u8]) -> bool
        requires { IsShadowedIn self.now.machine.memory self.now.guest }
    {
        let is_inside = self.holds(pa, bytes.len());
        if is_inside {
            self.guest.fetch_into(&self.machine, pa, bytes);
        }
        is_inside
    }

    /// The guest has these registers, if each has a value that it may have; whether it has them.
    pub fn set(&mut self, mut state: GuestState) -> bool
        requires { IsShadowedIn self.old.machine.memory self.old.guest }
        ensures { IsShadowedIn self.new.machine.memory self.new.guest }
    {
        let own = self.guest.state();
        state.pages = own.pages;
        state.base = own.base;
        state.start = own.start;
        let can = is_allowed(&state);
        if can {
            self.guest.set_state(&mut self.machine, state);
        }
        can
    }

    /// Its registers once more, to be changed and set.
    pub fn copy(&self) -> GuestState {
        copy_of(self.guest.state())
    }

    /// Longwords of memory; whether all lie in it. Registers are passed over.
    fn put_longs(&mut self, values: &[(Place, u32)]) -> bool
        requires { IsShadowedIn self.old.machine.memory self.old.guest }
        ensures { IsShadowedIn self.new.machine.memory self.new.guest }
    {
        let mut fit = true;
        for (place, v) in values {
            if let Place::Long(pa) = *place {
                fit = self.put(pa, &v.to_le_bytes()) && fit;
            }
        }
        fit
    }

    /// Registers and longwords of memory; whether they may have these values.
    pub fn put_all(&mut self, values: &[(Place, u32)]) -> bool
        requires { IsShadowedIn self.old.machine.memory self.old.guest }
        ensures { IsShadowedIn self.new.machine.memory self.new.guest }
    {
        let mut state = self.copy();
        for (place, v) in values {
            place.put_into(&mut state, *v);
        }
        self.put_longs(values) && self.set(state)
    }

    /// Puts `count` longwords from an address on, each greater than the one before by `by`; whether they lie in memory.
    pub fn put_rising(&mut self, pa: u32, count: u32, first: u32, by: u32) -> bool
        requires { IsShadowedIn self.old.machine.memory self.old.guest }
        ensures { IsShadowedIn self.new.machine.memory self.new.guest }
    {
        let mut fit = true;
        for i in 0..count {
            let v = first.wrapping_add(i.wrapping_mul(by));
            fit = self.put(pa.wrapping_add(i.wrapping_mul(4)), &v.to_le_bytes()) && fit;
        }
        fit
    }

    /// The guest takes `steps` steps.
    pub fn advance(&mut self, steps: u32) -> Counts
        requires { IsShadowedIn self.old.machine.memory self.old.guest }
        ensures { IsShadowedIn self.new.machine.memory self.new.guest }
    {
        self.guest.advance(&mut self.machine, &mut self.port, steps)
    }

    /// Takes `steps` steps one by one; their kinds.
    fn advance_singly(&mut self, steps: u32) -> Kinds
        requires { IsShadowedIn self.old.machine.memory self.old.guest }
        ensures { IsShadowedIn self.new.machine.memory self.new.guest }
    {
        let mut kinds = [0; 7];
        for _ in 0..steps {
            let counts = self.advance(1);
            kinds = sums(&kinds, &kinds_of(&counts));
        }
        kinds
    }

    /// Takes `steps` steps in two calls; their kinds.
    fn advance_cut(&mut self, steps: u32, place: u32) -> Kinds
        requires { IsShadowedIn self.old.machine.memory self.old.guest }
        ensures { IsShadowedIn self.new.machine.memory self.new.guest }
    {
        let first = self.advance(place);
        let second = self.advance(steps.saturating_sub(place));
        sums(&kinds_of(&first), &kinds_of(&second))
    }

    /// Takes `steps` steps, cut as `quanta` says; their kinds.
    pub fn play(&mut self, steps: u32, quanta: Quanta) -> Kinds
        requires { IsShadowedIn self.old.machine.memory self.old.guest }
        ensures { IsShadowedIn self.new.machine.memory self.new.guest }
    {
        match quanta {
            Quanta::Single => self.advance_singly(steps),
            Quanta::Cut(place) => self.advance_cut(steps, place),
        }
    }

    /// The guest goes on on a new machine, in other pages of it: its memory and its registers are carried over.
    pub fn carry(&mut self, alloc: Global) -> Result<(), NoMemory>
        requires { IsShadowedIn self.old.machine.memory self.old.guest }
        ensures { IsShadowedIn self.new.machine.memory self.new.guest }
    {
        let own = self.guest.state();
        let base = if own.base == 16 { 36 } else { 16 };
        let mut other = Stage::new(alloc, base, own.start)?;
        let mut memory = vec![in alloc; 0; 512 * PAGES as usize]?;
        let _ = self.fetch(0, &mut memory);
        let _ = other.put(0, &memory);
        let _ = other.set(self.copy());
        let Stage {
            machine,
            guest,
            port: _,
        } = other;
        self.machine = machine;
        self.guest = guest;
        Ok(())
    }

    /// How many entries the machine has missed, and how many instructions it has retired.
    pub fn misses(&self) -> u64 {
        self.machine.misses()
    }

    pub fn retired(&self) -> u64 {
        self.machine.retired()
    }
}

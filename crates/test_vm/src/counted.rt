ghost use Rattle.std.specs.Prelude.{◌≡◌, ◌≤◌, ◌*◌, length, IfOk};

use std::alloc::Global;
use std::cell::Cell;
use vax_arch::Pte;
use vax_cpu::Cpu;
use vax_hw::{Exit, Hardware, World};
use vv_base::NoMemory;

/// How often the machine was asked: longwords read and written by the kernel, runs, pages missed in them, and guarded runs. The
/// kernel sets a modify bit right before a guarded run, and clears it right after it.
pub type Cost = [u64; 5];

/// A machine that counts what it is asked.
#[derive(Drop)]
pub struct Counted {
    machine: Cpu,
    reads: Cell<u64>,
    writes: u64,
    runs: u64,
    guarded: u64,
    /// Where the kernel set a modify bit last: since the last run, and right before it.
    opened: Option<u32>,
    opened_before: Option<u32>,
}

impl Counted {
    /// A machine of `pages` pages, of which nothing was asked.
    pub fn new(alloc: Global, pages: u32) -> Result<Counted, NoMemory>
        requires some { 1 ≤ pages }
        requires most { pages ≤ 65536 }
        ensures { IfOk result (λ c. length c.machine.memory ≡ 512 * pages) }
    {
        Ok(Counted {
            machine: Cpu::new(alloc, pages)?,
            reads: Cell::new(0),
            writes: 0,
            runs: 0,
            guarded: 0,
            opened: None,
            opened_before: None,
        })
    }

    /// What it was asked so far.
    pub fn cost(&self) -> Cost {
        [
            self.reads.get(),
            self.writes,
            self.runs,
            self.machine.misses(),
            self.guarded,
        ]
    }

    /// What it was asked since then.
    pub fn cost_since(&self, before: &Cost) -> Cost {
        let mut cost = self.cost();
        for k in 0..5 {
            cost[k] = cost[k].wrapping_sub(before[k]);
        }
        cost
    }

    /// A longword is written whose modify bit was set before, or is set now.
    fn note(&mut self, pa: u32, before: bool, now: bool)
        ensures { self.new.machine ≡ self.old.machine }
    {
        if now && !before {
            self.opened = Some(pa);
        }
        if before && !now && self.opened_before == Some(pa) {
            self.guarded = self.guarded.wrapping_add(1);
            self.opened_before = None;
        }
    }
}

impl Hardware for Counted {
    ghost machine = { λ c. c.machine };

    fn pages(&self) -> u32 {
        self.machine.pages()
    }

    fn retired(&self) -> u64 {
        self.machine.retired()
    }

    fn trail(&self) -> u64 {
        self.machine.trail()
    }

    fn misses(&self) -> u64 {
        self.machine.misses()
    }

    fn read_long(&self, pa: u32) -> u32 {
        self.reads.set(self.reads.get().wrapping_add(1));
        self.machine.read_long(pa)
    }

    fn write_long(&mut self, pa: u32, v: u32) {
        self.writes = self.writes.wrapping_add(1);
        let before = Pte(self.machine.read_long(pa)).modified();
        self.note(pa, before, Pte(v).modified());
        self.machine.write_long(pa, v);
    }

    fn load_world(&mut self, w: &World) {
        self.machine.load_world(w);
    }

    fn save_world(&self) -> World {
        self.machine.save_world()
    }

    fn run(&mut self, budget: u32) -> Exit {
        self.runs = self.runs.wrapping_add(1);
        self.opened_before = self.opened;
        self.opened = None;
        self.machine.run(budget)
    }
}

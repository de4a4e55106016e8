ghost use Rattle.std.specs.Prelude.{◌≡◌, ◌≤◌, ◌+◌, ◌*◌, IfOk, is_some, length, true};
ghost use Rattle.std.specs.Bool.{OnTrue};
ghost use Rattle.vax_arch.specs.Walk.{entry_at, page_of};
ghost use Rattle.vm_shadow.specs.Shadowed.{read_at};
ghost use Rattle.vm_shadow.specs.StandsFor.{StandsFor, own_number};
ghost use Rattle.test_vm.specs.Registers.{IsClaimed, is_marked_entry};
ghost use Rattle.vm_state.specs.Partition.{guest_of, partition_of};
ghost use Rattle.vm_state.specs.Translation.{look};

use crate::Registers;
use std::alloc::Global;
use vax_arch::{Intent, Lookup, Mode, Pte};
use vax_cpu::Cpu;
use vax_hw::{Hardware, World};
use vm_shadow::Shadow;
use vm_state::{GuestState, Walk};
use vm_walk::{look_up, walk};
use vv_base::NoMemory;

/// The pages of the guest, and the first of them in the machine.
pub const PAGES: u32 = 64;

pub const BASE: u32 = 16;

/// The first page of the guest's real tables, and the pages of the machine.
const TABLES: u32 = 100;

const MACHINE: u32 = 700;

/// A guest on a machine, with its shadow page tables, which stand for its own between calls.
#[derive(Drop)]
pub struct Bench {
    pub machine: Cpu,
    pub shadow: Shadow,
    pub guest: GuestState,
}

/// What happens to a guest: the kernel writes a longword or a byte at a place of its memory, sets the modify bit of an address's
/// page, or grants writes to it. Or a byte is written to an address in a guarded step; table registers change; an address is
/// referred to.
#[derive(Clone, Copy)]
pub enum Event {
    Put(u32, u32),
    PutByte(u32, u8),
    Mark(u32),
    Grant(u32),
    Write(u32, u8),
    Load(Registers),
    Touch(u32),
}

/// Whether the guest's entry of an address's page has its modify bit set.
fn is_marked(machine: &Cpu, g: &GuestState, va: u32) -> bool
    requires partition { 512 * (g.now.base + g.now.pages) ≤ length machine.now.memory }
    ensures { result ≡ is_marked_entry (entry_at (partition_of machine.now.memory g.now) (look (guest_of machine.now.memory g.now) (page_of va))) }
{
    let _all = machine.pages();
    match look_up(machine, g, va / 512) {
        Lookup::Found { place, .. } => Pte(machine.read_long(512 * g.base + place)).modified(),
        Lookup::Direct { frame } => Pte(0xA400_0000 + frame).modified(),
        Lookup::Fails { .. } | Lookup::Beyond => false,
    }
}

impl Bench {
    /// A guest that starts, with mapping off; its memory is zero.
    #[tactic(auto, using(crate::proofs::Driving::start_allowed, crate::proofs::Driving::started))]
    pub fn new(alloc: Global) -> Result<Bench, NoMemory>
        ensures { IfOk result (λ b. StandsFor b.machine.memory b.shadow b.guest) }
    {
        let mut machine = Cpu::new(alloc, MACHINE)?;
        let guest = GuestState::new(PAGES, BASE, 0x200, false);
        let shadow = Shadow::new(alloc, &mut machine, &guest, TABLES)?;
        Ok(Bench {
            machine,
            shadow,
            guest,
        })
    }

    /// What the machine runs under.
    pub fn world(&self) -> World
        requires { StandsFor self.now.machine.memory self.now.shadow self.now.guest }
    {
        self.shadow.world(&self.guest)
    }

    /// Loads table registers, if they are allowed; whether they are.
    #[tactic(auto, using(crate::proofs::Driving::loads_allowed, crate::proofs::Driving::can_load, crate::proofs::Driving::switched))]
    pub fn load(&mut self, registers: &Registers) -> bool
        requires { StandsFor self.old.machine.memory self.old.shadow self.old.guest }
        ensures { StandsFor self.new.machine.memory self.new.shadow self.new.guest }
    {
        let are_allowed = registers.are_allowed();
        if are_allowed {
            registers.put_into(&mut self.guest);
            self.shadow.switch(&mut self.machine, &self.guest);
        }
        are_allowed
    }

    /// Fills the page of an address, if it has a frame for reading in kernel mode; whether it has.
    #[tactic(auto, using(crate::proofs::Driving::partition_fits, crate::proofs::Driving::is_present, crate::proofs::Driving::is_filled))]
    pub fn touch(&mut self, va: u32) -> bool
        requires { StandsFor self.old.machine.memory self.old.shadow self.old.guest }
        ensures stands { StandsFor self.new.machine.memory self.new.shadow self.new.guest }
        ensures filled { OnTrue result (is_some (read_at self.new.shadow (own_number self.new.shadow (page_of va))) ≡ true) }
    {
        match walk(&self.machine, &self.guest, va, Mode::Kernel, Intent::Read) {
            Walk::Frame { .. } => {
                self.shadow.fill(&mut self.machine, &self.guest, va);
                true
            }
            Walk::Fault(_) | Walk::Beyond => false,
        }
    }

    /// Fills the page of an address, if it has a frame; whether its own modify bit is set too.
    #[tactic(auto, using(crate::proofs::Driving::partition_fits, crate::proofs::Driving::is_claimed))]
    fn claim(&mut self, va: u32) -> bool
        requires { StandsFor self.old.machine.memory self.old.shadow self.old.guest }
        ensures stands { StandsFor self.new.machine.memory self.new.shadow self.new.guest }
        ensures claimed { OnTrue result (IsClaimed self.new.machine.memory self.new.shadow (page_of va)) }
    {
        self.touch(va) && is_marked(&self.machine, &self.guest, va)
    }

    /// Grants writes to the page of an address, if it has a frame whose modify bit is set; whether they are granted.
    #[tactic(auto, using(crate::proofs::Driving::granted))]
    pub fn grant(&mut self, va: u32) -> bool
        requires { StandsFor self.old.machine.memory self.old.shadow self.old.guest }
        ensures { StandsFor self.new.machine.memory self.new.shadow self.new.guest }
    {
        if self.claim(va) {
            self.shadow.grant_write(&mut self.machine, va)
        } else {
            false
        }
    }

    /// Writes a byte at a place after an address's page that is opened, and closes it again.
    #[tactic(auto, using(crate::proofs::Driving::opened_fits, crate::proofs::Driving::written_fits, crate::proofs::Driving::closed_again))]
    fn write_opened(&mut self, va: u32, pa: u32, byte: u8)
        requires stands { StandsFor self.old.machine.memory self.old.shadow self.old.guest }
        requires claimed { IsClaimed self.old.machine.memory self.old.shadow (page_of va) }
        requires inside { pa + 1 ≤ 512 * self.old.shadow.pages }
        ensures { StandsFor self.new.machine.memory self.new.shadow self.new.guest }
    {
        self.shadow.open_write(&mut self.machine, va);
        self.shadow.store_byte(&mut self.machine, pa, byte);
        self.shadow.close_write(&mut self.machine, va);
    }

    /// Writes a byte in a guarded step, if kernel mode may write it and the page's modify bit is set; whether it was written.
    #[tactic(auto, using(crate::proofs::Driving::partition_fits))]
    pub fn write(&mut self, va: u32, byte: u8) -> bool
        requires { StandsFor self.old.machine.memory self.old.shadow self.old.guest }
        ensures { StandsFor self.new.machine.memory self.new.shadow self.new.guest }
    {
        let Walk::Frame { pa, .. } = walk(
            &self.machine,
            &self.guest,
            va,
            Mode::Kernel,
            Intent::Write,
        ) else {
            return false;
        };
        if !self.claim(va) {
            return false;
        }
        let is_inside = pa / 512 < self.guest.pages;
        if is_inside {
            self.write_opened(va, pa, byte);
        }
        is_inside
    }

    /// Writes a longword of the guest's memory, if it is aligned and inside; whether it was written.
    #[tactic(auto, using(crate::proofs::Driving::stored))]
    pub fn put(&mut self, pa: u32, long: u32) -> bool
        requires { StandsFor self.old.machine.memory self.old.shadow self.old.guest }
        ensures { StandsFor self.new.machine.memory self.new.shadow self.new.guest }
    {
        let is_place = pa % 4 == 0 && pa / 512 < self.guest.pages;
        if is_place {
            self.shadow.store_long(&mut self.machine, pa, long);
        }
        is_place
    }

    /// Writes a byte of the guest's memory, if it is inside; whether it was written.
    #[tactic(auto, using(crate::proofs::Driving::stored))]
    pub fn put_byte(&mut self, pa: u32, byte: u8) -> bool
        requires { StandsFor self.old.machine.memory self.old.shadow self.old.guest }
        ensures { StandsFor self.new.machine.memory self.new.shadow self.new.guest }
    {
        let is_inside = pa / 512 < self.guest.pages;
        if is_inside {
            self.shadow.store_byte(&mut self.machine, pa, byte);
        }
        is_inside
    }

    /// Sets the modify bit of the guest's entry of a page.
    pub fn mark(&mut self, va: u32)
        requires { StandsFor self.old.machine.memory self.old.shadow self.old.guest }
        ensures { StandsFor self.new.machine.memory self.new.shadow self.new.guest }
    {
        self.shadow
            .mark_modified(&mut self.machine, &self.guest, va);
    }

    /// What happens to a guest; whether it could.
    pub fn happen(&mut self, event: Event) -> bool
        requires { StandsFor self.old.machine.memory self.old.shadow self.old.guest }
        ensures { StandsFor self.new.machine.memory self.new.shadow self.new.guest }
    {
        match event {
            Event::Put(pa, long) => self.put(pa, long),
            Event::PutByte(pa, byte) => self.put_byte(pa, byte),
            Event::Mark(va) => {
                self.mark(va);
                true
            }
            Event::Grant(va) => self.grant(va),
            Event::Write(va, byte) => self.write(va, byte),
            Event::Load(registers) => self.load(&registers),
            Event::Touch(va) => self.touch(va),
        }
    }

    /// Longwords of the guest's memory, one after the other, that rise by one.
    pub fn put_rising(&mut self, pa: u32, count: u32, first: u32)
        requires { StandsFor self.old.machine.memory self.old.shadow self.old.guest }
        ensures { StandsFor self.new.machine.memory self.new.shadow self.new.guest }
    {
        for i in 0..count {
            let _ = self.put(pa.wrapping_add(i.wrapping_mul(4)), first.wrapping_add(i));
        }
    }

    /// A guest whose system table at 4000 and P0 table at 4200 map each of the 64 pages to the frame of its number, open to
    /// all and modified; its registers are those given.
    pub fn with_tables(alloc: Global, registers: &Registers) -> Result<Bench, NoMemory>
        ensures { IfOk result (λ b. StandsFor b.machine.memory b.shadow b.guest) }
    {
        let mut bench = Bench::new(alloc)?;
        bench.put_rising(0x4000, 64, 0xA400_0000);
        bench.put_rising(0x4200, 64, 0xA400_0000);
        let _ = bench.load(registers);
        Ok(bench)
    }
}

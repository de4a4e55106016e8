//! Who executes the guests' instructions: a machine that notes its runs.

use super::noting::{Files, PAGES, noted};
use std::alloc::Global;
use vax_cpu::Cpu;
use vax_hw::{Exit, Hardware, World};

/// INCL R0 and BRB 4 back, which is loaded and started at 200.
const UP: &[u8] = &[0xD6, 0x50, 0x11, 0xFC];

/// How many runs of the machine are noted.
const NOTES: usize = 64;

/// A run of the machine in which instructions retired: PC and R0 before it, and how many they were.
#[derive(Clone, Copy)]
struct Note {
    pc: u32,
    r0: u32,
    retired: u64,
}

/// A machine that notes its runs.
#[derive(Drop)]
struct Watched {
    machine: Cpu,
    notes: Vec<Note>,
}

impl Hardware for Watched {
    ghost machine = { λ w. w.machine };

    fn pages(&self) -> u32 {
        self.machine.pages()
    }

    fn retired(&self) -> u64 {
        self.machine.retired()
    }

    fn trail(&self) -> u64 {
        self.machine.trail()
    }

    fn misses(&self) -> u64 {
        self.machine.misses()
    }

    fn read_long(&self, pa: u32) -> u32 {
        self.machine.read_long(pa)
    }

    fn write_long(&mut self, pa: u32, v: u32) {
        self.machine.write_long(pa, v);
    }

    fn load_world(&mut self, w: &World) {
        self.machine.load_world(w);
    }

    fn save_world(&self) -> World {
        self.machine.save_world()
    }

    fn run(&mut self, budget: u32) -> Exit {
        let retired = self.machine.retired();
        let world = self.machine.save_world();
        let exit = self.machine.run(budget);
        let note = Note {
            pc: world.r[15],
            r0: world.r[0],
            retired: self.machine.retired().wrapping_sub(retired),
        };
        if note.retired > 0 && self.notes.len() < NOTES {
            let _ = self.notes.push(note);
        }
        exit
    }
}

/// The noted runs of the machine in a call that is done.
fn runs(alloc: Global, words: &str, files: Files) -> Option<Vec<Note>> {
    let mut watched = Watched {
        machine: Cpu::new(alloc, PAGES).ok()?,
        notes: Vec::with_capacity(alloc, NOTES).ok()?,
    };
    let (code, _) = noted(alloc, &mut watched, words, files, &[])?;
    let Watched { machine: _, notes } = watched;
    if code == 0 { Some(notes) } else { None }
}

/// Whether a run of the machine begins where its guest is after `before` instructions: an INCL and a BRB by turns.
fn goes_on(note: &Note, before: u64) -> bool {
    let pc = if before % 2 == 0 { 0x200 } else { 0x202 };
    note.pc == pc && u64::from(note.r0) == before.div_ceil(2)
}

/// How many instructions retired in all, if each run goes on where those before it ended.
fn retired_in(notes: &[Note]) -> Option<u64> {
    let mut before = 0u64;
    for note in notes {
        if !goes_on(note, before) {
            return None;
        }
        before = before.saturating_add(note.retired);
    }
    Some(before)
}

/// How many instructions retire in 42 steps of a guest.
fn retired(alloc: Global) -> Option<u64> {
    let notes = runs(alloc, "solo x 42", &[("x", UP)])?;
    retired_in(notes.as_slice())
}

#[test]
fn the_machine_executes_the_guest(rt: HostRuntime) {
    assert!(rt; retired(rt.alloc()) == Some(42));
}

/// Three guests of a thousand steps in a round, in slices of seven.
const THREE: &[u8] = b"version = 1\nquantum = 1000\nslice = 7
[[guest]]\nname = \"A\"\nclass = \"0{};0{}\"\npages = 64\nimage = \"x\"\nload = 512\nstart = 512\nautostart = true
[[guest]]\nname = \"B\"\nclass = \"0{};0{}\"\npages = 64\nimage = \"x\"\nload = 512\nstart = 512\nautostart = true
[[guest]]\nname = \"C\"\nclass = \"0{};0{}\"\npages = 64\nimage = \"x\"\nload = 512\nstart = 512\nautostart = true\n";

/// How many instructions the guest of a run has retired before it, where all three retired `all`, in slices of 7.
fn retired_before(all: u64) -> u64 {
    (all / 21).saturating_mul(7).saturating_add(all % 7)
}

/// Whether of 42 instructions each run goes on where its guest's runs before it ended, and ends with its slice.
fn are_sliced(notes: &[Note]) -> bool {
    let mut all = 0u64;
    for note in notes {
        if all < 42 {
            if !goes_on(note, retired_before(all)) || note.retired > 7 - all % 7 {
                return false;
            }
            all = all.saturating_add(note.retired);
        }
    }
    all >= 42
}

/// Whether the machine executes the three guests so.
fn slices_go_on(alloc: Global) -> Option<bool> {
    let files = [("c", THREE), ("s", b"".as_slice()), ("x", UP)];
    let notes = runs(alloc, "run c s 1", &files)?;
    Some(are_sliced(notes.as_slice()))
}

#[test]
fn the_machine_executes_the_guests_slice_by_slice(rt: HostRuntime) {
    assert!(rt; slices_go_on(rt.alloc()) == Some(true));
}

//! Scenes: what happens to a guest on a bench, line by line, and what is seen of it.

ghost use Rattle.vm_shadow.specs.StandsFor.{StandsFor};

use crate::{Bench, Event, NoPlace, Registers};
use std::alloc::Global;
use std::process::Abort;
use vv_base::NoMemory;

/// A line of a scene.
#[derive(Clone, Copy)]
pub enum Line {
    /// An event happens, or it can't.
    Happens(Event),
    Fails(Event),
    /// An event happens, or it can't. The machine agrees with the guest's tables then, and again with all pages filled.
    Follows(Event, bool),
    /// Longwords of the guest's memory are put: the place of the first, how many, and the first, which rise by one.
    Rises(u32, u32, u32),
    /// All pages that are compared and have frames are filled; their number.
    Fills(u32),
    /// The machine has this frame for an address's page, or none for this reason.
    Frame(u32, Result<u32, NoPlace>),
    /// The machine may write an address's page without an exit, or not.
    Open(u32, bool),
    /// A longword of the guest's memory.
    Long(u32, u32),
    /// The machine agrees with the guest's tables, as it is or where all pages are filled.
    Agrees(bool),
}

impl Bench {
    /// A line; whether it holds.
    fn holds(&mut self, line: Line) -> bool
        requires { StandsFor self.old.machine.memory self.old.shadow self.old.guest }
        ensures { StandsFor self.new.machine.memory self.new.shadow self.new.guest }
    {
        match line {
            Line::Happens(event) => self.happen(event),
            Line::Fails(event) => !self.happen(event),
            Line::Follows(event, happens) => self.follow(event) == Some(happens),
            Line::Rises(pa, count, first) => {
                self.put_rising(pa, count, first);
                true
            }
            Line::Fills(count) => self.touch_all() == count,
            Line::Frame(va, frame) => self.real_frame(va) == frame,
            Line::Open(va, is_open) => self.is_open(va) == is_open,
            Line::Long(pa, long) => self.guest_long(pa) == long,
            Line::Agrees(is_filled) => self.agrees(is_filled),
        }
    }

    /// All lines of a scene hold.
    pub fn play(&mut self, rt: &impl Abort, scene: usize, lines: &[Line])
        requires { StandsFor self.old.machine.memory self.old.shadow self.old.guest }
        ensures { StandsFor self.new.machine.memory self.new.shadow self.new.guest }
    {
        for (number, line) in lines.iter().enumerate() {
            let holds = self.holds(*line);
            assert!(rt; holds, "scene {scene}, line {number}");
        }
    }
}

/// A scene of its own, from registers on.
pub fn play(
    rt: &impl Abort,
    alloc: Global,
    scene: usize,
    registers: &Registers,
    lines: &[Line],
) -> Result<(), NoMemory> {
    let mut bench = Bench::with_tables(alloc, registers)?;
    bench.play(rt, scene, lines);
    Ok(())
}

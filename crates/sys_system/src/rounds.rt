ghost use Rattle.std.specs.Prelude.{◌≡◌, ◌<◌, ◌+◌, All, false, length, map};
ghost use Rattle.sys_system.specs.Calls.{AreOf, MakesRound};
ghost use Rattle.sys_system.specs.System.{IsInMachine, IsSystem, slice_of_time};
ghost use Rattle.sys_state.specs.Slices.{AreQuanta};

use crate::system::System;
use sys_guests::TimeSlice;
use sys_script::Event;
use vax_hw::Hardware;
use vv_io::Lines;

impl System {
    /// Makes a round with these events, by slices of the guests in turn.
    pub fn make_round<H: Hardware, L: Lines>(
        &mut self,
        machine: &mut H,
        lines: &mut L,
        events: &[Event],
    )
        requires rests { self.old.turns.is_begun ≡ false }
        requires few { self.old.rounds < 4000000000 }
        requires stands { IsInMachine (H.machine machine.old).memory self.old }
        requires events { AreOf (self.old.rounds + 1) events.now }
        ensures makes { MakesRound events.now (H.machine machine.old) self.old (L.lines lines.old) (H.machine machine.new) self.new (L.lines lines.new) }
        ensures holds { IsSystem self.new }
    {
        self.begin_round(machine, lines, events);
        while let Some(one) = self.next() {
            self.slice(machine, lines, one.guest, one.steps);
        }
        self.end_round(machine, lines);
    }

    /// Makes a round with these events, by slices in any order, in which each guest takes its quantum.
    pub fn take_slices<H: Hardware, L: Lines>(
        &mut self,
        machine: &mut H,
        lines: &mut L,
        events: &[Event],
        slices: &[TimeSlice],
    )
        requires rests { self.old.turns.is_begun ≡ false }
        requires few { self.old.rounds < 4000000000 }
        requires stands { IsInMachine (H.machine machine.old).memory self.old }
        requires events { AreOf (self.old.rounds + 1) events.now }
        requires there { All (λ slice. slice.guest < length self.old.guests) slices.now }
        requires quanta { AreQuanta (map slice_of_time slices.now) 0 self.old.config.guests }
        ensures makes { MakesRound events.now (H.machine machine.old) self.old (L.lines lines.old) (H.machine machine.new) self.new (L.lines lines.new) }
        ensures holds { IsSystem self.new }
    {
        self.begin_round(machine, lines, events);
        for one in slices {
            self.slice(machine, lines, one.guest, one.steps);
        }
        self.end_round(machine, lines);
    }
}

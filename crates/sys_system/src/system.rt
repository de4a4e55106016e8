ghost use Rattle.std.specs.Prelude.{◌≡◌, ◌<◌, ◌+◌, All, false, map, option_map, vec_len};
ghost use Rattle.sys_devices.specs.Rows.{FitsDrive};
ghost use Rattle.sys_guests.specs.Layout.{guests_in};
ghost use Rattle.sys_guests.specs.Present.{KeepsAll, PaysAll};
ghost use Rattle.sys_state.specs.FirstTouches.{touches_of_events, touches_of_transfers};
ghost use Rattle.sys_state.specs.SlicedTouches.{touches_of_slice};
ghost use Rattle.sys_system.specs.Calls.{BeginsRound, CanTake, EndsRound, PowersDown, ShowsDumps, TakesSlice};
ghost use Rattle.sys_system.specs.Devices.{first_failed};
ghost use Rattle.sys_system.specs.System.{IsSystem, NoneLeft, IsInMachine, next_slice, system_state, slice_of_time};

use crate::counting::add;
use crate::parts::{Parts, first_drive, store};
use std::marker::Model;
use sys_devices::{Device, first_marked, show_each};
use sys_events::{console_of, happen};
use sys_guests::{TimeSlice, advance_at};
use sys_output::dump_all;
use sys_script::Event;
use sys_transfers::transfer;
use vax_hw::Hardware;
use vm_guest::Counts;
use vv_io::{Drive, Lines};

/// Several guests on the one machine, with their terminals, printers, volumes and server.
#[derive(Drop)]
pub struct System {
    pub(crate) parts: Parts,
}

impl Model for System {
    ghost use Rattle.sys_system.specs.System.{System};

    ghost Value = { System };

    ghost use Rattle.sys_system.specs.Held.{HasSystemParts, inside_system};

    ghost view = { inside_system };

    ghost invariant = { HasSystemParts };
}

impl System {
    /// The next slice of the round: at most a slice of the steps that the next guest has left. Guests with steps left follow in
    /// the configuration's order, after the one that was sliced last and round again; a round begins with the first guest. None
    /// where no guest has steps left, or no round is begun.
    pub fn next(&self) -> Option<TimeSlice>
        ensures { option_map slice_of_time result ≡ next_slice self.now.config.slice self.now.turns }
    {
        self.parts.turns.next(self.parts.kernel.config.slice)
    }

    /// Begins a round, of which these are the events; fewer than 4,000,000,000 were begun before.
    pub fn begin_round<H: Hardware, L: Lines>(
        &mut self,
        machine: &mut H,
        lines: &mut L,
        events: &[Event],
    )
        requires rests { self.old.turns.is_begun ≡ false }
        requires few { self.old.rounds < 4000000000 }
        requires stands { IsInMachine (H.machine machine.old).memory self.old }
        ensures begins { BeginsRound events.now (H.machine machine.old) self.old (L.lines lines.old) (H.machine machine.new) self.new (L.lines lines.new) }
        ensures present { KeepsAll (touches_of_events self.old.config (self.old.rounds + 1)
            (system_state (H.machine machine.old).memory self.old) events.now) self.old.guests self.new.guests }
        ensures holds { IsSystem self.new }
    {
        let s = &mut self.parts;
        s.turns.begin(s.kernel.config.guests.as_slice());
        s.rounds += 1;
        happen(machine, lines, &mut s.kernel, s.rounds, events);
    }

    /// A slice of a round: the guest takes `steps` of the steps that it has left, and its terminal's line is shown what they
    /// show. It takes no memory, and no fault of a line is answered: it is kept as a mark.
    pub fn slice<H: Hardware, L: Lines>(
        &mut self,
        machine: &mut H,
        lines: &mut L,
        guest: u8,
        steps: u32,
    )
        requires can { CanTake self.old (record { guest = guest; steps = steps }) }
        requires stands { IsInMachine (H.machine machine.old).memory self.old }
        ensures takes { TakesSlice (record { guest = guest; steps = steps }) (H.machine machine.old) self.old
            (L.lines lines.old) (H.machine machine.new) self.new (L.lines lines.new) }
        ensures pays { PaysAll (touches_of_slice (record { guest = guest; steps = steps })
            (guests_in (H.machine machine.old).memory self.old.guests)) (H.machine machine.old) self.old.guests
            (H.machine machine.new) self.new.guests }
        ensures holds { IsSystem self.new }
    {
        let s = &mut self.parts;
        let slice = TimeSlice { guest, steps };
        s.turns.take(slice);
        let kernel = &mut s.kernel;
        let counts = advance_at(machine, &mut kernel.port, &mut kernel.guests, slice);
        add(&mut s.counts, &counts);
        let terminals = kernel.config.terminals.as_slice();
        let console = console_of(terminals, &kernel.server.at, guest);
        show_each(&mut kernel.marks, lines, console, kernel.port.bytes());
    }

    /// Ends a round in which no guest has steps left: the transfers that the guests ask for are made.
    pub fn end_round<H: Hardware, L: Lines>(&mut self, machine: &mut H, lines: &mut L)
        requires none { NoneLeft self.old.turns.left }
        requires stands { IsInMachine (H.machine machine.old).memory self.old }
        ensures ends { EndsRound (H.machine machine.old) self.old (L.lines lines.old) (H.machine machine.new) self.new (L.lines lines.new) }
        ensures present { KeepsAll (touches_of_transfers self.old.config self.old.config.guests self.old.mounts
            (guests_in (H.machine machine.old).memory self.old.guests) self.old.volumes) self.old.guests
            self.new.guests }
        ensures holds { IsSystem self.new }
    {
        let s = &mut self.parts;
        transfer(machine, lines, &mut s.kernel, &mut s.volumes);
        s.turns.end();
    }

    /// The steps of all slices since the system was made, by their kinds.
    pub fn counts(&self) -> Counts
        ensures { result ≡ self.now.counts }
    {
        self.parts.counts
    }

    /// How many rounds were begun since power-up.
    pub fn rounds(&self) -> u32
        ensures { result ≡ self.now.rounds }
    {
        self.parts.rounds
    }

    /// The first line that is marked as failed, or else the first drive.
    pub fn failed(&self) -> Option<Device>
        ensures { result ≡ first_failed self.now.marks self.now.drives }
    {
        match first_marked(&self.parts.kernel.marks) {
            Some(line) => Some(Device::Line(line)),
            None => first_drive(&self.parts.drives).map(|drive| Device::Drive(drive)),
        }
    }

    /// Shows the dumps of all guests that have one, each on its line, in order.
    pub fn show_dumps<H: Hardware, L: Lines>(&mut self, machine: &H, lines: &mut L)
        requires { IsInMachine (H.machine machine.now).memory self.old }
        ensures { ShowsDumps (H.machine machine.now) self.old (L.lines lines.old) self.new (L.lines lines.new) }
    {
        let kernel = &mut self.parts.kernel;
        let rows = kernel.config.guests.as_slice();
        dump_all(machine, rows, &kernel.guests, &mut kernel.marks, lines);
    }

    /// Ends a run, while no round is begun: shows the dumps of all guests that have one, and then stores every block of
    /// every volume to its drive, in order. A device that fails is marked and gets no more.
    pub fn power_down<H: Hardware, L: Lines>(
        &mut self,
        machine: &H,
        lines: &mut L,
        drives: &mut Vec<Box<dyn Drive>>,
    )
        requires stands { IsInMachine (H.machine machine.now).memory self.old }
        requires drives { vec_len drives.old ≡ 16 }
        requires fit { All (FitsDrive (map (λ d. kept d) drives.old.items)) self.old.config.volumes }
        ensures ends { PowersDown (H.machine machine.now) self.old (L.lines lines.old)
            (map (λ d. kept d) drives.old.items) self.new (L.lines lines.new) (map (λ d. kept d) drives.new.items) }
        ensures drives_len { vec_len drives.new ≡ vec_len drives.old }
    {
        self.show_dumps(machine, lines);
        store(&mut self.parts, drives);
    }
}

ghost use Rattle.std.specs.Prelude.{◌≡◌, ◌<◌, IfSome, Some, length, slice_get};
ghost use Rattle.sys_guests.specs.Layout.{guests_in};
ghost use Rattle.sys_guests.specs.Present.{PaysAll};
ghost use Rattle.sys_state.specs.SlicedTouches.{touches_of_slice};
ghost use Rattle.sys_system.specs.Calls.{CanTake, TakesSlice};
ghost use Rattle.sys_system.specs.System.{IsInMachine, IsSystem};
ghost use Rattle.sys_system.specs.Watched.{DescribesStep};

use crate::counting::add;
use crate::system::System;
use sys_devices::show_each;
use sys_events::console_of;
use sys_guests::{TimeSlice, step_at};
use vax_hw::Hardware;
use vm_guest::{Counts, Guest, Note};
use vv_base::Text;
use vv_io::Lines;

/// What a step was: how many of each kind, which is one in all; its note; and the bytes that it showed.
#[derive(Drop)]
pub struct Watched {
    pub counts: Counts,
    pub note: Note,
    pub shown: Text<14>,
}

impl System {
    /// The guest at a place.
    pub fn guest(&self, place: u8) -> &Guest
        requires { place < length self.now.guests }
        ensures { slice_get self.now.guests place ≡ Some result.now }
    {
        &self.parts.kernel.guests[place as usize]
    }

    /// A slice of one step, with what the step was.
    pub fn step<H: Hardware, L: Lines>(
        &mut self,
        machine: &mut H,
        lines: &mut L,
        guest: u8,
    ) -> Watched
        requires can { CanTake self.old (record { guest = guest; steps = 1 }) }
        requires stands { IsInMachine (H.machine machine.old).memory self.old }
        ensures takes { TakesSlice (record { guest = guest; steps = 1 }) (H.machine machine.old) self.old
            (L.lines lines.old) (H.machine machine.new) self.new (L.lines lines.new) }
        ensures pays { PaysAll (touches_of_slice (record { guest = guest; steps = 1 })
            (guests_in (H.machine machine.old).memory self.old.guests)) (H.machine machine.old) self.old.guests
            (H.machine machine.new) self.new.guests }
        ensures tells { IfSome (slice_get (guests_in (H.machine machine.old).memory self.old.guests) guest) (λ g. DescribesStep g result) }
        ensures holds { IsSystem self.new }
    {
        let s = &mut self.parts;
        s.turns.take(TimeSlice { guest, steps: 1 });
        let kernel = &mut s.kernel;
        let once = step_at(machine, &mut kernel.port, &mut kernel.guests, guest);
        add(&mut s.counts, &once.counts);
        let terminals = kernel.config.terminals.as_slice();
        let console = console_of(terminals, &kernel.server.at, guest);
        show_each(&mut kernel.marks, lines, console, kernel.port.bytes());
        let mut shown = Text::new();
        shown.append(kernel.port.bytes());
        Watched {
            counts: once.counts,
            note: once.note,
            shown,
        }
    }
}

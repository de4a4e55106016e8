ghost use Rattle.std.specs.Prelude.{◌≡◌, ◌≤◌, ◌<◌, All, IfSome, Some, slice_get, vec_len};
ghost use Rattle.sys_guests.specs.Changes.{AdvancesOne, StartsOne, StopShows, TakesStateAt};
ghost use Rattle.sys_guests.specs.Layout.{guests_in};
ghost use Rattle.sys_guests.specs.Present.{KeepsAll, PaysAll};
ghost use Rattle.sys_state.specs.FirstTouches.{with_reset};
ghost use Rattle.sys_state.specs.Guests.{stopped_by_command, typed};
ghost use Rattle.sys_state.specs.SlicedTouches.{touches_of_slice};
ghost use Rattle.vm_exception.specs.Noted.{note_of};
ghost use Rattle.vm_guest.specs.Kept.{IsShadowedIn};

use crate::kernel::MOST_SHOWN;
use vax_hw::Hardware;
use vm_console::KeptPort;
use vm_guest::{Counts, Guest, Once};

/// A slice of a guest's turn: the guest's place, and how many steps it takes.
#[derive(Clone, Copy, Debug, PartialEq, Eq)]
pub struct TimeSlice {
    pub guest: u8,
    pub steps: u32,
}

/// A guest takes a slice of its turn, and what it shows is kept.
pub fn advance_at<H: Hardware>(
    machine: &mut H,
    port: &mut KeptPort<MOST_SHOWN>,
    guests: &mut Vec<Guest>,
    slice: TimeSlice,
) -> Counts
    requires there { slice.guest < vec_len guests.old }
    requires few { slice.steps ≤ 100000 }
    requires stand { All (λ k. IsShadowedIn (H.machine machine.old).memory k) guests.old.items }
    ensures advances { AdvancesOne (record { guest = slice.guest; steps = slice.steps })
        (H.machine machine.old) guests.old.items (H.machine machine.new) guests.new.items port.new.bytes result }
    ensures pays { PaysAll (touches_of_slice (record { guest = slice.guest; steps = slice.steps })
        (guests_in (H.machine machine.old).memory guests.old.items)) (H.machine machine.old) guests.old.items
        (H.machine machine.new) guests.new.items }
{
    port.clear();
    let guest = &mut guests[slice.guest as usize];
    guest.advance(machine, port, slice.steps)
}

/// A guest takes one step of its turn, and what it shows is kept; the step's note is answered besides.
pub fn step_at<H: Hardware>(
    machine: &mut H,
    port: &mut KeptPort<MOST_SHOWN>,
    guests: &mut Vec<Guest>,
    place: u8,
) -> Once
    requires there { place < vec_len guests.old }
    requires stand { All (λ k. IsShadowedIn (H.machine machine.old).memory k) guests.old.items }
    ensures advances { AdvancesOne (record { guest = place; steps = 1 }) (H.machine machine.old) guests.old.items
        (H.machine machine.new) guests.new.items port.new.bytes result.counts }
    ensures pays { PaysAll (touches_of_slice (record { guest = place; steps = 1 })
        (guests_in (H.machine machine.old).memory guests.old.items)) (H.machine machine.old) guests.old.items
        (H.machine machine.new) guests.new.items }
    ensures note { IfSome (slice_get (guests_in (H.machine machine.old).memory guests.old.items) place) (λ g. result.note ≡ note_of g) }
{
    port.clear();
    let guest = &mut guests[place as usize];
    guest.step(machine, port)
}

/// A guest starts.
pub fn start_at<H: Hardware>(machine: &mut H, guests: &mut Vec<Guest>, place: u8)
    requires there { place < vec_len guests.old }
    requires stand { All (λ k. IsShadowedIn (H.machine machine.old).memory k) guests.old.items }
    ensures starts { StartsOne place (H.machine machine.old) guests.old.items (H.machine machine.new) guests.new.items }
    ensures rest { H.machine machine.new ≡ record (H.machine machine.old) { memory = (H.machine machine.new).memory } }
    ensures present { KeepsAll (with_reset (Some place) (guests_in (H.machine machine.new).memory guests.new.items)) guests.old.items guests.new.items }
{
    let guest = &mut guests[place as usize];
    guest.start(machine);
}

/// A guest is stopped, if it runs, and what it shows is kept.
pub fn stop_at(port: &mut KeptPort<MOST_SHOWN>, guests: &mut Vec<Guest>, place: u8)
    requires there { place < vec_len guests.old }
    ensures turns { TakesStateAt place stopped_by_command guests.old.items guests.new.items }
    ensures shown { StopShows place guests.old.items port.new.bytes }
    ensures present { KeepsAll (λ ts. ts) guests.old.items guests.new.items }
{
    port.clear();
    let guest = &mut guests[place as usize];
    guest.stop(port);
}

/// A line is typed to a guest.
pub fn type_at(guests: &mut Vec<Guest>, place: u8, text: &[u8])
    requires there { place < vec_len guests.old }
    ensures turns { TakesStateAt place (typed text.now) guests.old.items guests.new.items }
    ensures present { KeepsAll (λ ts. ts) guests.old.items guests.new.items }
{
    let guest = &mut guests[place as usize];
    guest.type_line(text);
}

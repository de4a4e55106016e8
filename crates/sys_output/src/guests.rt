ghost use Rattle.std.specs.Prelude.{◌*◌, All, IfOk, flat_map, is_err};
ghost use Rattle.sys_guests.specs.Layout.{guests_in};
ghost use Rattle.sys_devices.specs.ShownSince.{ShownSince};
ghost use Rattle.sys_snap.specs.Snap.{IsSound};
ghost use Rattle.sys_snap.specs.Written.{guest_bytes};
ghost use Rattle.vm_guest.specs.Kept.{IsShadowedIn, guest_in};
ghost use Rattle.vm_state.specs.State.{state_of};

use crate::head::put;
use sys_snap::guest_record;
use vax_hw::Hardware;
use vm_guest::Guest;
use vv_io::{Sink, SinkFault};

/// Shows a guest's memory, page by page.
fn put_memory<H: Hardware, O: Sink>(
    machine: &H,
    out: &mut O,
    guest: &Guest,
) -> Result<(), SinkFault>
    requires { IsShadowedIn (H.machine machine.now).memory guest.now }
    ensures { ShownSince (is_err result) (O.printed out.old) (O.printed out.new) (guest_in (H.machine machine.now).memory guest.now).memory }
{
    let pages = guest.state().pages;
    let mut page = [0; 512];
    for number in 0..pages {
        guest.fetch_into(machine, 512 * number, &mut page);
        put(out, &page)?;
    }
    Ok(())
}

/// Shows a guest: its record and its memory.
fn put_guest<H: Hardware, O: Sink>(machine: &H, out: &mut O, guest: &Guest) -> Result<(), SinkFault>
    requires { IsShadowedIn (H.machine machine.now).memory guest.now }
    ensures shown { ShownSince (is_err result) (O.printed out.old) (O.printed out.new) (guest_bytes (guest_in (H.machine machine.now).memory guest.now)) }
    ensures sound { IsSound (state_of guest.now.state) }
{
    put(out, &guest_record(guest.state()))?;
    put_memory(machine, out, guest)
}

/// Shows the guests, each with its record and its memory. Where all were shown, each is known to be sound.
pub fn put_guests<H: Hardware, O: Sink>(
    machine: &H,
    out: &mut O,
    guests: &[Guest],
) -> Result<(), SinkFault>
    requires { All (λ k. IsShadowedIn (H.machine machine.now).memory k) guests.now }
    ensures shown { ShownSince (is_err result) (O.printed out.old) (O.printed out.new)
        (flat_map guest_bytes (guests_in (H.machine machine.now).memory guests.now)) }
    ensures sound { IfOk result (λ _. All (λ k. IsSound (state_of k.state)) guests.now) }
{
    for guest in guests {
        put_guest(machine, out, guest)?;
    }
    Ok(())
}

ghost use Rattle.std.specs.Prelude.{◌≡◌, ◌≤◌, ◌<◌, All, None, drop, flat_map, is_err, take};
ghost use Rattle.sys_devices.specs.ShownSince.{ShownSince};
ghost use Rattle.sys_output.specs.Parts.{unit_bytes};
ghost use Rattle.sys_snap.specs.Written.{mount_bytes, place_byte, seat_bytes};

use crate::head::put;
use sys_objects::Mount;
use vv_io::{Sink, SinkFault};

/// In place of a guest or of a volume: none.
const NONE: u8 = 0xff;

/// The byte of a terminal: its guest's place, or FF.
fn seat_byte(seat: Option<u8>) -> u8
    ensures { result ≡ place_byte seat }
{
    seat.unwrap_or(NONE)
}

/// Shows which guest each of the first `terminals` terminals is connected to: 32 bytes, FF where there is none.
pub fn put_seats<O: Sink>(
    out: &mut O,
    at: &[Option<u8>; 32],
    terminals: usize,
) -> Result<(), SinkFault>
    requires few { terminals ≤ 32 }
    requires beyond { All (λ o. o ≡ None) (drop terminals at.now) }
    ensures { ShownSince (is_err result) (O.printed out.old) (O.printed out.new) (seat_bytes (take terminals at.now)) }
{
    for seat in at {
        put(out, &[seat_byte(*seat)])?;
    }
    Ok(())
}

/// The pair of bytes of a unit: the volume and whether it may be written, or FF and 0.
fn pair_of(mount: &Option<Mount>) -> [u8; 2]
    ensures { result ≡ mount_bytes mount.now }
{
    match mount {
        None => [NONE, 0],
        Some(mount) => [mount.volume, u8::from(mount.write)],
    }
}

/// Shows what is mounted at a guest's units, a pair of bytes for each.
fn put_units<O: Sink>(out: &mut O, units: &[Option<Mount>; 4]) -> Result<(), SinkFault>
    ensures { ShownSince (is_err result) (O.printed out.old) (O.printed out.new) (unit_bytes units.now) }
{
    for mount in units {
        put(out, &pair_of(mount))?;
    }
    Ok(())
}

/// Shows what is mounted at each guest's units.
pub fn put_mounts<O: Sink>(out: &mut O, mounts: &[[Option<Mount>; 4]]) -> Result<(), SinkFault>
    ensures { ShownSince (is_err result) (O.printed out.old) (O.printed out.new) (flat_map unit_bytes mounts.now) }
{
    for units in mounts {
        put_units(out, units)?;
    }
    Ok(())
}

ghost use Rattle.std.specs.Prelude.{◌≡◌, ◌++◌, ◌-◌, ◌==◌, ◌≤◌, All, IfOk, None, drop, length, map, replicate, take};
ghost use Rattle.std.specs.List.{list_all, list_any};
ghost use Rattle.sys_objects.specs.Rules.{same_place};
ghost use Rattle.sys_snap.specs.Conditions.{may_all_sit, may_sit};
ghost use Rattle.sys_snap.specs.Reader.{seated_guest, seats_in};
ghost use Rattle.sys_snap.specs.Reading.{field};
ghost use Rattle.sys_snap.specs.Reads.{ReadsSeen};

use crate::cursor::Cursor;
use crate::fault::SnapFault;
use sys_objects::{Config, GuestRow, Terminal, same_class};

/// The byte of a place that no guest has.
const NO_GUEST: u8 = 0xff;

/// Whether a terminal's guest, if it has one, is of its class.
fn may_sit(rows: &[GuestRow], terminal: &Terminal, seat: Option<u8>) -> bool
    ensures { result ≡ may_sit rows.now terminal.now seat }
{
    match seat {
        Some(guest) => match rows.get(usize::from(guest)) {
            Some(row) => same_class(&row.class, &terminal.class),
            None => false,
        },
        None => true,
    }
}

fn same_place(a: Option<u8>, b: Option<u8>) -> bool
    ensures { result ≡ same_place a b }
{
    match (a, b) {
        (Some(j), Some(k)) => j == k,
        _ => false,
    }
}

fn is_among(seat: Option<u8>, seats: &[Option<u8>]) -> bool
    ensures { result ≡ list_any (same_place seat) seats.now }
{
    seats.iter().any(|other| same_place(seat, *other))
}

/// Whether each terminal's guest is of its class, and none occurs twice.
fn may_all_sit(rows: &[GuestRow], terminals: &[Terminal], seats: &[Option<u8>]) -> bool
    requires { length seats.now ≡ length terminals.now }
    ensures { result ≡ may_all_sit rows.now terminals.now seats.now }
{
    for (i, terminal) in terminals.iter().enumerate() {
        if !may_sit(rows, terminal, seats[i]) || is_among(seats[i], &seats[i + 1..]) {
            return false;
        }
    }
    true
}

fn seat_of(byte: u8) -> Option<u8>
    ensures { result ≡ seated_guest byte }
{
    if byte == NO_GUEST { None } else { Some(byte) }
}

/// The guests in the first places, and none beyond.
fn seats_of(bytes: &[u8]) -> [Option<u8>; 32]
    requires { length bytes.now ≤ 32 }
    ensures { result ≡ map seated_guest bytes.now ++ replicate (32 - length bytes.now) None }
{
    let mut seats = [None; 32];
    for (i, byte) in bytes.iter().enumerate() {
        seats[i] = seat_of(*byte);
    }
    seats
}

fn are_empty(bytes: &[u8]) -> bool
    ensures { result ≡ list_all (λ b. b == 255) bytes.now }
{
    bytes.iter().all(|b| *b == NO_GUEST)
}

/// By terminal its guest, 32 bytes.
pub fn read_seats(r: &mut Cursor, c: &Config) -> Result<[Option<u8>; 32], SnapFault>
    requires { length c.now.terminals ≤ 32 }
    ensures reads { ReadsSeen (λ at. take (length c.now.terminals) at) (field 32 (seats_in c.now)) r.old r.new result }
    ensures len { IfOk result (λ at. length at ≡ 32) }
    ensures beyond { IfOk result (λ at. All (λ o. o ≡ None) (drop (length c.now.terminals) at)) }
{
    let place = r.place();
    let count = c.terminals.len();
    let (own, empty) = r.cut(32)?.split_at(count);
    let seats = seats_of(own);
    if !may_all_sit(c.guests.as_slice(), c.terminals.as_slice(), &seats[..count])
        || !are_empty(empty)
    {
        return Err(SnapFault { place });
    }
    Ok(seats)
}

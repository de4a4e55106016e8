ghost use Rattle.std.specs.Prelude.{◌≡◌, IfSome, IsTrue, map};
ghost use Rattle.sys_state.specs.Slices.{AreQuanta, total};
ghost use Rattle.sys_system.specs.System.{slice_of_time};

use std::alloc::Global;
use sys_objects::GuestRow;
use sys_system::TimeSlice;

/// How often the guests may come round in a round.
const ROTATIONS: u32 = 10_000;

/// How many steps a guest takes in all of these slices, if 64 bits hold the number.
fn steps_of(slices: &[TimeSlice], guest: u8) -> Option<u64>
    ensures { IfSome result (λ n. n ≡ total (map slice_of_time slices.now) guest) }
{
    match slices {
        [] => Some(0),
        [slice, rest @ ..] => {
            let steps = steps_of(rest, guest)?;
            if guest == slice.guest {
                u64::from(slice.steps).checked_add(steps)
            } else {
                Some(steps)
            }
        }
    }
}

/// Whether the guests from a place on take their quanta in these slices.
pub fn are_quanta(slices: &[TimeSlice], guest: u8, rows: &[GuestRow]) -> bool
    ensures { IsTrue result → AreQuanta (map slice_of_time slices.now) guest rows.now }
{
    match rows {
        [] => true,
        [row, rest @ ..] => {
            guest < 16
                && steps_of(slices, guest) == Some(u64::from(row.quantum))
                && are_quanta(slices, guest + 1, rest)
        }
    }
}

/// The slice of a guest in a rotation, in which it takes at most `most` steps; none where its quantum is taken before.
fn slice_in(rows: &[GuestRow], rotation: u32, guest: u8, most: u32) -> Option<TimeSlice> {
    let row = rows.get(guest as usize)?;
    let left = row.quantum.saturating_sub(rotation.saturating_mul(most));
    if left > 0 {
        Some(TimeSlice {
            guest,
            steps: left.min(most),
        })
    } else {
        None
    }
}

/// The slices of one rotation, in this order, after others; whether there are any.
fn push_rotation(
    slices: &mut Vec<TimeSlice>,
    rows: &[GuestRow],
    order: &[(u8, u32)],
    rotation: u32,
) -> Option<bool> {
    let before = slices.len();
    for (guest, most) in order {
        if let Some(slice) = slice_in(rows, rotation, *guest, *most) {
            slices.push(slice).ok()?;
        }
    }
    Some(slices.len() != before)
}

/// The slices of a round: rotations in this order, in which each guest takes at most the number of steps beside it.
pub fn rotations(alloc: Global, rows: &[GuestRow], order: &[(u8, u32)]) -> Option<Vec<TimeSlice>> {
    let mut slices = Vec::new(alloc);
    for rotation in 0..ROTATIONS {
        if !push_rotation(&mut slices, rows, order, rotation)? {
            break;
        }
    }
    Some(slices)
}

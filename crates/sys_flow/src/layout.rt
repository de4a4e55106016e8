ghost use Rattle.std.specs.Prelude.{◌≡◌, ◌≤◌, ◌+◌, ◌*◌, ◌==◌, ◌&&◌, nat_lt, max, IfOk, length, map};
ghost use Rattle.vv_class.specs.Text.{class_text};
ghost use Rattle.sys_flow.specs.Layout.{column, greatest, letters, row, spot};

use crate::seats::Seat;
use std::alloc::Global;
use vv_base::NoMemory;
use vv_class::{AccessClass, write_class};

/// The left upper corner of a box, in pixels from that of the picture.
#[derive(Clone, Copy)]
pub struct Spot {
    pub x: u32,
    pub y: u32,
}

/// The most letters of a class.
fn most_letters(classes: &[AccessClass]) -> u32
    ensures few { result ≤ 400 }
    ensures value { result ≡ greatest (map (λ class. length (class_text class)) classes.now) }
{
    let mut most: usize = 0;
    for class in classes {
        most = most.max(write_class(class).bytes().len());
    }
    most as u32
}

/// The most letters in a line of a box.
pub fn letters(classes: &[AccessClass]) -> u32
    ensures least { 8 ≤ result }
    ensures few { result ≤ 400 }
    ensures value { result ≡ max 8 (greatest (map (λ class. length (class_text class)) classes.now)) }
{
    most_letters(classes).max(8)
}

fn column(seats: &[Seat], s: &Seat) -> usize
    ensures within { result ≤ length seats.now }
    ensures value { result ≡ column seats.now s.now }
{
    seats
        .iter()
        .filter(|t| t.height == s.height && t.order < s.order)
        .count()
}

fn is_first_above(seats: &[Seat], s: &Seat, t: &Seat) -> bool
    ensures { result ≡ (nat_lt s.now.height t.now.height && column seats.now t.now == 0) }
{
    s.height < t.height && column(seats, t) == 0
}

fn row(seats: &[Seat], s: &Seat) -> usize
    ensures within { result ≤ length seats.now }
    ensures value { result ≡ row seats.now s.now }
{
    seats.iter().filter(|t| is_first_above(seats, s, t)).count()
}

fn spot_of(letters: u32, seats: &[Seat], s: &Seat) -> Spot
    requires letters { letters ≤ 400 }
    requires seats { length seats.now ≤ 97 }
    ensures { result ≡ spot letters seats.now s.now }
{
    let shift = 3 * (3 - s.height % 4);
    let quarters = 4 * column(seats, s) as u32 + shift;
    Spot {
        x: 10 + quarters * (2 * letters + 8),
        y: 10 + 96 * row(seats, s) as u32,
    }
}

/// The spots of all objects.
pub fn spots(alloc: Global, letters: u32, seats: &[Seat]) -> Result<Vec<Spot>, NoMemory>
    requires letters { letters ≤ 400 }
    requires seats { length seats.now ≤ 97 }
    ensures { IfOk result (λ v. v.items ≡ map (spot letters seats.now) seats.now) }
{
    let mut spots = Vec::new(alloc);
    for s in seats {
        spots.push(spot_of(letters, seats, s))?;
    }
    Ok(spots)
}

/// The greatest distance of a spot from the left.
pub fn rightmost(spots: &[Spot]) -> u32
    ensures { result ≡ greatest (map (λ s. s.x) spots.now) }
{
    let mut most = 0;
    for s in spots {
        most = s.x.max(most);
    }
    most
}

/// And from the top.
pub fn undermost(spots: &[Spot]) -> u32
    ensures { result ≡ greatest (map (λ s. s.y) spots.now) }
{
    let mut most = 0;
    for s in spots {
        most = s.y.max(most);
    }
    most
}

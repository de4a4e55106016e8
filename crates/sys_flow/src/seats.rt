ghost use Rattle.std.specs.Prelude.{◌≡◌, ◌<◌, ◌≤◌, IfOk, IfSome, length, position};
ghost use Rattle.sys_flow.specs.Seats.{class_rank, classes_of, first_of_class, object_class, object_class_at, order_in_rank, order_in_rank_at, seat_of, seats_of};
ghost use Rattle.sys_flow.specs.Objects.{object_of};
ghost use Rattle.sys_objects.specs.Condition.{IsConfig};
ghost use Rattle.sys_objects.specs.Rules.{same_class};

use crate::objects::{Place, count, object_at};
use std::alloc::Global;
use sys_objects::{Config, same_class};
use vv_base::NoMemory;
use vv_class::AccessClass;

/// How high an object is, and in what order among those of its height.
#[derive(Clone, Copy)]
pub struct Seat {
    pub height: u32,
    pub order: u32,
}

const NO_CLASS: AccessClass = AccessClass {
    secrecy: 0,
    secrecy_cats: 0,
    integrity: 0,
    integrity_cats: 0,
};

fn class_in(c: &Config, place: Place) -> AccessClass
    ensures { result ≡ object_class c.now (object_of place) }
{
    match place {
        Place::Terminal(t) => match c.terminals.as_slice().get(t) {
            Some(row) => row.class,
            None => NO_CLASS,
        },
        Place::Volume(v) => match c.volumes.as_slice().get(v) {
            Some(row) => row.class,
            None => NO_CLASS,
        },
        Place::Printer(p) => match c.printers.as_slice().get(p) {
            Some(row) => row.class,
            None => NO_CLASS,
        },
        Place::Guest(g) => match c.guests.as_slice().get(g) {
            Some(row) => row.class,
            None => NO_CLASS,
        },
        Place::Audit => match c.audit {
            Some(audit) => audit.class,
            None => NO_CLASS,
        },
    }
}

/// The class of the object of a number.
pub fn class_of(c: &Config, number: u8) -> AccessClass
    ensures { result ≡ object_class_at c.now number }
{
    match object_at(c, usize::from(number)) {
        Some(place) => class_in(c, place),
        None => NO_CLASS,
    }
}

/// The classes of all objects.
pub fn classes(alloc: Global, c: &Config) -> Result<Vec<AccessClass>, NoMemory>
    requires { IsConfig c.now }
    ensures few { IfOk result (λ v. length v.items ≤ 97) }
    ensures value { IfOk result (λ v. v.items ≡ classes_of c.now) }
{
    let mut classes = Vec::new(alloc);
    for a in 0..count(c) {
        classes.push(class_of(c, a))?;
    }
    Ok(classes)
}

fn place_of(classes: &[AccessClass], class: &AccessClass) -> Option<usize>
    ensures value { result ≡ position (same_class class.now) classes.now }
    ensures within { IfSome result (λ i. i < length classes.now) }
{
    classes.iter().position(|other| same_class(class, other))
}

/// The place of the first object of a class.
fn first_of(classes: &[AccessClass], class: &AccessClass) -> usize
    ensures within { result ≤ length classes.now }
    ensures value { result ≡ first_of_class classes.now class.now }
{
    match place_of(classes, class) {
        Some(place) => place,
        None => 0,
    }
}

fn rank(class: &AccessClass) -> u32
    ensures few { result ≤ 638 }
    ensures value { result ≡ class_rank class.now }
{
    let secrecy = u32::from(class.secrecy) + class.secrecy_cats.count_ones();
    let integrity = 255 - u32::from(class.integrity);
    secrecy + integrity + (64 - class.integrity_cats.count_ones())
}

fn line(place: Place) -> u32
    ensures few { result ≤ 3 }
    ensures value { result ≡ order_in_rank (object_of place) }
{
    match place {
        Place::Volume(_) => 0,
        Place::Guest(_) => 1,
        Place::Terminal(_) | Place::Printer(_) => 2,
        Place::Audit => 3,
    }
}

fn line_of(c: &Config, number: u8) -> u32
    ensures few { result ≤ 3 }
    ensures value { result ≡ order_in_rank_at c.now number }
{
    match object_at(c, usize::from(number)) {
        Some(place) => line(place),
        None => 0,
    }
}

fn seat_of(c: &Config, classes: &[AccessClass], number: u8) -> Seat
    requires few { length classes.now ≤ 97 }
    requires classes { classes.now ≡ classes_of c.now }
    ensures { result ≡ seat_of c.now number }
{
    let class = class_of(c, number);
    Seat {
        height: 4 * rank(&class) + line_of(c, number),
        order: 128 * first_of(classes, &class) as u32 + u32::from(number),
    }
}

/// The seats of all objects.
pub fn seats(alloc: Global, c: &Config, classes: &[AccessClass]) -> Result<Vec<Seat>, NoMemory>
    requires config { IsConfig c.now }
    requires few { length classes.now ≤ 97 }
    requires classes { classes.now ≡ classes_of c.now }
    ensures few { IfOk result (λ v. length v.items ≤ 97) }
    ensures value { IfOk result (λ v. v.items ≡ seats_of c.now) }
{
    let mut seats = Vec::new(alloc);
    for a in 0..count(c) {
        seats.push(seat_of(c, classes, a))?;
    }
    Ok(seats)
}

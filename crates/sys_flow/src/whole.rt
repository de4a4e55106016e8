ghost use Rattle.std.specs.Prelude.{◌≡◌, ◌≤◌, ◌+◌, ◌*◌, ◌++◌, IfOk, OnOk, map};
ghost use Rattle.sys_flow.specs.Layout.{letters};
ghost use Rattle.sys_flow.specs.Picture.{arrow_of, arrows, box_of, boxes, by_number, drawing_of, edge_to, edges_from, joined, picture, spot_at, start, drawn_as};
ghost use Rattle.sys_flow.specs.Objects.{object_of};
ghost use Rattle.sys_objects.specs.Condition.{IsConfig};

use crate::edges::edge;
use crate::layout::{Spot, letters, rightmost, spots, undermost};
use crate::objects::{Place, count, name, object_at};
use crate::parts::{Words, put, put_arrow, put_box, put_head};
use crate::seats::{class_of, classes, seats};
use std::alloc::Global;
use sys_objects::Config;
use vv_base::NoMemory;
use vv_class::write_class;

fn kind(place: Place) -> &'static [u8]
    ensures { result.now ≡ (drawn_as (object_of place)).kind }
{
    match place {
        Place::Terminal(_) => b"terminal",
        Place::Volume(_) => b"volume",
        Place::Printer(_) => b"printer",
        Place::Guest(_) => b"guest",
        Place::Audit => b"audit",
    }
}

fn fill(place: Place) -> &'static [u8]
    ensures { result.now ≡ (drawn_as (object_of place)).fill }
{
    match place {
        Place::Terminal(_) => b"#cfe2f7",
        Place::Volume(_) => b"#d8ecd0",
        Place::Printer(_) => b"#eadcf0",
        Place::Guest(_) => b"#fff2c4",
        Place::Audit => b"#ffffff",
    }
}

fn ink(place: Place) -> &'static [u8]
    ensures { result.now ≡ (drawn_as (object_of place)).ink }
{
    match place {
        Place::Terminal(_) => b"#1f5fa8",
        Place::Volume(_) => b"#3a7d2c",
        Place::Printer(_) => b"#000000",
        Place::Guest(_) => b"#b07a00",
        Place::Audit => b"#000000",
    }
}

fn kind_of(c: &Config, number: u8) -> &'static [u8]
    ensures { result.now ≡ by_number c.now (λ o. (drawn_as o).kind) number }
{
    match object_at(c, usize::from(number)) {
        Some(place) => kind(place),
        None => &[],
    }
}

fn fill_of(c: &Config, number: u8) -> &'static [u8]
    ensures { result.now ≡ by_number c.now (λ o. (drawn_as o).fill) number }
{
    match object_at(c, usize::from(number)) {
        Some(place) => fill(place),
        None => &[],
    }
}

fn ink_of(c: &Config, number: u8) -> &'static [u8]
    ensures { result.now ≡ by_number c.now (λ o. (drawn_as o).ink) number }
{
    match object_at(c, usize::from(number)) {
        Some(place) => ink(place),
        None => &[],
    }
}

const NOWHERE: Spot = Spot { x: 0, y: 0 };

fn spot_at(spots: &[Spot], number: u8) -> Spot
    ensures { result ≡ spot_at spots.now number }
{
    match spots.get(usize::from(number)) {
        Some(spot) => *spot,
        None => NOWHERE,
    }
}

/// The box of an object.
fn put_box_of(
    text: &mut Vec<u8>,
    c: &Config,
    letters: u32,
    spots: &[Spot],
    a: u8,
) -> Result<(), NoMemory>
    requires { letters ≤ 400 }
    ensures { OnOk result (text.new.items ≡ text.old.items ++ box_of c.now letters spots.now a) }
{
    let class = write_class(&class_of(c, a));
    let words = Words {
        color: fill_of(c, a),
        kind: kind_of(c, a),
        name: name(c, a),
        class: class.bytes(),
    };
    put_box(text, letters, spot_at(spots, a), &words)
}

/// The boxes of all objects.
fn put_boxes(text: &mut Vec<u8>, c: &Config, letters: u32, spots: &[Spot]) -> Result<(), NoMemory>
    requires config { IsConfig c.now }
    requires letters { letters ≤ 400 }
    ensures { OnOk result (text.new.items ≡ text.old.items ++ joined (boxes c.now letters spots.now)) }
{
    for a in 0..count(c) {
        put_box_of(text, c, letters, spots, a)?;
    }
    Ok(())
}

/// The arrow of an edge.
fn put_arrow_of(
    text: &mut Vec<u8>,
    c: &Config,
    letters: u32,
    spots: &[Spot],
    a: u8,
    b: u8,
) -> Result<(), NoMemory>
    requires least { 8 ≤ letters }
    requires letters { letters ≤ 400 }
    ensures { OnOk result (text.new.items ≡ text.old.items ++ arrow_of c.now letters spots.now (edge_to a b)) }
{
    put_arrow(
        text,
        letters,
        spot_at(spots, a),
        spot_at(spots, b),
        ink_of(c, a),
    )
}

/// The arrows from an object.
fn put_arrows_from(
    text: &mut Vec<u8>,
    c: &Config,
    letters: u32,
    spots: &[Spot],
    a: u8,
) -> Result<(), NoMemory>
    requires config { IsConfig c.now }
    requires least { 8 ≤ letters }
    requires letters { letters ≤ 400 }
    ensures { OnOk result (text.new.items ≡ text.old.items ++ joined (map (arrow_of c.now letters spots.now) (edges_from c.now a))) }
{
    for b in 0..count(c) {
        if edge(c, a, b) {
            put_arrow_of(text, c, letters, spots, a, b)?;
        }
    }
    Ok(())
}

/// The arrows of all edges.
fn put_arrows(text: &mut Vec<u8>, c: &Config, letters: u32, spots: &[Spot]) -> Result<(), NoMemory>
    requires config { IsConfig c.now }
    requires least { 8 ≤ letters }
    requires letters { letters ≤ 400 }
    ensures { OnOk result (text.new.items ≡ text.old.items ++ joined (arrows c.now letters spots.now)) }
{
    for a in 0..count(c) {
        put_arrows_from(text, c, letters, spots, a)?;
    }
    Ok(())
}

fn put_start(text: &mut Vec<u8>, letters: u32, spots: &[Spot]) -> Result<(), NoMemory>
    requires { letters ≤ 400 }
    ensures { OnOk result (text.new.items ≡ text.old.items ++ start letters spots.now) }
{
    let width = u64::from(rightmost(spots)) + 4 * (2 * u64::from(letters) + 8);
    let height = u64::from(undermost(spots)) + 58;
    put_head(text, width, height)
}

#[tactic(auto, unfolding(crate::specs::Picture::picture))]
fn put_picture(text: &mut Vec<u8>, c: &Config, letters: u32, spots: &[Spot]) -> Result<(), NoMemory>
    requires config { IsConfig c.now }
    requires least { 8 ≤ letters }
    requires letters { letters ≤ 400 }
    ensures { OnOk result (text.new.items ≡ text.old.items ++ picture c.now letters spots.now) }
{
    put_start(text, letters, spots)?;
    put_arrows(text, c, letters, spots)?;
    put_boxes(text, c, letters, spots)?;
    put(text, b"</svg>\n")
}

/// The picture of a configuration, an SVG document: a box for each object with its kind, its name (`*` for the audit) and its
/// class, and an arrow for each edge. It is the same bytes each time. It fails only where memory runs out.
#[tactic(auto, unfolding(crate::specs::Layout::letters))]
pub fn drawing(alloc: Global, c: &Config) -> Result<Vec<u8>, NoMemory>
    requires { IsConfig c.now }
    ensures { IfOk result (λ text. text.items ≡ drawing_of c.now) }
{
    let classes = classes(alloc, c)?;
    let seats = seats(alloc, c, classes.as_slice())?;
    let letters = letters(classes.as_slice());
    let spots = spots(alloc, letters, seats.as_slice())?;
    let mut text = Vec::new(alloc);
    put_picture(&mut text, c, letters, spots.as_slice())?;
    Ok(text)
}

ghost use Rattle.std.specs.Prelude.{◌≡◌, ◌≤◌, ◌++◌, OnOk};
ghost use Rattle.sys_flow.specs.Picture.{after_color, arrow, attribute, before_color, document_opening, frame_of_box, head, label, marker, segment, style, whole_box};

use crate::layout::Spot;
use vv_base::{NoMemory, decimal};

/// Appends bytes.
pub fn put(text: &mut Vec<u8>, bytes: &[u8]) -> Result<(), NoMemory>
    ensures { OnOk result (text.new.items ≡ text.old.items ++ bytes.now) }
{
    text.extend_from_slice(bytes)?;
    Ok(())
}

fn put_attribute(text: &mut Vec<u8>, name: &[u8], n: u64) -> Result<(), NoMemory>
    ensures { OnOk result (text.new.items ≡ text.old.items ++ attribute name.now n) }
{
    put(text, b" ")?;
    put(text, name)?;
    put(text, b"=\"")?;
    put(text, decimal(n).bytes())?;
    put(text, b"\"")
}

#[tactic(auto, unfolding(crate::specs::Picture::label))]
fn put_label(text: &mut Vec<u8>, x: u64, y: u64, words: &[u8]) -> Result<(), NoMemory>
    ensures { OnOk result (text.new.items ≡ text.old.items ++ label x y words.now) }
{
    put(text, b"<text")?;
    put_attribute(text, b"x", x)?;
    put_attribute(text, b"y", y)?;
    put(text, b">")?;
    put(text, words)?;
    put(text, b"</text>")
}

#[tactic(auto, unfolding(crate::specs::Picture::before_color))]
fn before_color() -> &'static [u8]
    ensures { result.now ≡ before_color }
{
    b" height=\"48\" rx=\"4\" fill=\""
}

#[tactic(auto, unfolding(crate::specs::Picture::after_color))]
fn after_color() -> &'static [u8]
    ensures { result.now ≡ after_color }
{
    b"\" fill-opacity=\"0.8\" stroke=\"black\"/>"
}

#[tactic(auto, unfolding(crate::specs::Picture::frame_of_box))]
fn put_frame(text: &mut Vec<u8>, letters: u32, s: Spot, color: &[u8]) -> Result<(), NoMemory>
    requires { letters ≤ 400 }
    ensures { OnOk result (text.new.items ≡ text.old.items ++ frame_of_box letters s color.now) }
{
    put(text, b"<rect")?;
    put_attribute(text, b"x", u64::from(s.x))?;
    put_attribute(text, b"y", u64::from(s.y))?;
    put_attribute(text, b"width", 2 * (4 * u64::from(letters) + 6))?;
    put(text, before_color())?;
    put(text, color)?;
    put(text, after_color())
}

/// What is in a box: its kind, its name and its class, and its color.
#[derive(Clone, Copy)]
pub struct Words<'a> {
    pub color: &'a [u8],
    pub kind: &'a [u8],
    pub name: &'a [u8],
    pub class: &'a [u8],
}

#[tactic(auto, unfolding(crate::specs::Picture::whole_box))]
pub fn put_box(text: &mut Vec<u8>, letters: u32, s: Spot, words: &Words) -> Result<(), NoMemory>
    requires { letters ≤ 400 }
    ensures { OnOk result (text.new.items ≡ text.old.items ++ whole_box letters s words.now.color.now words.now.kind.now words.now.name.now words.now.class.now) }
{
    let middle = u64::from(s.x) + 4 * u64::from(letters) + 6;
    let top = u64::from(s.y);
    put_frame(text, letters, s, words.color)?;
    put_label(text, middle, top + 14, words.kind)?;
    put_label(text, middle, top + 29, words.name)?;
    put_label(text, middle, top + 43, words.class)?;
    put(text, b"\n")
}

#[tactic(auto, unfolding(crate::specs::Picture::segment))]
fn put_segment(
    text: &mut Vec<u8>,
    from: (u64, u64),
    to: (u64, u64),
    color: &[u8],
) -> Result<(), NoMemory>
    ensures { OnOk result (text.new.items ≡ text.old.items ++ segment from.0 from.1 to.0 to.1 color.now) }
{
    put(text, b"<line")?;
    put_attribute(text, b"x1", from.0)?;
    put_attribute(text, b"y1", from.1)?;
    put_attribute(text, b"x2", to.0)?;
    put_attribute(text, b"y2", to.1)?;
    put(text, b" stroke=\"")?;
    put(text, color)?;
    put(text, b"\" marker-end=\"url(#head)\"/>\n")
}

/// An arrow from box to box: up on the right of the middle, down on the left.
pub fn put_arrow(
    text: &mut Vec<u8>,
    letters: u32,
    from: Spot,
    to: Spot,
    color: &[u8],
) -> Result<(), NoMemory>
    requires least { 8 ≤ letters }
    requires few { letters ≤ 400 }
    ensures { OnOk result (text.new.items ≡ text.old.items ++ arrow letters from to color.now) }
{
    let half = 4 * u64::from(letters) + 6;
    let start = u64::from(from.x) + half;
    let end = u64::from(to.x) + half;
    let (top, under) = (u64::from(from.y), u64::from(to.y));
    if to.y < from.y {
        put_segment(text, (start + 10, top), (end + 10, under + 48), color)
    } else {
        put_segment(text, (start - 10, top + 48), (end - 10, under), color)
    }
}

#[tactic(auto, unfolding(crate::specs::Picture::document_opening))]
fn opening() -> &'static [u8]
    ensures { result.now ≡ document_opening }
{
    b"<svg xmlns=\"http://www.w3.org/2000/svg\""
}

#[tactic(auto, unfolding(crate::specs::Picture::style))]
fn style() -> &'static [u8]
    ensures { result.now ≡ style }
{
    b" font-family=\"monospace\" font-size=\"13\" text-anchor=\"middle\">\n"
}

#[tactic(auto, unfolding(crate::specs::Picture::marker))]
fn marker() -> &'static [u8]
    ensures { result.now ≡ marker }
{
    b"<defs><marker id=\"head\" viewBox=\"0 0 8 8\" refX=\"8\" refY=\"4\" markerWidth=\"8\" markerHeight=\"8\" orient=\"auto\"><path d=\"M0 0L8 4L0 8z\"/></marker></defs>\n"
}

/// How the picture begins: its width and its height in pixels, and how letters and arrows look.
#[tactic(auto, unfolding(crate::specs::Picture::head))]
pub fn put_head(text: &mut Vec<u8>, width: u64, height: u64) -> Result<(), NoMemory>
    ensures { OnOk result (text.new.items ≡ text.old.items ++ head width height) }
{
    put(text, opening())?;
    put_attribute(text, b"width", width)?;
    put_attribute(text, b"height", height)?;
    put(text, style())?;
    put(text, marker())
}

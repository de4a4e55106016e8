ghost use Rattle.std.specs.List.{flat_map};
ghost use Rattle.std.specs.Option.{option_copied};
ghost use Rattle.std.specs.Prelude.{◌≡◌, ◌≤◌, ◌++◌, length, take, drop, replicate, IfOk, OnOk};
ghost use Rattle.vv_base.specs.Digits.{hex_text};
ghost use Rattle.vasm.specs.Assembled.{IsAsWanted};
ghost use Rattle.vasm.specs.Listing.{bytes_column, listed_line, listed_name, listing, listing_of, said_in};
ghost use Rattle.vasm.specs.Views.{source_line_view};

use crate::line::{Line, line_in};
use crate::size::line_size;
use crate::text::assemble;
use std::alloc::Global;
use vasm_text::AsmError;
use vv_base::{NoMemory, first_line, hex};

/// What a line says; one of no form says nothing.
fn said_in(text: &[u8]) -> Line<'_>
    ensures { source_line_view result ≡ said_in text.now }
{
    match line_in(text) {
        Some(line) => line,
        None => Line {
            label: None,
            statement: None,
        },
    }
}

/// Appends an address.
fn put_address(shown: &mut Vec<u8>, at: u32) -> Result<(), NoMemory>
    ensures { OnOk result (shown.new.items ≡ shown.old.items ++ hex_text 8 at) }
{
    shown.extend_from_slice(hex(u64::from(at), 8).bytes())?;
    Ok(())
}

/// Appends the digits of bytes.
fn put_digits(shown: &mut Vec<u8>, bytes: &[u8]) -> Result<(), NoMemory>
    ensures { OnOk result (shown.new.items ≡ shown.old.items ++ flat_map (hex_text 2) bytes.now) }
{
    for byte in bytes {
        shown.extend_from_slice(hex(u64::from(*byte), 2).bytes())?;
    }
    Ok(())
}

/// Appends blanks.
fn put_blanks(shown: &mut Vec<u8>, count: usize) -> Result<(), NoMemory>
    ensures { OnOk result (shown.new.items ≡ shown.old.items ++ replicate count 32) }
{
    for _left in (0..count).rev() {
        shown.push(b' ')?;
    }
    Ok(())
}

/// Appends the column of a line's bytes.
fn put_bytes(shown: &mut Vec<u8>, bytes: &[u8]) -> Result<(), NoMemory>
    requires { length bytes.now ≤ 64 }
    ensures { OnOk result (shown.new.items ≡ shown.old.items ++ bytes_column bytes.now) }
{
    put_digits(shown, bytes)?;
    put_blanks(shown, 16usize.saturating_sub(2 * bytes.len()))
}

/// Appends a line with its address and its bytes.
fn put_line(shown: &mut Vec<u8>, at: u32, bytes: &[u8], text: &[u8]) -> Result<(), NoMemory>
    requires { length bytes.now ≤ 64 }
    ensures { OnOk result (shown.new.items ≡ shown.old.items ++ listed_line at bytes.now text.now) }
{
    put_address(shown, at)?;
    shown.push(b' ')?;
    put_bytes(shown, bytes)?;
    shown.push(b' ')?;
    shown.extend_from_slice(text)?;
    shown.push(b'\n')?;
    Ok(())
}

/// Appends the name of a line, if it has one.
fn put_name(names: &mut Vec<u8>, at: u32, label: Option<&[u8]>) -> Result<(), NoMemory>
    ensures { OnOk result (names.new.items ≡ names.old.items ++ listed_name at (option_copied label.entry)) }
{
    let Some(name) = label else {
        return Ok(());
    };
    put_address(names, at)?;
    names.extend_from_slice(b" T ")?;
    names.extend_from_slice(name)?;
    names.push(b'\n')?;
    Ok(())
}

/// As many bytes of the front, or all where there are fewer, and those after them.
fn front_of(bytes: &[u8], size: u32) -> (&[u8], &[u8])
    ensures own { result.0.now ≡ take size bytes.now }
    ensures later { result.1.now ≡ drop size bytes.now }
    ensures most { length result.0.now ≤ size }
{
    let size = size as usize;
    if bytes.len() <= size {
        return (bytes, b"");
    }
    bytes.split_at(size)
}

/// The listing of a text that has these bytes.
fn listing(alloc: Global, bytes: &[u8], text: &[u8]) -> Result<Vec<u8>, NoMemory>
    requires { length text.now ≤ 16777216 }
    ensures { IfOk result (λ shown. shown.items ≡ listing bytes.now text.now) }
{
    let mut shown = Vec::new(alloc);
    let mut names = Vec::new(alloc);
    let mut left = bytes;
    let mut rest = text;
    let mut at: u32 = 0x200;
    while !rest.is_empty() {
        let (text, following) = first_line(rest);
        let line = said_in(text);
        let size = line_size(&line);
        let (own, later) = front_of(left, size);
        put_line(&mut shown, at, own, text)?;
        put_name(&mut names, at, line.label)?;
        at += size;
        left = later;
        rest = following;
    }
    shown.extend_from_slice(names.as_slice())?;
    Ok(shown)
}

/// The listing of a text of at most 16,777,216 bytes, or the first line that is refused and why.
#[tactic(auto, unfolding(crate::specs::Listing::listing_of))]
pub fn list(alloc: Global, text: &[u8]) -> Result<Vec<u8>, AsmError>
    requires { length text.now ≤ 16777216 }
    ensures { IsAsWanted result (listing_of text.now) }
{
    let bytes = assemble(alloc, text)?;
    let shown = listing(alloc, bytes.as_slice(), text)?;
    Ok(shown)
}

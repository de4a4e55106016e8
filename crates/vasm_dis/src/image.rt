ghost use Rattle.std.specs.Option.{unwrap_or};
ghost use Rattle.std.specs.Prelude.{◌≡◌, [], ◌∷◌, ◌++◌, ◌≤◌, ◌<◌, length, drop, IfOk, OnOk};
ghost use Rattle.vasm_dis.specs.First.{IsFirstDecoded};
ghost use Rattle.vasm_text.specs.Dis.{and_others, dis_of};
ghost use Rattle.vasm_text.specs.Front.{front_text};
ghost use Rattle.vasm_text.specs.Mnemonics.{mnemonic_of};
ghost use Rattle.vasm_text.specs.Statements.{forms_of};
ghost use Rattle.vasm_text.specs.Printing.{byte_text, instruction_text, text_after_mark};

use crate::operand::put_operands;
use crate::put::{Line, put_field};
use std::alloc::Global;
use vasm_text::mnemonic;
use vax_decode::{Decode, decode};
use vax_table::{Decoded, Spec, row};
use vv_base::{NoMemory, Text};

/// Appends an instruction's name.
fn put_name(text: &mut Line, opcode: u8)
    requires { length text.old ≡ 0 }
    ensures text { text.new ≡ text.old ++ unwrap_or (mnemonic_of opcode) [] }
    ensures short { length text.new ≤ 6 }
{
    if let Some(name) = mnemonic(opcode) {
        text.append(name.as_bytes());
    }
}

/// Appends an instruction's operands.
#[tactic(auto, unfolding(vasm_text::specs::Statements::forms_of))]
fn put_all(text: &mut Line, opcode: u8, specs: &[Spec])
    requires { length text.old ≤ 6 }
    ensures { text.new ≡ text.old ++ text_after_mark 32 (forms_of opcode) specs.now }
{
    if let Some(row) = row(opcode) {
        put_operands(text, b' ', row.operands.as_slice(), specs);
    }
}

/// The text of an instruction.
#[tactic(auto, unfolding(vasm_text::specs::Printing::instruction_text))]
fn instruction(d: &Decoded) -> Line
    ensures { result ≡ instruction_text d.now.opcode d.now.specs.items }
{
    let mut text = Text::new();
    put_name(&mut text, d.opcode);
    put_all(&mut text, d.opcode, d.specs.as_slice());
    text
}

/// The text of a byte by itself.
#[tactic(auto, unfolding(vasm_text::specs::Printing::byte_text))]
fn single_byte(b: u8) -> Line
    ensures { result ≡ byte_text b }
{
    let mut text = Text::new();
    text.append(b".byte ");
    put_field(&mut text, 1, u64::from(b));
    text
}

/// The instruction at the front of an image, if one is there.
fn first(image: &[u8]) -> Option<Decoded>
    ensures { IsFirstDecoded result image.now }
{
    match decode(image) {
        Decode::Done(d) => Some(d),
        Decode::NeedMore => None,
        Decode::Fault(_) => None,
    }
}

/// What is at the front of an image that isn't empty: the text of the instruction, or of the first byte where there is none
/// there; and how many bytes that is.
pub fn front(image: &[u8]) -> (Line, usize)
    requires { 0 < length image.now }
    ensures text { result.0 ≡ front_text image.now }
    ensures some { 0 < result.1 }
    ensures most { result.1 ≤ length image.now }
    ensures rest { dis_of image.now ≡ and_others result.0 (dis_of (drop result.1 image.now)) }
{
    match first(image) {
        Some(d) => (instruction(&d), usize::from(d.length)),
        None => (single_byte(image[0]), 1),
    }
}

/// Appends a line, with its end.
fn put_line(text: &mut Vec<u8>, line: &Line) -> Result<(), NoMemory>
    ensures { OnOk result (text.new.items ≡ text.old.items ++ (line.now ++ 10 ∷ [])) }
{
    text.extend_from_slice(line.bytes())?;
    text.push(b'\n')?;
    Ok(())
}

/// The text of an image: a line for each instruction, and one for each byte that begins none.
pub fn disassemble(alloc: Global, image: &[u8]) -> Result<Vec<u8>, NoMemory>
    requires { length image.now ≤ 16777216 }
    ensures { IfOk result (λ text. text.items ≡ dis_of image.now) }
{
    let mut text = Vec::new(alloc);
    let mut rest = image;
    while !rest.is_empty() {
        let (line, size) = front(rest);
        put_line(&mut text, &line)?;
        rest = &rest[size..];
    }
    Ok(text)
}

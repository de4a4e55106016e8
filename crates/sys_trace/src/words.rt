ghost use Rattle.std.specs.Prelude.{◌≡◌, ◌≤◌, ◌+◌, ◌*◌, ◌++◌, ◌<◌, length, take};
ghost use Rattle.sys_trace.specs.TraceLine.{changed_word, note_word, register_words, shown_word, word};
ghost use Rattle.vasm_text.specs.Printing.{register_text};
ghost use Rattle.vv_base.specs.Digits.{hex_text};

use vm_guest::Note;
use vv_base::{Text, hex};

/// The line of a step.
pub type StepLine = Text<512>;

/// The name of a register but PC.
#[tactic(auto, unfolding(vasm_text::specs::Printing::register_text))]
fn register_name(n: usize) -> &'static str
    requires { n < 15 }
    ensures name { result.now ≡ register_text n }
    ensures short { length result.now ≤ 3 }
{
    match n {
        0 => "R0",
        1 => "R1",
        2 => "R2",
        3 => "R3",
        4 => "R4",
        5 => "R5",
        6 => "R6",
        7 => "R7",
        8 => "R8",
        9 => "R9",
        10 => "R10",
        11 => "R11",
        12 => "AP",
        13 => "FP",
        _ => "SP",
    }
}

/// Appends a word of a name and a value in base 16.
fn put_word(line: &mut StepLine, name: &[u8], value: u32, digits: u8)
    requires short { length name.now ≤ 8 }
    requires low { 1 ≤ digits }
    requires high { digits ≤ 8 }
    requires room { length line.old + 18 ≤ 512 }
    ensures word { line.new ≡ line.old ++ word name.now (hex_text digits value) }
    ensures grows { length line.new ≡ length line.old + (2 + length name.now + digits) }
{
    line.append(b" ");
    line.append(name);
    line.append(b"=");
    line.append(hex(u64::from(value), digits).bytes());
}

/// Appends the word of a step's note.
pub fn put_note(line: &mut StepLine, note: Note)
    requires { length line.old + 18 ≤ 512 }
    ensures word { line.new ≡ line.old ++ note_word note }
    ensures grows { length line.new ≤ length line.old + 14 }
{
    match note {
        Note::Nothing => {}
        Note::Vector(offset) => put_word(line, b"VECTOR", offset, 3),
        Note::Page(va) => put_word(line, b"PAGE", va, 8),
    }
}

/// Appends the word of a longword, if it has changed.
pub fn put_changed(line: &mut StepLine, name: &[u8], before: u32, after: u32)
    requires short { length name.now ≤ 3 }
    requires room { length line.old + 18 ≤ 512 }
    ensures word { line.new ≡ line.old ++ changed_word name.now before after }
    ensures grows { length line.new ≤ length line.old + 13 }
{
    if before != after {
        put_word(line, name, after, 8);
    }
}

/// Appends the words of R0 to R14 that have changed.
pub fn put_registers(line: &mut StepLine, before: &[u32; 16], after: &[u32; 16])
    requires { length line.old + 200 ≤ 512 }
    ensures words { line.new ≡ line.old ++ register_words 0 (take 15 before.now) (take 15 after.now) }
    ensures grows { length line.new ≤ length line.old + 195 }
{
    for n in 0..15 {
        put_changed(line, register_name(n).as_bytes(), before[n], after[n]);
    }
}

/// Appends the word of the bytes that were shown, if there are any.
pub fn put_shown(line: &mut StepLine, shown: &[u8])
    requires few { length shown.now ≤ 14 }
    requires room { length line.old + 40 ≤ 512 }
    ensures word { line.new ≡ line.old ++ shown_word shown.now }
    ensures grows { length line.new ≤ length line.old + 33 }
{
    if shown.is_empty() {
        return;
    }
    line.append(b" OUT=");
    for byte in shown {
        line.append(hex(u64::from(*byte), 2).bytes());
    }
}

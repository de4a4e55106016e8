ghost use Rattle.std.specs.Prelude.{◌≡◌, ◌<◌, ◌≤◌, ◌+◌, ◌*◌, ◌++◌, decimal, length};
ghost use Rattle.vv_edge.specs.Notes.{flaw_text, is_mark, line_note, note_if, note_text, notes_of, round_note, with_failed};

use crate::stat::Flaw;
use vv_base::{Text, decimal};

/// How many blocks of a drive were stored, from its first on, and how many it has.
#[derive(Clone, Copy, Debug, PartialEq, Eq)]
pub struct Stored {
    pub drive: u8,
    pub stored: u32,
    pub blocks: u32,
}

/// What is reported of a device beside an answer.
#[derive(Clone, Copy, Debug, PartialEq, Eq)]
pub enum Note {
    /// A drive can't be used.
    Flawed(u8, Flaw),
    /// A drive must have this number of blocks.
    Wanted(u8, u32),
    /// A line failed.
    Line(u8),
    /// The audit's line failed.
    Audit(u8),
    /// A drive failed.
    Drive(Stored),
    /// Another program has the folder.
    Busy,
    /// The folder can't be locked.
    Unlocked,
    /// The system refuses a descriptor.
    FewPlaces,
}

/// Notes on drives, by their numbers.
pub type DriveNotes = [Option<Note>; 16];

/// Notes on lines, by their numbers.
pub type LineNotes = [Option<Note>; 32];

/// The note on a line, where it failed.
pub fn line_note(line: u8, has_failed: bool, audit: Option<u8>) -> Option<Note>
    ensures { result ≡ line_note line has_failed audit }
{
    if !has_failed {
        return None;
    }
    match audit {
        Some(audit) if audit == line => Some(Note::Audit(line)),
        _ => Some(Note::Line(line)),
    }
}

/// Notes on drives, and that one more failed.
pub fn with_failed(notes: DriveNotes, drive: Stored) -> DriveNotes
    ensures { drive.drive < 16 → result ≡ with_failed notes drive }
{
    let mut notes = notes;
    if drive.drive < 16 {
        notes[usize::from(drive.drive)] = Some(Note::Drive(drive));
    }
    notes
}

/// Whether `rounds` rounds are at the end of a hundredth of all, or at the end.
pub fn is_mark(rounds: u32, of: u32) -> bool
    ensures { result ≡ is_mark rounds of }
{
    rounds % (of / 100).max(1) == 0 || rounds == of
}

/// What is shown after `rounds` rounds, over what was shown before.
pub fn round_note(rounds: u32, of: u32) -> Text<128>
    ensures { result ≡ round_note rounds of }
{
    let mut text = Text::new();
    text.append(b"\rvvmm: round ");
    count(&mut text, rounds, b" of ");
    count(
        &mut text,
        of,
        if rounds == of { b"\n".as_slice() } else { b"" },
    );
    text
}

/// What a flaw is called after a drive's number.
fn flaw_text(flaw: Flaw) -> &'static [u8]
    ensures is { result.now ≡ flaw_text flaw }
    ensures short { length result.now ≤ 40 }
{
    match flaw {
        Flaw::Untold => b" cannot be looked at",
        Flaw::Link => b" is a link",
        Flaw::NoFile => b" is no file",
        Flaw::OtherName => b" is a file that has another name too",
        Flaw::Shared => b" is a file that is used otherwise",
    }
}

/// Appends a number and a text.
fn count(text: &mut Text<128>, number: u32, after: &[u8])
    requires { length text.old + length after.now ≤ 108 }
    ensures is { text.new ≡ (text.old ++ decimal number) ++ after.now }
    ensures short { length text.new ≤ length text.old + length after.now + 20 }
{
    text.append(decimal(u64::from(number)).bytes());
    text.append(after);
}

/// A note without its end.
fn note_text(note: Note) -> Text<128>
    ensures is { result ≡ note_text note }
    ensures short { length result ≤ 120 }
{
    let mut text = Text::new();
    match note {
        Note::Flawed(drive, flaw) => {
            text.append(b"vvmm: drive ");
            count(&mut text, u32::from(drive), flaw_text(flaw));
        }
        Note::Wanted(drive, blocks) => {
            text.append(b"vvmm: drive ");
            count(&mut text, u32::from(drive), b" must have ");
            count(&mut text, blocks, b" blocks of 512 bytes");
        }
        Note::Line(line) => {
            text.append(b"vvmm: line ");
            count(&mut text, u32::from(line), b" failed");
        }
        Note::Audit(line) => {
            text.append(b"vvmm: line ");
            count(&mut text, u32::from(line), b", the audit, failed");
        }
        Note::Drive(drive) => {
            text.append(b"vvmm: drive ");
            count(&mut text, u32::from(drive.drive), b" failed: ");
            count(&mut text, drive.stored, b" of its ");
            count(&mut text, drive.blocks, b" blocks were stored");
        }
        Note::Busy => text.append(b"vvmm: another vvmm runs in this folder"),
        Note::Unlocked => {
            text.append(b"vvmm: this folder cannot be locked: run no other vvmm in it");
        }
        Note::FewPlaces => text.append(b"vvmm: too few descriptors: raise ulimit -n"),
    }
    text
}

/// A note as a line, if there is one.
pub fn note_if(note: &Option<Note>) -> Text<128>
    ensures is { result ≡ note_if note.now }
    ensures short { length result ≤ 128 }
{
    let Some(note) = note else {
        return Text::new();
    };
    let mut text = note_text(*note);
    text.append(b"\n");
    text
}

/// Notes in their order, a line each.
pub fn notes(list: &[Option<Note>]) -> Text<4096>
    requires { length list.now ≤ 32 }
    ensures is { result ≡ notes_of list.now }
    ensures short { length result ≤ 128 * length list.now }
{
    let mut text = Text::new();
    for note in list {
        text.append(note_if(note).bytes());
    }
    text
}

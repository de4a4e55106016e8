ghost use Rattle.std.specs.Prelude.{◌≡◌, ◌≤◌, ◌++◌, codes, length};
ghost use Rattle.vv_edge.specs.Notes.{note_if, notes_of};
ghost use Rattle.vv_edge.specs.Hints.{advice, column_text, hint_of, line_if, numbered_table, rule_text, script_advice, source_advice, table_key};

use crate::asked::HELP;
use crate::telling::{DriveNotes, LineNotes, Note, note_if, notes};
use sys_objects::ConfigFault;
use sys_script::ScriptKind;
use vasm_text::AsmKind;
use vv_base::{FileName, Text, decimal};
use vvmm_files::Status;

/// What is known of a run beside its answer, for people at a terminal.
#[derive(Drop)]
pub struct Told {
    /// Drives that can't be used.
    pub flawed: DriveNotes,
    /// What a drive must have.
    pub wanted: Option<Note>,
    /// Lines that failed.
    pub lines: LineNotes,
    /// Drives that failed.
    pub drives: DriveNotes,
    /// A file that couldn't be read.
    pub unread: FileName,
    /// The key and the value that break a rule.
    pub key: Text<168>,
    /// A line that is refused.
    pub line: Text<80>,
    /// The column where the part of it begins that is refused; 0 where that isn't known.
    pub column: u64,
}

impl Told {
    /// Nothing is known.
    pub fn new() -> Told {
        Told {
            flawed: [None; 16],
            wanted: None,
            lines: [None; 32],
            drives: [None; 16],
            unread: FileName::new(),
            key: Text::new(),
            line: Text::new(),
            column: 0,
        }
    }
}

/// What a configuration's rule asks for.
fn rule_text(rule: u8) -> &'static [u8]
    ensures is { result.now ≡ rule_text rule }
    ensures short { length result.now ≤ 80 }
{
    match rule {
        0 => b"the text is TOML, with arrays at most 80 deep in one another",
        1 => b"the keys at the top are there, known and of their forms",
        2 => b"the version is 1 or 2",
        3 => b"the quantum is 1 to 100000",
        4 => b"the slice is 1 to the quantum, in version 2 to 100000",
        5 => b"terminal, volume, printer and guest are arrays of tables, not too long",
        6 => b"a terminal's keys are there, known and in range",
        7 => b"a volume's keys are there, known and in range",
        8 => b"a printer's keys are there, known and in range",
        9 => b"the keys of a guest and its mounts are there, known and in range",
        10 => b"the audit's keys are there, known and in range",
        11 => b"a name occurs once",
        12 => b"a line occurs once",
        13 => b"a drive occurs once",
        14 => b"a guest's printer is a printer into whose class the guest flows",
        15 => b"a guest's console is a terminal of its class, and no other guest's",
        16 => b"a mounted volume flows into the guest, and has its class to be written",
        17 => b"each class flows into the audit's",
        _ => b"all guests have at most 16384 pages together",
    }
}

/// The key of the tables of which a rule's place is one.
fn table_key(rule: u8) -> &'static [u8]
    ensures is { result.now ≡ table_key rule }
    ensures short { length result.now ≤ 8 }
{
    match rule {
        6 => b"terminal",
        7 | 13 => b"volume",
        8 => b"printer",
        9 | 14 | 15 | 16 | 18 => b"guest",
        _ => b"",
    }
}

/// Which of such tables one is.
fn numbered_table(key: &[u8], place: u32) -> Text<80>
    requires { length key.now ≤ 8 }
    ensures { result ≡ numbered_table key.now place }
{
    let mut text = Text::new();
    if key.is_empty() {
        return text;
    }
    text.append(key);
    text.append(b" ");
    text.append(decimal(u64::from(place)).bytes());
    text.append(b", counted from 0");
    text
}

/// The rule that a configuration breaks, in which table, and by which key and value.
fn broken(fault: &ConfigFault, told: &Told) -> Text<720>
    ensures { result ≡ (line_if (codes "the rule: ") (rule_text fault.now.rule) ++ line_if (codes "the table: ") (numbered_table (table_key fault.now.rule) fault.now.place)) ++ line_if (codes "the key: ") told.now.key }
{
    let table = numbered_table(table_key(fault.rule), fault.place);
    let mut text = Text::new();
    text.append(line_if(b"the rule: ", rule_text(fault.rule)).bytes());
    text.append(line_if(b"the table: ", table.bytes()).bytes());
    text.append(line_if(b"the key: ", told.key.bytes()).bytes());
    text
}

/// How a script's line is to be.
fn script_advice(kind: ScriptKind) -> &'static [u8]
    ensures is { result.now ≡ script_advice kind }
    ensures short { length result.now ≤ 80 }
{
    match kind {
        ScriptKind::BadRound => b"it begins with a round, 1 to 1000000, and a blank",
        ScriptKind::BadName => b"after the round comes a terminal's name, A to Z and 0 to 9",
        ScriptKind::BadEvent => b"after the name comes > TEXT or break",
        ScriptKind::BadText => b"a text has at most 1000 bytes, each a blank to ~",
        ScriptKind::RoundFalls => b"rounds may not fall",
    }
}

/// What is wrong with a source's line.
fn source_advice(kind: AsmKind) -> &'static [u8]
    ensures is { result.now ≡ source_advice kind }
    ensures short { length result.now ≤ 80 }
{
    match kind {
        AsmKind::BadLine => b"no instruction, directive or operand is so, or a number does not fit",
        AsmKind::TwiceNamed => b"its name was given to an earlier line",
        AsmKind::NoName => b"no line has that name",
        AsmKind::OutOfReach => b"take a longer field: W^ for B^, BSBW for BSBB, BRW for BRB",
    }
}

/// What to do about an answer that says all by itself.
fn advice(status: &Status) -> &'static [u8]
    ensures is { result.now ≡ advice status.now }
    ensures short { length result.now ≤ 80 }
{
    match status {
        Status::Missing(_) => b"no file has that name, counted from the folder of the call",
        Status::TooLong(_) => b"a file has at most 16777216 bytes",
        Status::Image(_) =>
            b"the image does not end in its guest's memory: more pages, or a lower load",
        Status::SnapSize =>
            b"at most 31250 pages and blocks together, and 262144 bytes of configuration",
        Status::Snap(_) => b"no snapshot of save, or one that was cut or changed",
        Status::OutFault => b"standard output took not all: a full disk, or a reader that went",
        Status::KeyFault => b"standard input failed",
        Status::NoMemory => b"see ulimit -v, and what the system has left",
        _ => b"",
    }
}

/// A line with its end, if it says something.
fn line_if(before: &[u8], bytes: &[u8]) -> Text<240>
    requires before { length before.now ≤ 60 }
    requires bytes { length bytes.now ≤ 168 }
    ensures { result ≡ line_if before.now bytes.now }
{
    let mut text = Text::new();
    if bytes.is_empty() {
        return text;
    }
    text.append(b"vvmm: ");
    text.append(before);
    text.append(bytes);
    text.append(b"\n");
    text
}

/// The column where the part of a line begins that is refused, where it is known.
fn column_text(column: u64) -> Text<60>
    ensures { result ≡ column_text column }
{
    let mut text = Text::new();
    if column > 0 {
        text.append(b"column ");
        text.append(decimal(column).bytes());
        text.append(b": ");
    }
    text
}

/// A line that is refused, and where and why.
fn refused(told: &Told, why: &[u8]) -> Text<480>
    requires { length why.now ≤ 80 }
    ensures { result ≡ line_if (codes "the line is: ") told.now.line ++ line_if (column_text told.now.column) why.now }
{
    let mut text = Text::new();
    text.append(line_if(b"the line is: ", told.line.bytes()).bytes());
    text.append(line_if(column_text(told.column).bytes(), why).bytes());
    text
}

/// The devices that failed.
fn failed(told: &Told) -> Text<8192>
    ensures { result ≡ notes_of told.now.lines ++ notes_of told.now.drives }
{
    let mut text = Text::new();
    text.append(notes(&told.lines).bytes());
    text.append(notes(&told.drives).bytes());
    text
}

/// The drive that a volume must have, and those that can't be used.
fn unfit(told: &Told) -> Text<8192>
    ensures { result ≡ note_if told.now.wanted ++ notes_of told.now.flawed }
{
    let mut text = Text::new();
    text.append(note_if(&told.wanted).bytes());
    text.append(notes(&told.flawed).bytes());
    text
}

/// All that is shown of an answer beside its text.
pub fn hint(status: &Status, told: &Told) -> Text<8192>
    ensures { result ≡ hint_of status.now told.now }
{
    let mut text = Text::new();
    match status {
        Status::Words => text.append(HELP.as_bytes()),
        Status::ShelfFault => {
            let before = b"this file cannot be read, or is a drive: ";
            text.append(line_if(before, told.unread.bytes()).bytes());
        }
        Status::Config(fault) => text.append(broken(fault, told).bytes()),
        Status::Script(fault) => {
            text.append(refused(told, script_advice(fault.kind)).bytes());
        }
        Status::Asm(fault) => {
            text.append(refused(told, source_advice(fault.kind)).bytes());
        }
        Status::Audit(_) => text.append(line_if(b"the line is: ", told.line.bytes()).bytes()),
        Status::VolumeSize(_) => return unfit(told),
        Status::DriveIn(_) => text.append(notes(&told.flawed).bytes()),
        Status::DeviceFault(_) => return failed(told),
        _ => text.append(line_if(b"", advice(status)).bytes()),
    }
    text
}

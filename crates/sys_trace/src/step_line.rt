ghost use Rattle.std.specs.Prelude.{◌≡◌, ◌≤◌, ◌+◌, ◌-◌, ◌++◌, ◌∷◌, decimal, length};
ghost use Rattle.sys_system.specs.Watched.{DescribesStep};
ghost use Rattle.sys_trace.specs.Held.{IsBefore};
ghost use Rattle.sys_trace.specs.TraceLine.{at_left, at_right, head_and_words, head_of, instruction_or_mark, kind_name, mode_name, step_words, trace_line};
ghost use Rattle.vm_state.specs.Run.{no_steps, tallied};
ghost use Rattle.vm_state.specs.State.{Guest, state_of};
ghost use Rattle.vm_state.specs.Step.{Kind, step};
ghost use Rattle.vm_stepping.specs.Made.{tally_of};
ghost use Rattle.vv_base.specs.Digits.{hex_text};

use crate::before::Before;
use crate::words::{StepLine, put_changed, put_note, put_registers, put_shown};
use sys_system::Watched;
use vax_arch::Mode;
use vm_guest::Counts;
use vm_state::GuestState;
use vv_base::{Text, decimal, hex};

/// How many bytes come before what follows the number, the kind, and the instruction.
const NUMBER: usize = 6;

const KINDS_END: usize = 16;

const WORDS: usize = 60;

/// The name of the kind of the one step that is counted.
fn kind_name(counts: &Counts) -> &'static str
    ensures name { (kind : Kind) → tally_of counts.now ≡ tallied kind no_steps → result.now ≡ kind_name kind }
    ensures short { length result.now ≤ 9 }
{
    if counts.plain == 1 {
        "plain"
    } else if counts.sensitive == 1 {
        "sensitive"
    } else if counts.faults == 1 {
        "fault"
    } else if counts.interrupts == 1 {
        "interrupt"
    } else if counts.modify == 1 {
        "modify"
    } else if counts.idle == 1 {
        "idle"
    } else {
        "stopped"
    }
}

/// The instruction that the one step that is counted reaches, or a mark.
fn instruction_in<'a>(counts: &Counts, text: &'a [u8]) -> &'a [u8]
    requires { length text.now ≤ 160 }
    ensures text { (kind : Kind) → tally_of counts.now ≡ tallied kind no_steps → result.now ≡ instruction_or_mark kind text.now }
    ensures short { length result.now ≤ 160 }
{
    if counts.interrupts == 1 || counts.idle == 1 || counts.stopped == 1 {
        b"-".as_slice()
    } else {
        text
    }
}

/// The letter of a mode.
fn mode_name(mode: Mode) -> &'static [u8]
    ensures name { result.now ≡ mode_name mode }
    ensures one { length result.now ≡ 1 }
{
    match mode {
        Mode::Kernel => b"K",
        Mode::Executive => b"E",
        Mode::Supervisor => b"S",
        Mode::User => b"U",
    }
}

/// Appends blanks up to a column.
fn put_blanks(line: &mut StepLine, column: usize)
    requires { column ≤ 60 }
    ensures blanks { line.new ≡ at_left column line.old }
    ensures size { length line.new ≡ length line.old + (column - length line.old) }
{
    while line.bytes().len() < column {
        line.append(b" ");
    }
}

/// Appends a number of a step, of at most 6 digits, at the right of its column.
fn number_column(number: u32) -> StepLine
    requires { number ≤ 100000 }
    ensures number { result ≡ at_right 6 (decimal number) }
    ensures size { length result ≡ 6 }
{
    let digits = decimal(u64::from(number));
    let mut line = Text::new();
    put_blanks(&mut line, NUMBER - digits.bytes().len());
    line.append(digits.bytes());
    line
}

/// Appends a part after a blank.
fn put_part(line: &mut StepLine, bytes: &[u8])
    requires { length line.old + 1 + length bytes.now ≤ 512 }
    ensures part { line.new ≡ line.old ++ (32 ∷ bytes.now) }
    ensures size { length line.new ≡ length line.old + 1 + length bytes.now }
{
    line.append(b" ");
    line.append(bytes);
}

/// A longword in base 16.
fn address(value: u32) -> Text<16>
    ensures text { result ≡ hex_text 8 value }
    ensures size { length result ≡ 8 }
{
    hex(u64::from(value), 8)
}

/// What comes before the words.
fn head(number: u32, before: &Before, counts: &Counts) -> StepLine
    requires { number ≤ 100000 }
    ensures head { (g : Guest) (kind : Kind) → IsBefore g before.now → tally_of counts.now ≡ tallied kind no_steps → result ≡ head_of number g kind }
    ensures short { length result ≤ 190 }
{
    let mut line = number_column(number);
    put_part(&mut line, kind_name(counts).as_bytes());
    put_blanks(&mut line, KINDS_END);
    put_part(&mut line, mode_name(before.psl.current()));
    put_part(&mut line, address(before.r[15]).bytes());
    put_part(&mut line, instruction_in(counts, before.text.bytes()));
    line
}

/// A word for the step's note, each register and the PSL that it changed, and what it showed.
fn words(before: &Before, watched: &Watched, after: &GuestState) -> StepLine
    ensures words { (g : Guest) → IsBefore g before.now → DescribesStep g watched.now → state_of after.now ≡ (step g).guest.state → result ≡ step_words g (step g) }
    ensures short { length result ≤ 260 }
{
    let mut line = Text::new();
    put_note(&mut line, watched.note);
    put_registers(&mut line, &before.r, &after.r);
    put_changed(&mut line, b"PSL", before.psl.0, after.psl.0);
    put_shown(&mut line, watched.shown.bytes());
    line
}

/// Words after a head, in their column, and a line feed.
fn joined(head: StepLine, words: &[u8]) -> StepLine
    requires short { length head ≤ 190 }
    requires few { length words.now ≤ 260 }
    ensures { result ≡ head_and_words head words.now }
{
    let mut line = head;
    if words.is_empty() {
        line.append(b"\n");
        return line;
    }
    put_blanks(&mut line, WORDS);
    line.append(words);
    line.append(b"\n");
    line
}

/// The line of a guest's step: of what it was before, what the step was, and what it is after it.
#[tactic(auto, unfolding(crate::specs::TraceLine::trace_line))]
pub fn step_line(number: u32, before: &Before, watched: &Watched, after: &GuestState) -> StepLine
    requires { number ≤ 100000 }
    ensures { (g : Guest) → IsBefore g before.now → DescribesStep g watched.now → state_of after.now ≡ (step g).guest.state → result ≡ trace_line number g (step g) }
{
    let words = words(before, watched, after);
    joined(head(number, before, &watched.counts), words.bytes())
}

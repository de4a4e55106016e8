//! In which order lines and the sink are put to, and how often. When `live` asks for lines, reports what says no event, and shows what
//! terminals are shown; and how much it reads for that.
use super::noting::{ERRORS, FETCH, KEYS, LENGTH, OUT, PAGES, READ, noted};
use std::alloc::Global;
use vax_cpu::Cpu;

/// A guest with its console on line 4 and its dump on line 2, an audit on line 9, and a terminal at the server on line 6.
const CONFIG: &[u8] = b"version = 1\nquantum = 5\nslice = 2
[audit]\nline = 9\nclass = \"15{};0{}\"
[[terminal]]\nname = \"T\"\nline = 4\nclass = \"0{};0{}\"
[[terminal]]\nname = \"U\"\nline = 6\nclass = \"0{};0{}\"
[[guest]]\nname = \"A\"\nclass = \"0{};0{}\"\npages = 64\nimage = \"x\"\nload = 512\nstart = 512\nautostart = true
console = \"T\"\ndump = 2\n";

/// SHOW has a line for the guest, and its reply. The other terminal has the guest's console, which is taken from it.
const SCRIPT: &[u8] = b"1 U > SHOW\n2 U > FOO\n2 U > CONNECT A\n";

/// MTPR of the letter A to the transmit register, and HALT.
const LETTER: &[u8] = &[0xDA, 0x8F, 0x41, 0, 0, 0, 0x23, 0];

/// A source.
const SOURCE: &[u8] = b"NOP\n";

/// The configuration, its script, the source, and the guest's image.
pub const FILES: [(&str, &[u8]); 4] = [("c", CONFIG), ("s", SCRIPT), ("t", SOURCE), ("x", LETTER)];

/// A call that is noted, and how often it follows upon itself.
type Calls = (u8, usize);

/// Three files are fetched. Round 1: two lines of SHOW and the audit; the letter and the 14 bytes of the message of HALT. Round 2: the
/// reply and the audit; the reply, the other terminal's notice, and the audit. Then the dump: the name, 16 registers, PSL, and the one
/// row of memory that isn't zero. Then the summary.
const SCRIPTED: [Calls; 13] = [
    (FETCH + b'c', 1),
    (FETCH + b's', 1),
    (FETCH + b'x', 1),
    (6, 2),
    (9, 1),
    (4, 15),
    (6, 1),
    (9, 1),
    (6, 1),
    (4, 1),
    (9, 1),
    (2, 19),
    (OUT, 1),
];

/// What is typed, line by line; the end of it ends round 2.
const TYPED: [&[u8]; 5] = [b"U > SHOW", b"U brake", b"", b"U > FOO", b"U > CONNECT A"];

/// Two files are fetched, and the lengths of both terminals' lines asked for. Round 1: three lines are asked for, of which the second
/// is reported at once. Then the round's puts; then of each terminal's line its length, and in one piece what is new, which goes to
/// the sink in one put. Round 2 is begun by two lines and ended by the end; both terminals' lines have something new. Then the dump,
/// and the summary.
const LIVE: [Calls; 30] = [
    (FETCH + b'c', 1),
    (FETCH + b'x', 1),
    (LENGTH + 4, 1),
    (LENGTH + 6, 1),
    (KEYS, 2),
    (ERRORS, 1),
    (KEYS, 1),
    (6, 2),
    (9, 1),
    (4, 15),
    (LENGTH + 4, 1),
    (READ + 4, 1),
    (OUT, 1),
    (LENGTH + 6, 1),
    (READ + 6, 1),
    (OUT, 1),
    (KEYS, 3),
    (6, 1),
    (9, 1),
    (6, 1),
    (4, 1),
    (9, 1),
    (LENGTH + 4, 1),
    (READ + 4, 1),
    (OUT, 1),
    (LENGTH + 6, 1),
    (READ + 6, 1),
    (OUT, 1),
    (2, 19),
    (OUT, 1),
];

/// How many of the first notes are this one.
fn repeats(notes: &[u8], number: u8) -> usize {
    notes.iter().take_while(|note| **note == number).count()
}

/// Whether these calls are noted, one after the other.
fn are_noted(notes: &[u8], calls: &[Calls]) -> bool {
    let mut rest = notes;
    for (number, times) in calls {
        if repeats(rest, *number) != *times {
            return false;
        }
        rest = rest.get(*times..).unwrap_or(&[]);
    }
    rest.is_empty()
}

/// Whether words are done by these calls.
fn are_called(alloc: Global, words: &str, typed: &[&[u8]], calls: &[Calls]) -> Option<bool> {
    let mut machine = Cpu::new(alloc, PAGES).ok()?;
    let (code, notes) = noted(alloc, &mut machine, words, &FILES, typed)?;
    Some(code == 0 && are_noted(notes.as_slice(), calls))
}

#[test]
fn lines_are_put_to_in_order_and_the_sink_at_last(rt: HostRuntime) {
    assert!(rt; are_called(rt.alloc(), "run c s 2", &[], &SCRIPTED) == Some(true));
}

#[test]
fn a_line_is_asked_for_when_the_last_is_done_and_what_is_new_is_read_once(rt: HostRuntime) {
    assert!(rt; are_called(rt.alloc(), "live c 9", &TYPED, &LIVE) == Some(true));
}

//! What is said of a line, a drive, the sink, or the reports on typed lines after a call.

use crate::told::Told;

/// Of what something is said.
#[derive(Clone, Copy, PartialEq)]
pub enum Subject {
    Line(usize),
    Drive(usize),
    Out,
    Errors,
}

/// What is said of it by bytes that follow.
#[derive(Clone, Copy)]
pub enum Relation {
    Is,
    Has,
    Begins,
}

/// What a subject holds after a call.
pub fn held(told: &Told, subject: Subject) -> &[u8] {
    match subject {
        Subject::Line(number) => told.line(number),
        Subject::Drive(number) => told.drive(number),
        Subject::Out => told.out.as_slice(),
        Subject::Errors => told.errors.as_slice(),
    }
}

/// Whether the code and the text of standard error are these: the code, a blank, and the text.
pub fn is_coded(told: &Told, answer: &str) -> bool {
    let (code, text) = answer.split_once(' ').unwrap_or((answer, ""));
    code.parse() == Ok(told.code) && told.text.as_slice() == text.as_bytes()
}

/// Whether a call answers this. One that is refused shows nothing; of one that isn't, the text is what the sink shows,
/// without the end of its line.
pub fn answers(told: &Told, answer: &str) -> bool {
    let shown = told.out.as_slice();
    match answer.strip_prefix("0 ") {
        Some(text) => {
            told.code == 0 && shown.strip_suffix(b"\n").unwrap_or(shown) == text.as_bytes()
        }
        None => {
            is_coded(told, answer)
                && shown.is_empty()
                && (0..32).all(|number| told.line(number).is_empty())
        }
    }
}

/// The subject that words begin with, and the words after it.
pub fn subject_in(line: &str) -> Option<(Subject, &str)> {
    if let Some(rest) = line.strip_prefix("out ") {
        return Some((Subject::Out, rest));
    }
    if let Some(rest) = line.strip_prefix("errors ") {
        return Some((Subject::Errors, rest));
    }
    let (what, rest) = line.split_once(' ')?;
    let (number, rest) = rest.split_once(' ')?;
    let number = number.parse::<usize>().ok()?;
    match what {
        "line" if number < 32 => Some((Subject::Line(number), rest)),
        "drive" if number < 16 => Some((Subject::Drive(number), rest)),
        _ => None,
    }
}

/// A relation to bytes that follow.
pub fn relation_in(text: &str) -> Option<Relation> {
    match text {
        "is" => Some(Relation::Is),
        "has" => Some(Relation::Has),
        "begins" => Some(Relation::Begins),
        _ => None,
    }
}

/// Whether the relation holds between what is held and these bytes. Only text is looked for in text.
pub fn is_related(held: &[u8], relation: Relation, bytes: &[u8]) -> bool {
    match relation {
        Relation::Is => held == bytes,
        Relation::Begins => held.starts_with(bytes),
        Relation::Has => match (str::from_utf8(held), str::from_utf8(bytes)) {
            (Ok(text), Ok(part)) => text.contains(part),
            _ => false,
        },
    }
}

/// A number that stands for bytes in their order: from 0 on, 31 times the number and the next byte, modulo 2^64.
pub fn digest_of(bytes: &[u8]) -> u64 {
    let mut digest = 0u64;
    for byte in bytes {
        digest = digest.wrapping_mul(31).wrapping_add(u64::from(*byte));
    }
    digest
}

/// Whether these are exactly the first `length` bytes of others.
pub fn is_front(held: &[u8], length: usize, whole: &[u8]) -> bool {
    whole.get(..length) == Some(held)
}

/// Whether the first `length` bytes are those of others, and all after them this byte.
pub fn is_mixed(held: &[u8], length: usize, byte: u8, whole: &[u8]) -> bool {
    let rest = held.get(length..).unwrap_or(&[]);
    held.len() >= length
        && held.get(..length) == whole.get(..length)
        && rest.iter().all(|other| *other == byte)
}

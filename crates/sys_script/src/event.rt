use crate::LineText;
use thiserror::Error;
use vv_base::Name;

/// What happens at a terminal.
#[derive(Drop)]
pub enum Typed {
    /// The terminal is given a break.
    Break,
    /// A line is typed.
    Line(LineText),
}

/// Something that happens at the beginning of a round, 1 to 1,000,000.
#[derive(Drop)]
pub struct Event {
    pub round: u32,
    pub terminal: Name,
    pub what: Typed,
}

/// Why a line is refused: the first that applies.
#[derive(Clone, Copy, Debug, PartialEq, Eq)]
pub enum ScriptKind {
    /// It doesn't begin with a number from 1 to 1,000,000.
    BadRound,
    /// A terminal's name doesn't follow.
    BadName,
    /// Neither `break` nor the sign `>` with a text follows.
    BadEvent,
    /// The text has over 1,000 bytes, or one that isn't from hexadecimal 20 to 7E.
    BadText,
    /// The round is lower than that of the event before.
    RoundFalls,
}

/// A line that is refused. Lines are numbered from 1.
#[derive(Clone, Copy, Debug, PartialEq, Eq)]
pub struct ScriptFault {
    pub line: u32,
    pub kind: ScriptKind,
}

/// Why a script isn't read.
#[derive(Clone, Copy, Debug, PartialEq, Eq, Error)]
pub enum ScriptError {
    #[error("line {} of the script: {:?}", .0.line, .0.kind)]
    Fault(ScriptFault),
    #[error("no memory")]
    NoMemory,
}

/// Why a line that is typed without its round says no event.
#[derive(Clone, Copy, Debug, PartialEq, Eq)]
pub enum TypedError {
    /// The line is refused: the first kind that applies, which is never of a round.
    Refused(ScriptKind),
    /// Memory ran out.
    NoMemory,
}

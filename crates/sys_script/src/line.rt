ghost use Rattle.std.specs.List.{list_all, position};
ghost use Rattle.std.specs.Prelude.{◌≡◌, ◌<◌, ◌==◌, ◌-◌, ◌^◌, IfErr, IfOk, IfSome, IsTrue, length, min, option_map};
ghost use Rattle.sys_script.specs.Answers.{IsScriptAnswer};
ghost use Rattle.sys_script.specs.Asked.{typed_as_asked};
ghost use Rattle.sys_script.specs.EventLine.{after_blank, event_in, front, is_allowed, round_in, what_in};
ghost use Rattle.sys_script.specs.Script.{at_script_line, reported_fault};
ghost use Rattle.sys_script.specs.Texts.{is_text_character};
ghost use Rattle.sys_script.specs.Typed.{ReadsTyped, typed_in};

use crate::{Event, LineText, ScriptError, ScriptFault, ScriptKind, Typed, TypedError};
use std::alloc::Global;
use vv_base::{find, object_name, read_decimal};

/// The last round of which a script may speak.
pub const LAST_ROUND: u64 = 1_000_000;

/// How many bytes a typed line has at most.
pub const MOST_TYPED: usize = 1000;

/// What a line asks for, over the script's bytes.
#[derive(Clone, Copy)]
enum Asked<'a> {
    Break,
    Line(&'a [u8]),
}

/// What comes up to the first blank, and after it.
pub fn cut(text: &[u8]) -> (&[u8], &[u8])
    ensures before { result.0.now ≡ front text.now }
    ensures after { result.1.now ≡ after_blank text.now }
{
    match find(text, b' ') {
        Some(at) => (&text[..at], &text[at + 1..]),
        None => (text, &[]),
    }
}

fn round_in(text: &[u8]) -> Option<u32>
    ensures { result ≡ round_in text.now }
{
    match read_decimal(text, LAST_ROUND) {
        Some(round) if 1 <= round => Some(round as u32),
        _ => None,
    }
}

fn what_in(text: &[u8]) -> Option<Asked<'_>>
    ensures { option_map typed_as_asked result ≡ what_in text.now }
{
    match text {
        b"break" => Some(Asked::Break),
        [b'>'] => Some(Asked::Line(&[])),
        [b'>', b' ', line @ ..] => Some(Asked::Line(line)),
        _ => None,
    }
}

fn are_shown(text: &[u8]) -> bool
    ensures { result ≡ list_all is_text_character text.now }
{
    text.iter().all(|b| 0x20 <= *b && *b <= 0x7E)
}

fn is_allowed(asked: Asked) -> bool
    ensures { result ≡ is_allowed (typed_as_asked asked.entry) }
{
    match asked {
        Asked::Break => true,
        Asked::Line(text) => text.len() <= MOST_TYPED && are_shown(text),
    }
}

/// A copy of what is asked for.
fn kept(alloc: Global, asked: Asked) -> Result<Typed, ScriptError>
    requires { IsTrue (is_allowed (typed_as_asked asked)) }
    ensures ok { IfOk result (λ typed. typed ≡ typed_as_asked asked.entry) }
    ensures err { IfErr result (λ e. e ≡ ScriptError.NoMemory) }
{
    match asked {
        Asked::Break => Ok(Typed::Break),
        Asked::Line(text) => match LineText::new(alloc, text) {
            Ok(text) => Ok(Typed::Line(text)),
            Err(_) => Err(ScriptError::NoMemory),
        },
    }
}

fn fault(number: usize, kind: ScriptKind) -> ScriptError
    ensures { result ≡ ScriptError.Fault (record { line = min number (2 ^ 32 - 1); kind = kind }) }
{
    ScriptError::Fault(ScriptFault {
        line: number.min(u32::MAX as usize) as u32,
        kind,
    })
}

/// The event that a line says, where the event before it is of the round `last`.
#[tactic(auto, unfolding(crate::specs::EventLine::event_in))]
pub(crate) fn read_event(
    alloc: Global,
    number: usize,
    last: u32,
    line: &[u8],
) -> Result<Event, ScriptError>
    ensures { IsScriptAnswer (λ event. event) (reported_fault (at_script_line number (event_in last line.now))) result }
{
    let (round, rest) = cut(line);
    let Some(round) = round_in(round) else {
        return Err(fault(number, ScriptKind::BadRound));
    };
    let (name, what) = cut(rest);
    let Some(terminal) = object_name(name) else {
        return Err(fault(number, ScriptKind::BadName));
    };
    let Some(asked) = what_in(what) else {
        return Err(fault(number, ScriptKind::BadEvent));
    };
    if !is_allowed(asked) {
        return Err(fault(number, ScriptKind::BadText));
    }
    if round < last {
        return Err(fault(number, ScriptKind::RoundFalls));
    }
    let what = kept(alloc, asked)?;
    Ok(Event {
        round,
        terminal,
        what,
    })
}

/// The event that a line says in a round, which it doesn't name.
#[tactic(auto, unfolding(crate::specs::Typed::typed_in))]
pub fn read_typed(alloc: Global, round: u32, line: &[u8]) -> Result<Event, TypedError>
    ensures { ReadsTyped (typed_in round line.now) result }
{
    let (name, what) = cut(line);
    let Some(terminal) = object_name(name) else {
        return Err(TypedError::Refused(ScriptKind::BadName));
    };
    let Some(asked) = what_in(what) else {
        return Err(TypedError::Refused(ScriptKind::BadEvent));
    };
    if !is_allowed(asked) {
        return Err(TypedError::Refused(ScriptKind::BadText));
    }
    match kept(alloc, asked) {
        Ok(what) => Ok(Event {
            round,
            terminal,
            what,
        }),
        Err(_) => Err(TypedError::NoMemory),
    }
}

ghost use Rattle.std.specs.List.{position};
ghost use Rattle.std.specs.Prelude.{◌≡◌, ◌<◌, ◌==◌, ◌^◌, [], ◌∷◌, IfOk, IfSome, List, length};
ghost use Rattle.std.specs.Option.{option_map_or};
ghost use Rattle.std.specs.Str.Lines.{lines, strip_carriage_return};
ghost use Rattle.sys_script.specs.Answers.{IsScriptAnswer};
ghost use Rattle.sys_script.specs.Events.{AreEvents};
ghost use Rattle.sys_script.specs.Script.{is_passed_over, reported_fault, script_of};
ghost use Rattle.sys_script.specs.Written.{script_text};

use crate::line::read_event;
use crate::{Event, ScriptError};
use std::alloc::Global;
use vv_base::first_line;

/// The first line, without its end, and what follows it.
fn next_line(text: &[u8]) -> Option<(&[u8], &[u8])>
    ensures first { lines text.now ≡ option_map_or (λ p. p.0.now ∷ lines p.1.now) result [] }
    ensures shorter { IfSome result (λ p. length p.1.now < length text.now) }
{
    if text.is_empty() {
        return None;
    }
    Some(first_line(text))
}

/// Whether a line is empty, or a comment.
pub fn is_passed_over(line: &[u8]) -> bool
    ensures { result ≡ is_passed_over line.now }
{
    matches!(line, [] | [b'#', ..])
}

/// The events of a script in its order, or the first line that is refused, and why. A line's number is reported as 2^32 - 1 where
/// it is greater; a script of fewer than 2^32 bytes has no such line.
#[tactic(auto, using(crate::proofs::Reading::begins))]
pub fn read_script(alloc: Global, b: &[u8]) -> Result<Vec<Event>, ScriptError>
    ensures exact { length b.now < 2 ^ 32 → IsScriptAnswer (λ events. events.items) (script_of b.now) result }
    ensures any_length { IsScriptAnswer (λ events. events.items) (reported_fault (script_of b.now)) result }
    ensures events { IfOk result (λ events. AreEvents events.items) }
{
    let mut events = Vec::new(alloc);
    let mut rest = b;
    let mut number = 0;
    let mut last = 0;
    while let Some((line, later)) = next_line(rest) {
        number += 1;
        rest = later;
        if is_passed_over(line) {
            continue;
        }
        let event = read_event(alloc, number, last, line)?;
        last = event.round;
        if events.push(event).is_err() {
            return Err(ScriptError::NoMemory);
        }
    }
    Ok(events)
}

/// Each list of events whose rounds never fall is the meaning of its text.
#[tactic(auto, using(crate::proofs::WrittenAgain::written_is_read))]
pub fn script_law()
    ensures { (events : List Event) → AreEvents events → script_of (script_text events) ≡ Ok events }
{}

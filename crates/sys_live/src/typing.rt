ghost use Rattle.std.specs.Prelude.{◌≡◌, ◌≤◌, ◌++◌, [], All, Err, IfOk, OnErr, OnOk, true};
ghost use Rattle.sys_devices.specs.Shows.{ShowsUnlessMarked};
ghost use Rattle.sys_live.specs.Typing.{TypesRound};
ghost use Rattle.sys_script.specs.Typed.{if_said, says_event, typed_in, refusal_message, why_not};
ghost use Rattle.sys_script.specs.Events.{IsEvent};
ghost use Rattle.sys_system.specs.Calls.{AreOf};

use std::alloc::Global;
use sys_script::{Event, ScriptKind, TypedError, is_passed_over, kind_text, read_typed};
use vv_base::{NoMemory, Text, decimal};
use vv_io::{KeyFault, Keyboard, Sink};

/// The state of the typing after a round's lines.
#[derive(Clone, Copy, Debug, PartialEq, Eq)]
pub enum Typing {
    /// An empty line ended the round.
    GoesOn,
    /// No more lines come.
    Over,
    /// The keyboard failed, or 4,294,967,295 lines were taken.
    Broken,
    /// Memory ran out for a line that says an event.
    Lost,
}

/// How many lines were taken, and whether a report on them is cut.
#[derive(Clone, Copy, Debug, PartialEq, Eq)]
pub struct Count {
    pub lines: u32,
    pub is_cut: bool,
}

/// What was typed for a round.
#[derive(Drop)]
pub struct TypedRound {
    pub events: Vec<Event>,
    pub typing: Typing,
}

/// Why the line of a number says no event.
fn why_not(number: u32, kind: ScriptKind) -> Text<64>
    ensures { result ≡ why_not number (Err kind) }
{
    let mut text = Text::new();
    text.append(b"vvmm: typed line ");
    text.append(decimal(u64::from(number)).bytes());
    text.append(b" ");
    text.append(kind_text(kind));
    text.append(b"\n");
    text
}

/// Reports why the last line says no event, where nothing was cut before.
fn tell<E: Sink>(count: &mut Count, kind: ScriptKind, errors: &mut E)
    ensures tells { ShowsUnlessMarked count.old.is_cut count.new.is_cut (E.printed errors.old) (E.printed errors.new) (why_not count.old.lines (Err kind)) }
    ensures lines { count.new.lines ≡ count.old.lines }
{
    if !count.is_cut {
        count.is_cut = errors.put(why_not(count.lines, kind).bytes()).is_err();
    }
}

/// Takes the last line, which isn't empty: what it says is one event more, or why it says none is reported.
fn take_line<E: Sink>(
    alloc: Global,
    round: u32,
    line: &[u8],
    count: &mut Count,
    events: &mut Vec<Event>,
    errors: &mut E,
) -> Result<(), NoMemory>
    ensures ok { IfOk result (λ _. events.new.items ≡ events.old.items ++ if_said (typed_in round line.now) []) }
    ensures err { OnErr result ((events.new.items ≡ events.old.items) × (says_event line.now ≡ true)) }
    ensures tells { OnOk result (ShowsUnlessMarked count.old.is_cut count.new.is_cut (E.printed errors.old) (E.printed errors.new) (refusal_message count.old.lines line.now)) }
    ensures untold { OnErr result ((E.printed errors.new ≡ E.printed errors.old) × (count.new.is_cut ≡ count.old.is_cut)) }
    ensures lines { count.new.lines ≡ count.old.lines }
{
    if is_passed_over(line) {
        return Ok(());
    }
    match read_typed(alloc, round, line) {
        Ok(event) => {
            events.push(event)?;
            Ok(())
        }
        Err(TypedError::Refused(kind)) => {
            tell(count, kind, errors);
            Ok(())
        }
        Err(TypedError::NoMemory) => Err(NoMemory),
    }
}

/// Takes the lines of a round, up to the empty line that ends it, or as far as lines come. Each that says no event is reported at
/// once, before the next is waited for. Nothing is put on `out` meanwhile.
pub fn read_round<K: Keyboard<O>, E: Sink, O: Sink>(
    alloc: Global,
    round: u32,
    count: &mut Count,
    keyboard: &mut K,
    errors: &mut E,
    out: &O,
) -> TypedRound
    requires from { 1 ≤ round }
    requires to { round ≤ 1000000 }
    ensures types { TypesRound round (O.printed out.now) count.old count.new result (record { keys = K.keys keyboard.old; keys' = K.keys keyboard.new; errors = E.printed errors.old; errors' = E.printed errors.new }) }
    ensures each { All IsEvent result.events.items }
    ensures round { AreOf round result.events.items }
{
    let mut events = Vec::new(alloc);
    for lines in count.lines..u32::MAX {
        let line = match keyboard.next(out) {
            Ok(Some(line)) => line,
            Ok(None) => return ended(events, Typing::Over),
            Err(KeyFault) => return ended(events, Typing::Broken),
        };
        count.lines = lines + 1;
        if line.bytes().is_empty() {
            return ended(events, Typing::GoesOn);
        }
        if take_line(alloc, round, line.bytes(), count, &mut events, errors).is_err() {
            return ended(events, Typing::Lost);
        }
    }
    ended(events, Typing::Broken)
}

/// A round's events, and the state of the typing after them.
fn ended(events: Vec<Event>, typing: Typing) -> TypedRound
    ensures { result ≡ record { events = events; typing = typing } }
{
    TypedRound { events, typing }
}

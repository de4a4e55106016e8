ghost use Rattle.std.specs.Prelude.{◌≡◌, IfOk, bytes_eq, find};
ghost use Rattle.std.specs.Option.{option_copied};
ghost use Rattle.sys_purge.specs.Events.{is_kept_event, purge_events};

use std::alloc::Global;
use sys_objects::{Config, Terminal};
use sys_script::{Event, LineText, Typed};
use vv_base::{Name, NoMemory};
use vv_class::{AccessClass, flows};

fn terminal_of<'a>(terminals: &'a [Terminal], name: &Name) -> Option<&'a Terminal>
    ensures { option_copied result ≡ find (λ t. bytes_eq t.name name.now) terminals.now }
{
    terminals.iter().find(|t| t.name.bytes() == name.bytes())
}

fn is_kept_event(c: &Config, to: &AccessClass, e: &Event) -> bool
    ensures { result ≡ is_kept_event c.now to.now e.now }
{
    match terminal_of(c.terminals.as_slice(), &e.terminal) {
        Some(terminal) => flows(&terminal.class, to),
        None => false,
    }
}

fn what_of(alloc: Global, e: &Event) -> Result<Typed, NoMemory>
    ensures { IfOk result (λ what. what ≡ e.now.what) }
{
    match &e.what {
        Typed::Break => Ok(Typed::Break),
        Typed::Line(text) => Ok(Typed::Line(LineText::new(alloc, text.bytes())?)),
    }
}

/// The events at terminals that the configuration has and whose class flows into a class, in their order.
pub fn purge_events(
    alloc: Global,
    c: &Config,
    e: &[Event],
    to: &AccessClass,
) -> Result<Vec<Event>, NoMemory>
    ensures { IfOk result (λ kept. kept.items ≡ purge_events c.now e.now to.now) }
{
    let mut kept = Vec::new(alloc);
    for event in e {
        if is_kept_event(c, to, event) {
            kept.push(Event {
                round: event.round,
                terminal: event.terminal.copied(),
                what: what_of(alloc, event)?,
            })?;
        }
    }
    Ok(kept)
}

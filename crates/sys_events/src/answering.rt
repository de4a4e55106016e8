ghost use Rattle.std.specs.Prelude.{◌<◌, ◌≤◌, ◌∷◌, [], All, IfSome, length, slice_get};
ghost use Rattle.sys_events.specs.Saying.{answers, audits, taken_puts};
ghost use Rattle.sys_devices.specs.Shows.{Shows};
ghost use Rattle.sys_objects.specs.Condition.{IsAudit, IsTerminal};
ghost use Rattle.sys_state.specs.Events.{said_on};
ghost use Rattle.sys_state.specs.State.{bytes_on};

use crate::consoles::terminal_at;
use crate::texts::with_line_end;
use sys_audit::audit_text;
use sys_devices::{Marks, show_whole};
use sys_objects::{Config, Terminal};
use sys_server::{Verdict, reply};
use vv_io::Lines;

/// Puts a text of the server on a line, with its end.
pub fn say<L: Lines>(marks: &mut Marks, lines: &mut L, line: u8, text: &[u8])
    requires short { length text.now ≤ 100 }
    requires there { line < 32 }
    ensures { Shows marks.old marks.new (L.lines lines.old) (L.lines lines.new) (λ k. bytes_on k (said_on line text.now ∷ [])) }
{
    let text = with_line_end(text);
    show_whole(marks, lines, line, text.bytes());
}

/// Puts a notice at a terminal whose console was taken, if one was.
fn tell_taken<L: Lines>(marks: &mut Marks, lines: &mut L, config: &Config, taken: Option<u8>)
    requires { All IsTerminal config.now.terminals }
    ensures { Shows marks.old marks.new (L.lines lines.old) (L.lines lines.new) (λ k. bytes_on k (taken_puts config.now taken)) }
{
    if let Some(terminal) = taken {
        let terminals = config.terminals.as_slice();
        if (terminal as usize) < terminals.len() {
            let row = terminal_at(terminals, terminal);
            say(marks, lines, row.line, b"CONSOLE TAKEN");
        }
    }
}

/// Puts the reply to a command at the terminal of a place, and a notice at the other terminal whose console was taken.
pub fn answer<L: Lines>(
    marks: &mut Marks,
    lines: &mut L,
    config: &Config,
    terminal: u8,
    verdict: &Verdict,
    taken: Option<u8>,
)
    requires there { terminal < length config.now.terminals }
    requires terminals { All IsTerminal config.now.terminals }
    ensures { Shows marks.old marks.new (L.lines lines.old) (L.lines lines.new)
        (λ k. bytes_on k (answers config.now (slice_get config.now.terminals terminal) verdict.now taken)) }
{
    let row = terminal_at(config.terminals.as_slice(), terminal);
    say(marks, lines, row.line, reply(verdict).as_bytes());
    tell_taken(marks, lines, config, taken);
}

/// Puts the audit of a command at the terminal of a place, if commands are audited.
pub fn put_audit<L: Lines>(
    marks: &mut Marks,
    lines: &mut L,
    config: &Config,
    round: u32,
    terminal: u8,
    text: &[u8],
    verdict: &Verdict,
)
    requires there { terminal < length config.now.terminals }
    requires short { length text.now ≤ 1000 }
    requires audit { IfSome config.now.audit IsAudit }
    ensures { Shows marks.old marks.new (L.lines lines.old) (L.lines lines.new)
        (λ k. bytes_on k (audits config.now round (slice_get config.now.terminals terminal) text.now verdict.now)) }
{
    let row = terminal_at(config.terminals.as_slice(), terminal);
    if let Some(audit) = config.audit {
        let text = audit_text(round, row, text, verdict);
        show_whole(marks, lines, audit.line, text.bytes());
    }
}

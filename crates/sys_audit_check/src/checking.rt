ghost use Rattle.std.specs.Prelude.{◌≡◌, ◌≤◌, ◌<◌, ◌==◌, IfSome, bytes_eq, length, position};
ghost use Rattle.sys_audit_check.specs.Lines.{Checks, after_first_line, first_line};
ghost use Rattle.sys_audit_check.specs.Reading.{followed, followed_by};
ghost use Rattle.sys_audit_check.specs.Seen.{entry_view};
ghost use Rattle.sys_objects.specs.Condition.{IsConfig};

use crate::AuditFault;
use crate::reading::{Entry, entry_in, is_text};
use crate::replay::{Replay, after_verdict, opening};
use sys_audit::audit_text;
use sys_objects::Config;
use sys_server::verdict;

fn are_same(a: &[u8], b: &[u8]) -> bool
    ensures { result ≡ bytes_eq a.now b.now }
{
    a == b
}

/// The replay after a command, where the line is its record.
#[tactic(auto, unfolding(crate::specs::Reading::followed_by))]
fn followed_by(c: &Config, replay: &Replay, line: &[u8], e: Entry) -> Option<Replay>
    requires config { IsConfig c.now }
    requires there { e.terminal < length c.now.terminals }
    ensures { result ≡ followed_by c.now replay.now line.now (entry_view e.entry) }
{
    if e.round < replay.round || !is_text(e.text) {
        return None;
    }
    let terminal = &c.terminals.as_slice()[usize::from(e.terminal)];
    let verdict = verdict(c, &replay.server, e.terminal, e.text);
    let record = audit_text(e.round, terminal, e.text, &verdict);
    if !are_same(record.bytes(), line) {
        return None;
    }
    Some(Replay {
        round: e.round,
        server: after_verdict(&replay.server, e.terminal, &verdict),
    })
}

/// The replay after a line, where it is the record of a command.
fn followed(c: &Config, replay: &Replay, line: &[u8]) -> Option<Replay>
    requires { IsConfig c.now }
    ensures { result ≡ followed c.now replay.now line.now }
{
    followed_by(c, replay, line, entry_in(c, line)?)
}

fn find_line_feed(bytes: &[u8]) -> Option<usize>
    ensures value { result ≡ position (λ b. b == 10) bytes.now }
    ensures within { IfSome result (λ i. i < length bytes.now) }
{
    bytes.iter().position(|b| *b == b'\n')
}

/// The first line with its line feed, and what follows it.
fn cut_line(bytes: &[u8]) -> (&[u8], &[u8])
    ensures line { result.0.now ≡ first_line bytes.now }
    ensures later { result.1.now ≡ after_first_line bytes.now }
{
    match find_line_feed(bytes) {
        Some(at) => (&bytes[..at + 1], &bytes[at + 1..]),
        None => (bytes, &[]),
    }
}

/// Whether an audit line can have been shown the bytes, at most 16,777,216 of them, under the configuration. It takes no
/// memory. Each line is read once; its work grows with its length and with how many terminals, guests and volumes there
/// are.
pub fn check_audit(c: &Config, b: &[u8]) -> Result<(), AuditFault>
    requires config { IsConfig c.now }
    requires size { length b.now ≤ 16777216 }
    ensures { Checks c.now b.now result }
{
    let mut replay = opening(c);
    let mut rest = b;
    let mut line = 0;
    while !rest.is_empty() {
        line += 1;
        let (this, later) = cut_line(rest);
        let Some(next) = followed(c, &replay, this) else {
            return Err(AuditFault { line });
        };
        replay = next;
        rest = later;
    }
    Ok(())
}

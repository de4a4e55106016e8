ghost use Rattle.std.specs.List.{list_all};
ghost use Rattle.std.specs.Prelude.{◌≡◌, ◌≤◌, ◌<◌, ◌-◌, ◌==◌, IfSome, bytes_eq, drop, length, option_map, position};
ghost use Rattle.sys_audit_check.specs.Reading.{command_in, entry_in, reply_length, terminal_place, without_end};
ghost use Rattle.sys_audit_check.specs.Seen.{entry_view};
ghost use Rattle.sys_script.specs.Texts.{is_text, is_text_character};

use sys_objects::{Config, Terminal};
use sys_script::{LAST_ROUND, MOST_TYPED, cut};
use vv_base::read_decimal;
use vv_class::{AccessClass, write_class};

/// A command: its round, the place of its terminal, its text.
#[derive(Clone, Copy)]
pub struct Entry<'a> {
    pub round: u32,
    pub terminal: u8,
    pub text: &'a [u8],
}

/// What follows the first `count` bytes.
fn later(bytes: &[u8], count: usize) -> &[u8]
    ensures { result.now ≡ drop count bytes.now }
{
    &bytes[count.min(bytes.len())..]
}

/// What comes before the last two bytes.
fn without_end(bytes: &[u8]) -> &[u8]
    ensures { result.now ≡ without_end bytes.now }
{
    &bytes[..bytes.len().saturating_sub(2)]
}

/// How long the reply is that begins so.
fn reply_length(bytes: &[u8]) -> usize
    ensures value { result ≡ reply_length bytes.now }
    ensures bound { result ≤ 14 }
{
    match bytes {
        [] => 0,
        [b'O', ..] => 2,
        [b'B', ..] => 11,
        [b'N', ..] => 14,
        _ => 12,
    }
}

/// The command that comes after a class and a reply, and before CR and LF.
#[tactic(auto, unfolding(crate::specs::Reading::command_in))]
fn command_in<'a>(class: &AccessClass, bytes: &'a [u8]) -> &'a [u8]
    ensures { result.now ≡ command_in class.now bytes.now }
{
    let reply = later(bytes, write_class(class).bytes().len() + 1);
    without_end(later(reply, reply_length(reply) + 1))
}

fn is_named(t: &Terminal, name: &[u8]) -> bool
    ensures { result ≡ bytes_eq t.now.name name.now }
{
    t.name.bytes() == name
}

/// The place of the terminal of a name.
fn terminal_place(c: &Config, name: &[u8]) -> Option<usize>
    ensures value { result ≡ terminal_place c.now name.now }
    ensures within { IfSome result (λ n. n < length c.now.terminals) }
{
    c.terminals
        .as_slice()
        .iter()
        .position(|t| is_named(t, name))
}

/// What a line says, where it is a record.
#[tactic(auto, unfolding(crate::specs::Reading::entry_in))]
pub fn entry_in<'a>(c: &Config, line: &'a [u8]) -> Option<Entry<'a>>
    requires { length c.now.terminals ≤ 32 }
    ensures value { option_map entry_view result ≡ entry_in c.now line.now }
    ensures within { IfSome result (λ e. e.terminal < length c.now.terminals) }
{
    let (round, rest) = cut(line);
    let (name, rest) = cut(rest);
    let round = read_decimal(round, LAST_ROUND)?;
    let terminal = terminal_place(c, name)?;
    let class = c.terminals.as_slice()[terminal].class;
    Some(Entry {
        round: round as u32,
        terminal: terminal as u8,
        text: command_in(&class, rest),
    })
}

fn are_shown(text: &[u8]) -> bool
    ensures { result ≡ list_all is_text_character text.now }
{
    text.iter().all(|b| 0x20 <= *b && *b <= 0x7E)
}

/// Whether it is the text of a typed line.
pub fn is_text(text: &[u8]) -> bool
    ensures value { result ≡ is_text text.now }
{
    text.len() <= MOST_TYPED && are_shown(text)
}

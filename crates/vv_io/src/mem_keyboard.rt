ghost use Rattle.std.specs.Prelude.{◌≡◌, is_err};
ghost use Rattle.vv_io.specs.Keys.{Takes, given_of};
ghost use Rattle.vv_io.specs.Memory.{MemoryKeyboard, after_next, is_next_named, keys_of};

use crate::calls::{counted, is_named};
use crate::{History, KeyFault, KeyLine, Keyboard, Sink};
use std::marker::Model;

/// A keyboard in memory, whose calls fail as a list of their numbers says.
#[derive(Drop)]
pub struct MemKeyboard<O: Sink> {
    lines: Vec<Vec<u8>>,
    /// How many lines were given.
    given: usize,
    failing: Vec<u32>,
    calls: u64,
    faults: u64,
    outputs: History<O>,
}

impl<O: Sink> Model for MemKeyboard<O> {
    ghost use Rattle.std.specs.Prelude.{◌≤◌, drop, length, map};
    ghost use Rattle.vv_io.specs.Memory.{MemoryKeyboard};

    ghost Value = { MemoryKeyboard };

    ghost view = { λ m. record { coming = drop m.given (map (λ b. b.items) m.lines.items); failing = m.failing.items; calls = m.calls; faults = m.faults; outputs = map (λ o. O.printed o) m.outputs } };

    ghost invariant = { λ m. m.given ≤ length m.lines.items };
}

impl<O: Sink> MemKeyboard<O> {
    ghost use Rattle.std.specs.Prelude.{[], map};

    /// A keyboard at which these lines are typed. A call whose number, from 1, is in `failing` fails.
    pub fn new(lines: Vec<Vec<u8>>, failing: Vec<u32>) -> MemKeyboard<O>
        ensures { result ≡ record { coming = map (λ b. b.items) lines.items; failing = failing.items; calls = 0; faults = 0; outputs = [] } }
    {
        MemKeyboard {
            lines,
            given: 0,
            failing,
            calls: 0,
            faults: 0,
            outputs: History::new(),
        }
    }
}

/// The first bytes of a line, as many as are given.
fn given_of(line: &[u8]) -> KeyLine
    ensures { result ≡ given_of line.now }
{
    let mut given = KeyLine::new();
    given.append(&line[..line.len().min(1024)]);
    given
}

impl<O: Sink> Keyboard<O> for MemKeyboard<O> {
    ghost keys = { keys_of };

    fn next(&mut self, out: &O) -> Result<Option<KeyLine>, KeyFault>
        ensures takes { Takes (O.printed out.now) (keys_of self.old) (keys_of self.new) result }
        ensures exact { self.new ≡ after_next (O.printed out.now) self.old }
        ensures fails { is_err result ≡ is_next_named self.old.failing self.old.calls }
    {
        self.outputs.note(out);
        self.calls = counted(self.calls);
        if is_named(&self.failing, self.calls) {
            self.faults = counted(self.faults);
            return Err(KeyFault);
        }
        let Some(line) = self.lines.get(self.given) else {
            return Ok(None);
        };
        let line = given_of(line);
        self.given += 1;
        Ok(Some(line))
    }
}

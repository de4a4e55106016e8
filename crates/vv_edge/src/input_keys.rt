ghost use Rattle.std.specs.Prelude.{None, map};

use crate::faults::counted;
use crate::typed::without_return;
use std::io;
use std::io::{BufRead, Read};
use vv_io::{History, KeyFault, KeyLine, Keyboard, Sink};

/// Standard input as a keyboard. It is read when a line is asked for, and not before.
#[derive(Drop)]
pub struct InputKeys<B: BufRead + Drop, O: Sink> {
    input: B,
    faults: u64,
    outputs: History<O>,
}

impl<B: BufRead + Drop, O: Sink> InputKeys<B, O> {
    /// A keyboard that has not failed.
    pub fn new(input: B) -> Self {
        InputKeys {
            input,
            faults: 0,
            outputs: History::new(),
        }
    }
}

/// The next line without its end, which the last may lack; none at the end.
fn read_line<B: BufRead + Drop>(input: &mut B) -> io::Result<Option<KeyLine>> {
    let mut line = KeyLine::new();
    let mut is_end = true;
    for byte in input.bytes() {
        match byte? {
            b'\n' => return Ok(Some(without_return(line))),
            byte => {
                let _ = line.push(byte);
            }
        }
        is_end = false;
    }
    Ok(if is_end { None } else { Some(line) })
}

impl<B: BufRead + Drop, O: Sink> Keyboard<O> for InputKeys<B, O> {
    ghost keys = { λ k. record { coming = None; faults = k.faults; outputs = map (λ o. O.printed o) k.outputs } };

    fn next(&mut self, out: &O) -> Result<Option<KeyLine>, KeyFault> {
        self.outputs.note(out);
        let line = read_line(&mut self.input);
        counted(&mut self.faults, line, KeyFault)
    }
}

ghost use Rattle.std.specs.Prelude.{◌≤◌, length};
ghost use Rattle.vasm.specs.Assembled.{IsAssembled, IsAssembledText};
ghost use Rattle.vasm.specs.Labels.{label_address};

use crate::labels::{Labels, fault, labels_in};
use crate::line::line_in;
use crate::size::line_size;
use crate::statement::put_line;
use std::alloc::Global;
use vasm_text::{AsmError, AsmKind};
use vv_base::first_line;

/// The bytes of a text whose lines are of some form and whose labels have these addresses.
fn bytes_of(alloc: Global, text: &[u8], labels: &Labels) -> Result<Vec<u8>, AsmError>
    requires { length text.now ≤ 16777216 }
    ensures { IsAssembledText result (label_address labels.now) text.now }
{
    let mut bytes = Vec::new(alloc);
    let mut rest = text;
    let mut number: u32 = 1;
    let mut at: u32 = 0x200;
    while !rest.is_empty() {
        let (text, later) = first_line(rest);
        let Some(line) = line_in(text) else {
            return Err(fault(number, AsmKind::BadLine));
        };
        put_line(&mut bytes, labels, number, at, &line)?;
        at += line_size(&line);
        number += 1;
        rest = later;
    }
    Ok(bytes)
}

/// The bytes of a text of at most 16,777,216 bytes, or the first line that is refused and why.
pub fn assemble(alloc: Global, text: &[u8]) -> Result<Vec<u8>, AsmError>
    requires { length text.now ≤ 16777216 }
    ensures { IsAssembled result text.now }
{
    let labels = labels_in(alloc, text)?;
    bytes_of(alloc, text, &labels)
}

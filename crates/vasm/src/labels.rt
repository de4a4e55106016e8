ghost use Rattle.std.specs.Prelude.{◌≡◌, ◌≤◌, length};
ghost use Rattle.vasm.specs.Labels.{Adds, IsLabelled, label_address};
ghost use Rattle.std.specs.Option.{option_copied};

use crate::line::line_in;
use crate::size::line_size;
use std::alloc::Global;
use std::collections::BTreeMap;
use vasm_text::{AsmError, AsmFault, AsmKind};
use vv_base::first_line;

/// The addresses of the lines that names label.
pub(crate) type Labels<'a> = BTreeMap<&'a [u8], u32>;

/// A line that is refused.
pub(crate) fn fault(line: u32, kind: AsmKind) -> AsmError
    ensures { result ≡ AsmError.Fault (record { line = line; kind = kind }) }
{
    AsmError::Fault(AsmFault { line, kind })
}

/// The address of the line that a name labels.
pub(crate) fn address_of(labels: &Labels, name: &[u8]) -> Option<u32>
    ensures { result ≡ label_address labels.now name.now }
{
    labels.get(name).copied()
}

/// The label of a line at an address.
fn add_label<'a>(
    labels: &mut Labels<'a>,
    line: u32,
    label: Option<&'a [u8]>,
    at: u32,
) -> Result<(), AsmError>
    ensures { Adds line (option_copied label.entry) at labels.old labels.new result }
{
    let Some(name) = label else {
        return Ok(());
    };
    if address_of(labels, name).is_some() {
        return Err(fault(line, AsmKind::TwiceNamed));
    }
    labels.insert(name, at)?;
    Ok(())
}

/// The labels of a text's lines, where each line is of some form and no name labels two.
pub(crate) fn labels_in(alloc: Global, text: &[u8]) -> Result<Labels<'_>, AsmError>
    requires { length text.now ≤ 16777216 }
    ensures { IsLabelled result text.now }
{
    let mut labels = BTreeMap::new(alloc);
    let mut rest = text;
    let mut number: u32 = 1;
    let mut at: u32 = 0x200;
    while !rest.is_empty() {
        let (text, later) = first_line(rest);
        let Some(line) = line_in(text) else {
            return Err(fault(number, AsmKind::BadLine));
        };
        add_label(&mut labels, number, line.label, at)?;
        at += line_size(&line);
        number += 1;
        rest = later;
    }
    Ok(labels)
}

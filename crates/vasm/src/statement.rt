ghost use Rattle.std.specs.Prelude.{◌≡◌, ◌≤◌, ◌++◌, map, OnOk};
ghost use Rattle.vax_table.specs.Spelling.{bytes_of};
ghost use Rattle.vasm_text.specs.Asm.{field_value, known_statement_bytes, lacks_any, source_line_bytes, statement_bytes};
ghost use Rattle.vv_base.specs.Width.{size_of};
ghost use Rattle.vasm.specs.Views.{operand_view, source_line_view, statement_view};
ghost use Rattle.vasm.specs.Fits.{AreFit, IsSourceLineFit, IsStatementFit};
ghost use Rattle.vasm.specs.Labels.{label_address};
ghost use Rattle.vasm.specs.Puts.{AppendsOrRefuses};
ghost use Rattle.vasm_text.specs.Statements.{Instruct, forms_of};

use crate::labels::{Labels, fault};
use crate::line::Line;
use crate::operand::{field_value, lacks, lacks_any, put_operands};
use crate::parse_operand::Operand;
use crate::parse_statement::{Statement, forms_of};
use crate::put::{put_number, put_opcode};
use crate::size::opcode_size;
use vasm_text::{AsmError, AsmKind};
use vv_base::{NoMemory, Width};

/// Whether a name in a statement labels no line.
fn lacks_name(labels: &Labels, statement: &Statement) -> bool
    ensures { result ≡ lacks_any (label_address labels.now) (statement_view statement.now) }
{
    match statement {
        Statement::Field(_, operand) => lacks(labels, operand),
        Statement::Instruct(_, operands) => lacks_any(labels, operands.as_slice()),
    }
}

/// Appends a field.
fn put_field(
    bytes: &mut Vec<u8>,
    labels: &Labels,
    width: Width,
    operand: &Operand,
) -> Result<(), NoMemory>
    ensures { OnOk result (bytes.new.items ≡ bytes.old.items ++ bytes_of (size_of width) (field_value (label_address labels.now) (operand_view operand.now))) }
{
    put_number(bytes, width.bytes(), field_value(labels, operand))
}

/// Appends an instruction.
fn put_instruction(
    bytes: &mut Vec<u8>,
    labels: &Labels,
    line: u32,
    at: u32,
    opcode: u8,
    operands: &[Operand],
) -> Result<(), AsmError>
    requires fit { AreFit (forms_of opcode) (map operand_view operands.now) }
    requires low { at ≤ 3000000000 }
    ensures { AppendsOrRefuses line bytes.old.items bytes.new.items
        (known_statement_bytes (label_address labels.now) at (Instruct opcode (map operand_view operands.now))) result }
{
    put_opcode(bytes, opcode)?;
    put_operands(
        bytes,
        labels,
        line,
        at + opcode_size(opcode),
        forms_of(opcode).as_slice(),
        operands,
    )
}

/// Appends a statement at an address.
#[tactic(auto, unfolding(vasm_text::specs::Asm::statement_bytes))]
fn put_statement(
    bytes: &mut Vec<u8>,
    labels: &Labels,
    line: u32,
    at: u32,
    statement: &Statement,
) -> Result<(), AsmError>
    requires fit { IsStatementFit (statement_view statement.now) }
    requires low { at ≤ 3000000000 }
    ensures { AppendsOrRefuses line bytes.old.items bytes.new.items (statement_bytes (label_address labels.now) at (statement_view statement.now)) result }
{
    if lacks_name(labels, statement) {
        return Err(fault(line, AsmKind::NoName));
    }
    match statement {
        Statement::Field(width, operand) => {
            put_field(bytes, labels, *width, operand)?;
            Ok(())
        }
        Statement::Instruct(opcode, operands) => put_instruction(
            bytes,
            labels,
            line,
            at,
            *opcode,
            operands.as_slice(),
        ),
    }
}

/// Appends what a line at an address says.
pub(crate) fn put_line(
    bytes: &mut Vec<u8>,
    labels: &Labels,
    number: u32,
    at: u32,
    line: &Line,
) -> Result<(), AsmError>
    requires fit { IsSourceLineFit (source_line_view line.now) }
    requires low { at ≤ 3000000000 }
    ensures { AppendsOrRefuses number bytes.old.items bytes.new.items (source_line_bytes (label_address labels.now) at (source_line_view line.now)) result }
{
    match &line.statement {
        Some(statement) => put_statement(bytes, labels, number, at, statement),
        None => Ok(()),
    }
}

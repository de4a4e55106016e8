ghost use Rattle.std.specs.Prelude.{◌≡◌, ◌+◌, ◌*◌, ◌≤◌, length, is_some, map, if◌then◌else◌};
ghost use Rattle.vax_table.specs.Spelled.{spelled};
ghost use Rattle.vasm_text.specs.Asm.{opcode_bytes, operands_size, source_line_size, statement_size};
ghost use Rattle.vasm.specs.Views.{operand_view, source_line_view, statement_view};

use crate::line::Line;
use crate::parse_operand::Operand;
use crate::parse_statement::{Statement, forms_of};
use vax_table::{Access, Form, Spec, value_size};

/// How many bytes an index has.
fn index_size(index: Option<u8>) -> u8
    ensures value { result ≡ (if is_some index then 1 else 0) }
    ensures most { result ≤ 1 }
{
    match index {
        Some(_) => 1,
        None => 0,
    }
}

/// How many bytes an operand has.
#[tactic(auto, using(crate::proofs::Sizes::length_spelled))]
pub(crate) fn operand_size(form: Form, spec: &Spec) -> u32
    ensures value { result ≡ length (spelled form spec.now) }
    ensures most { result ≤ 10 }
{
    if form.access == Access::Branch {
        return u32::from(form.width.bytes());
    }
    u32::from(index_size(spec.index)) + 1 + u32::from(value_size(form, spec))
}

/// How many bytes operands of the forms have.
fn operands_size(forms: &[Form], operands: &[Operand]) -> u32
    requires { length forms.now ≤ 4 }
    ensures value { result ≡ operands_size forms.now (map operand_view operands.now) }
    ensures most { result ≤ 10 * length forms.now }
{
    if let [form, other_forms @ ..] = forms
        && let [operand, others @ ..] = operands
    {
        return operand_size(*form, &operand.spec) + operands_size(other_forms, others);
    }
    0
}

/// How many bytes an opcode has.
pub(crate) fn opcode_size(opcode: u8) -> u32
    ensures value { result ≡ length (opcode_bytes opcode) }
    ensures most { result ≤ 2 }
{
    if opcode == 0xFD { 2 } else { 1 }
}

/// How many bytes a statement has.
#[tactic(auto, unfolding(vasm_text::specs::Asm::statement_size))]
fn statement_size(statement: &Statement) -> u32
    ensures value { result ≡ statement_size (statement_view statement.now) }
    ensures most { result ≤ 64 }
{
    match statement {
        Statement::Field(width, _) => u32::from(width.bytes()),
        Statement::Instruct(opcode, operands) => {
            opcode_size(*opcode) + operands_size(forms_of(*opcode).as_slice(), operands.as_slice())
        }
    }
}

/// How many bytes a line has.
pub(crate) fn line_size(line: &Line) -> u32
    ensures value { result ≡ source_line_size (source_line_view line.now) }
    ensures most { result ≤ 64 }
{
    match &line.statement {
        Some(statement) => statement_size(statement),
        None => 0,
    }
}

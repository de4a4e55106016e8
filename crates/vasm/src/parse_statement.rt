ghost use Rattle.vasm_text.specs.Cutting.{before_mark};
ghost use Rattle.std.specs.Prelude.{◌≡◌, ◌≤◌, length, option_map};
ghost use Rattle.std.specs.Option.{option_copied};
ghost use Rattle.vv_base.specs.Width.{size_of};
ghost use Rattle.vasm_text.specs.Operands.{operands_in, text_after_comma};
ghost use Rattle.vasm_text.specs.Statements.{forms_of, instruction_in, long_field_in, number_field_in, statement_in, words_in};
ghost use Rattle.vasm.specs.Views.{operands_view, statement_view};

use crate::cutting::{cut_at, cut_blank};
use crate::numbers::field_in;
use crate::parse_operand::{Operand, plain};
use crate::specifier::{operand_in, value_in};
use arrayvec::ArrayVec;
use vasm_text::opcode;
use vax_table::{Form, row};
use vv_base::Width;

/// What a line says.
#[derive(Drop)]
pub enum Statement<'a> {
    /// A value in a field of the width.
    Field(Width, Operand<'a>),
    /// The instruction of an opcode, and its operands.
    Instruct(u8, ArrayVec<Operand<'a>, 4>),
}

/// The forms of an instruction's operands.
#[tactic(auto, unfolding(vasm_text::specs::Statements::forms_of))]
pub fn forms_of(opcode: u8) -> ArrayVec<Form, 4>
    ensures { result.items ≡ forms_of opcode }
{
    match row(opcode) {
        Some(row) => row.operands,
        None => ArrayVec::new(),
    }
}

/// What comes before the first comma, or all where there is none.
fn before_comma(text: &[u8]) -> &[u8]
    ensures { result.now ≡ before_mark 44 text.now }
{
    match cut_at(text, b',') {
        Some(pieces) => pieces.before,
        None => text,
    }
}

/// What follows the first comma.
fn after_comma(text: &[u8]) -> Option<&[u8]>
    ensures { option_copied result ≡ text_after_comma text.now }
{
    match cut_at(text, b',') {
        Some(pieces) => Some(pieces.later),
        None => None,
    }
}

/// Operands of the forms with commas between.
fn operands_in<'a>(forms: &[Form], text: Option<&'a [u8]>) -> Option<ArrayVec<Operand<'a>, 4>>
    requires { length forms.now ≤ 4 }
    ensures { option_map operands_view result ≡ operands_in forms.now (option_copied text.entry) }
{
    let mut operands: ArrayVec<Operand, 4> = ArrayVec::new();
    let mut rest = text;
    for form in forms {
        match rest {
            None => {
                return None;
            }
            Some(text) => {
                operands.push(operand_in(*form, before_comma(text))?);
                rest = after_comma(text);
            }
        }
    }
    match rest {
        Some(_) => None,
        None => Some(operands),
    }
}

/// An instruction by its name and its operands.
fn instruction_in<'a>(word: &[u8], text: Option<&'a [u8]>) -> Option<Statement<'a>>
    ensures { option_map statement_view result ≡ instruction_in word.now (option_copied text.entry) }
{
    let Some(opcode) = opcode(word) else {
        return None;
    };
    match operands_in(forms_of(opcode).as_slice(), text) {
        Some(operands) => Some(Statement::Instruct(opcode, operands)),
        None => None,
    }
}

/// A number in a field of the width.
fn number_field_in<'a>(width: Width, text: &[u8]) -> Option<Statement<'a>>
    ensures { option_map statement_view result ≡ number_field_in (size_of width) text.now }
{
    match field_in(width, text) {
        Some(n) => Some(Statement::Field(width, plain(16, 0, n))),
        None => None,
    }
}

/// A number or a name in a longword.
fn long_field_in(text: &[u8]) -> Option<Statement<'_>>
    ensures { option_map statement_view result ≡ long_field_in text.now }
{
    match value_in(Width::Long, text) {
        Some(operand) => Some(Statement::Field(Width::Long, operand)),
        None => None,
    }
}

/// A statement by its first word and what follows the blank.
#[tactic(auto, unfolding(vasm_text::specs::Statements::words_in))]
fn words_in<'a>(word: &[u8], text: Option<&'a [u8]>) -> Option<Statement<'a>>
    ensures { option_map statement_view result ≡ words_in word.now (option_copied text.entry) }
{
    match word {
        b".byte" => number_field_in(Width::Byte, text?),
        b".word" => number_field_in(Width::Word, text?),
        b".long" => long_field_in(text?),
        _ => instruction_in(word, text),
    }
}

/// The statement that a text is.
#[tactic(auto, unfolding(vasm_text::specs::Statements::statement_in))]
pub(crate) fn statement_in(text: &[u8]) -> Option<Statement<'_>>
    ensures { option_map statement_view result ≡ statement_in text.now }
{
    match cut_blank(text) {
        None => words_in(text, None),
        Some(pieces) => words_in(pieces.before, Some(pieces.later)),
    }
}

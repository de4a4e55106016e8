ghost use Rattle.std.specs.Option.{option_or};
ghost use Rattle.std.specs.Prelude.{◌≡◌, ◌+◌, ◌<◌, ◌≤◌, ◌==◌, ◌&&◌, ◌||◌, not, option_map};
ghost use Rattle.vv_base.specs.Width.{size_of};
ghost use Rattle.vax_table.specs.Reading.{is_address, is_quad};
ghost use Rattle.vasm_text.specs.Operands.{based, closed_in, deferred_in, direct_in, displaced_in, displacement_in, enclosed, indexed, indexed_in, literal_in, named_in, opened_in, operand_in, register_operand_in, specifier_in, value_in, valued_in};
ghost use Rattle.vasm.specs.Pieces.{cut_view};
ghost use Rattle.vasm.specs.Views.{operand_view};

use crate::cutting::{Pieces, cut_at};
use crate::numbers::{field_in, not_pc, number_in, register_in};
use crate::parse_operand::{Operand, plain, with_name};
use vax_table::{Access, Form, Spec};
use vv_base::{Width, object_name};

/// The name that a text is, in an operand of the mode.
fn named_in(mode: u8, reg: u8, text: &[u8]) -> Option<Operand<'_>>
    ensures { option_map operand_view result ≡ named_in mode reg text.now }
{
    match object_name(text) {
        Some(_) => Some(with_name(mode, reg, text)),
        None => None,
    }
}

/// The register before a closing mark that nothing but the ending follows.
#[tactic(auto, unfolding(vasm_text::specs::Operands::closed_in))]
fn closed_in(mark: u8, ending: &[u8], text: &[u8]) -> Option<u8>
    ensures { result ≡ closed_in mark ending.now text.now }
{
    match cut_at(text, mark) {
        Some(pieces) if pieces.later == ending => register_in(pieces.before),
        _ => None,
    }
}

/// A register and what closes it, after a parenthesis.
fn enclosed<'a>(mode: u8, ending: &[u8], text: &[u8]) -> Option<Operand<'a>>
    ensures { option_map operand_view result ≡ enclosed mode ending.now text.now }
{
    match not_pc(closed_in(b')', ending, text)) {
        Some(reg) => Some(plain(mode, reg, 0)),
        None => None,
    }
}

/// A literal.
#[tactic(auto, unfolding(vasm_text::specs::Operands::literal_in))]
fn literal_in<'a>(form: Form, text: &[u8]) -> Option<Operand<'a>>
    ensures { option_map operand_view result ≡ literal_in form text.now }
{
    if form.access != Access::Read {
        return None;
    }
    match number_in(text) {
        Some(n) if n < 64 => Some(plain(0, 0, n)),
        _ => None,
    }
}

/// A number in a field of the width, as the value of the mode and register.
fn field_operand_in<'a>(width: Width, mode: u8, reg: u8, text: &[u8]) -> Option<Operand<'a>>
    ensures { option_map operand_view result ≡ valued_in (size_of width) mode reg text.now }
{
    match field_in(width, text) {
        Some(n) => Some(plain(mode, reg, n)),
        None => None,
    }
}

/// A register operand.
fn register_operand_in<'a>(form: Form, text: &[u8]) -> Option<Operand<'a>>
    ensures { option_map operand_view result ≡ register_operand_in form text.now }
{
    match not_pc(register_in(text)) {
        Some(reg) if is_allowed(form, reg) => Some(plain(5, reg, 0)),
        _ => None,
    }
}

/// Whether a register may be an operand of the form.
fn is_allowed(form: Form, reg: u8) -> bool
    ensures { result ≡ not (is_address form.access || (is_quad form.width && reg == 14)) }
{
    form.access != Access::Address && !(form.width == Width::Quad && reg == 14)
}

/// N(R), after the sign of a displacement.
fn based<'a>(width: Width, mode: u8, pieces: Pieces) -> Option<Operand<'a>>
    ensures { option_map operand_view result ≡ based mode (size_of width) (cut_view pieces.entry) }
{
    match (
        field_in(width, pieces.before),
        closed_in(b')', b"", pieces.later),
    ) {
        (Some(value), Some(reg)) => Some(plain(mode, reg, value)),
        _ => None,
    }
}

/// N(R) or a name, in a mode with a displacement of the width.
#[tactic(auto, unfolding(vasm_text::specs::Operands::displaced_in))]
fn displaced_in(width: Width, mode: u8, text: &[u8]) -> Option<Operand<'_>>
    ensures { option_map operand_view result ≡ displaced_in mode (size_of width) text.now }
{
    match cut_at(text, b'(') {
        None => named_in(mode, 15, text),
        Some(pieces) => based(width, mode, pieces),
    }
}

/// A displacement; deferred is 1 after @, else 0.
#[tactic(auto, unfolding(vasm_text::specs::Operands::displacement_in))]
fn displacement_in(deferred: u8, text: &[u8]) -> Option<Operand<'_>>
    requires { deferred ≤ 1 }
    ensures { option_map operand_view result ≡ displacement_in deferred text.now }
{
    match text {
        [b'B', b'^', rest @ ..] => displaced_in(Width::Byte, 0xa + deferred, rest),
        [b'W', b'^', rest @ ..] => displaced_in(Width::Word, 0xc + deferred, rest),
        [b'L', b'^', rest @ ..] => displaced_in(Width::Long, 0xe + deferred, rest),
        _ => None,
    }
}

/// An operand after @.
#[tactic(auto, unfolding(vasm_text::specs::Operands::deferred_in))]
fn deferred_in(text: &[u8]) -> Option<Operand<'_>>
    ensures { option_map operand_view result ≡ deferred_in text.now }
{
    match text {
        [b'#', rest @ ..] => field_operand_in(Width::Long, 9, 15, rest),
        [b'(', rest @ ..] => enclosed(9, b"+", rest),
        _ => displacement_in(1, text),
    }
}

/// An operand after an opening parenthesis.
fn opened_in<'a>(text: &[u8]) -> Option<Operand<'a>>
    ensures { option_map operand_view result ≡ opened_in text.now }
{
    match enclosed(6, b"", text) {
        Some(operand) => Some(operand),
        None => enclosed(8, b"+", text),
    }
}

/// A displacement or a register.
fn bare_in(form: Form, text: &[u8]) -> Option<Operand<'_>>
    ensures { option_map operand_view result ≡ option_or (displacement_in 0 text.now) (register_operand_in form text.now) }
{
    match displacement_in(0, text) {
        Some(operand) => Some(operand),
        None => register_operand_in(form, text),
    }
}

/// An operand without @.
#[tactic(auto, unfolding(vasm_text::specs::Operands::direct_in))]
fn direct_in(form: Form, text: &[u8]) -> Option<Operand<'_>>
    ensures { option_map operand_view result ≡ direct_in form text.now }
{
    match text {
        [b'S', b'^', b'#', rest @ ..] => literal_in(form, rest),
        [b'I', b'^', b'#', rest @ ..] => field_operand_in(form.width, 8, 15, rest),
        [b'-', b'(', rest @ ..] => enclosed(7, b"", rest),
        [b'(', rest @ ..] => opened_in(rest),
        _ => bare_in(form, text),
    }
}

/// A specifier without index.
#[tactic(auto, unfolding(vasm_text::specs::Operands::specifier_in))]
fn specifier_in(form: Form, text: &[u8]) -> Option<Operand<'_>>
    ensures { option_map operand_view result ≡ specifier_in form text.now }
{
    match text {
        [b'@', rest @ ..] => deferred_in(rest),
        _ => direct_in(form, text),
    }
}

/// The operand with an index.
fn indexed(operand: Operand, x: u8) -> Option<Operand>
    ensures { option_map operand_view result ≡ indexed (operand_view operand.entry) x }
{
    let spec = operand.spec;
    if spec.mode < 6 || (spec.mode == 8 && spec.reg == 15) {
        return None;
    }
    Some(Operand {
        spec: Spec {
            index: Some(x),
            ..spec
        },
        name: operand.name,
    })
}

/// A specifier and its index.
fn indexed_in(form: Form, pieces: Pieces<'_>) -> Option<Operand<'_>>
    ensures { option_map operand_view result ≡ indexed_in form (cut_view pieces.entry) }
{
    let operand = specifier_in(form, pieces.before)?;
    let x = not_pc(closed_in(b']', b"", pieces.later))?;
    indexed(operand, x)
}

/// A number or a name in a field of the width.
#[tactic(auto, unfolding(vasm_text::specs::Operands::value_in))]
pub(crate) fn value_in(width: Width, text: &[u8]) -> Option<Operand<'_>>
    ensures { option_map operand_view result ≡ value_in (size_of width) text.now }
{
    match field_operand_in(width, 16, 0, text) {
        Some(operand) => Some(operand),
        None => named_in(16, 0, text),
    }
}

/// An operand of the form; None exactly where the text is none.
#[tactic(auto, unfolding(vasm_text::specs::Operands::operand_in))]
pub fn operand_in(form: Form, text: &[u8]) -> Option<Operand<'_>>
    ensures { option_map operand_view result ≡ operand_in form text.now }
{
    if form.access == Access::Branch {
        return value_in(form.width, text);
    }
    match cut_at(text, b'[') {
        None => specifier_in(form, text),
        Some(pieces) => indexed_in(form, pieces),
    }
}

ghost use Rattle.std.specs.Prelude.{◌≡◌, ◌+◌, ◌*◌, ◌≤◌, length, map};
ghost use Rattle.std.specs.List.{list_any};
ghost use Rattle.vasm_text.specs.Asm.{field_value, lacks, named_target, operands_bytes, resolved};
ghost use Rattle.vasm.specs.Views.{operand_view};
ghost use Rattle.vasm.specs.Fits.{AreFit};
ghost use Rattle.vasm.specs.Labels.{label_address};
ghost use Rattle.vasm.specs.Puts.{AppendsOrRefuses};

use crate::labels::{Labels, address_of, fault};
use crate::parse_operand::Operand;
use crate::put::put_operand;
use crate::reach::{field_width, reached};
use crate::size::operand_size;
use vasm_text::{AsmError, AsmKind};
use vax_table::{Form, Spec};

/// The value of a name that labels a line, else 0.
fn target_of(labels: &Labels, name: &[u8]) -> u32
    ensures { result ≡ named_target (label_address labels.now) name.now }
{
    match address_of(labels, name) {
        Some(at) => at,
        None => 0,
    }
}

/// The specifier of an operand that ends before an address.
#[tactic(auto, unfolding(vasm_text::specs::Asm::resolved))]
fn resolved(labels: &Labels, later: u32, form: Form, operand: &Operand) -> Result<Spec, AsmKind>
    ensures { result ≡ resolved (label_address labels.now) later form (operand_view operand.now) }
{
    match operand.name {
        None => Ok(operand.spec),
        Some(name) => reached(
            field_width(form, &operand.spec),
            operand.spec,
            target_of(labels, name),
            later,
        ),
    }
}

/// Appends operands of the forms; they begin at an address.
pub(crate) fn put_operands(
    bytes: &mut Vec<u8>,
    labels: &Labels,
    line: u32,
    at: u32,
    forms: &[Form],
    operands: &[Operand],
) -> Result<(), AsmError>
    requires fit { AreFit forms.now (map operand_view operands.now) }
    requires low { at + 16 * length forms.now ≤ 4000000000 }
    ensures { AppendsOrRefuses line bytes.old.items bytes.new.items
        (operands_bytes (label_address labels.now) at forms.now (map operand_view operands.now)) result }
{
    if let [form, other_forms @ ..] = forms
        && let [operand, others @ ..] = operands
    {
        let later = at + operand_size(*form, &operand.spec);
        match resolved(labels, later, *form, operand) {
            Ok(spec) => {
                put_operand(bytes, *form, &spec)?;
            }
            Err(kind) => {
                return Err(fault(line, kind));
            }
        }
        return put_operands(bytes, labels, line, later, other_forms, others);
    }
    Ok(())
}

/// Whether a name in an operand labels no line.
pub(crate) fn lacks(labels: &Labels, operand: &Operand) -> bool
    ensures { result ≡ lacks (label_address labels.now) (operand_view operand.now) }
{
    match operand.name {
        Some(name) => address_of(labels, name).is_none(),
        None => false,
    }
}

/// Whether a name in one of the operands labels no line.
pub(crate) fn lacks_any(labels: &Labels, operands: &[Operand]) -> bool
    ensures { result ≡ list_any (lacks (label_address labels.now)) (map operand_view operands.now) }
{
    if let [operand, others @ ..] = operands {
        return lacks(labels, operand) || lacks_any(labels, others);
    }
    false
}

/// A number, or the value of a name.
pub(crate) fn field_value(labels: &Labels, operand: &Operand) -> u64
    ensures { result ≡ field_value (label_address labels.now) (operand_view operand.now) }
{
    match operand.name {
        None => operand.spec.value,
        Some(name) => u64::from(target_of(labels, name)),
    }
}

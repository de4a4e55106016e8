ghost use Rattle.std.specs.Prelude.{◌≡◌, ◌^◌, pos};
ghost use Rattle.vv_base.specs.Width.{size_of};
ghost use Rattle.vasm_text.specs.Asm.{difference, field_size, is_in_field, with_displacement};

use vasm_text::AsmKind;
use vax_table::{Access, Form, Spec, displacement_width};
use vv_base::Width;

/// The width of the field that a name stands for.
pub(crate) fn field_width(form: Form, spec: &Spec) -> Width
    ensures { size_of result ≡ field_size form spec.now }
{
    if form.access == Access::Branch {
        form.width
    } else {
        displacement_width(spec.mode)
    }
}

/// How many numbers a field of the width stands for.
fn span(width: Width) -> i128
    ensures { result ≡ pos (256 ^ size_of width) }
{
    match width {
        Width::Byte => 0x100,
        Width::Word => 0x1_0000,
        Width::Long => 0x1_0000_0000,
        Width::Quad => 0x1_0000_0000_0000_0000,
    }
}

/// Whether a difference is in the signed field of a byte or a word; any is in that of a wider one.
fn is_within(width: Width, target: u32, from: u32) -> bool
    ensures { result ≡ is_in_field (size_of width) target from }
{
    let target = u64::from(target);
    let from = u64::from(from);
    match width {
        Width::Byte => from <= target + 0x80 && target < from + 0x80,
        Width::Word => from <= target + 0x8000 && target < from + 0x8000,
        Width::Long | Width::Quad => true,
    }
}

/// The field of a difference, in two's complement.
fn difference(width: Width, target: u32, from: u32) -> u64
    ensures { result ≡ difference (size_of width) target from }
{
    (i128::from(target) - i128::from(from)).rem_euclid(span(width)) as u64
}

/// The specifier whose field reaches an address from the one after it.
pub(crate) fn reached(width: Width, spec: Spec, target: u32, later: u32) -> Result<Spec, AsmKind>
    ensures { result ≡ with_displacement (size_of width) spec target later }
{
    if !is_within(width, target, later) {
        return Err(AsmKind::OutOfReach);
    }
    Ok(Spec {
        value: difference(width, target, later),
        ..spec
    })
}

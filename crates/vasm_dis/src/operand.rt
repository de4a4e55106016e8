ghost use Rattle.std.specs.Prelude.{◌≡◌, ◌==◌, ◌%◌, ◌++◌, ◌≤◌, ◌+◌, ◌*◌, [], codes, decimal, if◌then◌else◌, length};
ghost use Rattle.vv_base.specs.Width.{size_of};
ghost use Rattle.vasm_text.specs.Printing.{displacement_text, field_text, increment_text, index_text, operand_text, size_letter, specifier_text, text_after_mark};

use crate::put::{Line, put_around, put_field, put_register};
use vax_table::{Access, Form, Spec, displacement_width};
use vv_base::{Width, decimal};

/// The letter of a displacement's size.
fn letter(mode: u8) -> &'static [u8]
    ensures { result.now ≡ size_letter mode }
{
    match mode {
        0..12 => b"B^",
        12..14 => b"W^",
        _ => b"L^",
    }
}

/// Appends the sign of deferred modes.
fn put_deferred(text: &mut Line, mode: u8)
    requires { length text.old + 1 ≤ 160 }
    ensures text { text.new ≡ text.old ++ (if mode % 2 == 1 then codes "@" else []) }
    ensures grows { length text.new ≤ length text.old + 1 }
{
    if mode % 2 == 1 {
        text.append(b"@")
    }
}

/// Appends an operand of the modes A to F.
#[tactic(auto, unfolding(vasm_text::specs::Printing::displacement_text))]
fn put_displacement(text: &mut Line, spec: &Spec)
    requires { length text.old + 38 ≤ 160 }
    ensures text { text.new ≡ text.old ++ displacement_text spec.now }
    ensures grows { length text.new ≤ length text.old + 18 }
{
    put_deferred(text, spec.mode);
    text.append(letter(spec.mode));
    put_field(text, displacement_width(spec.mode).bytes(), spec.value);
    put_around(text, b"(", spec.reg, b")")
}

/// Appends an immediate.
fn put_immediate(text: &mut Line, width: Width, value: u64)
    requires { length text.old + 21 ≤ 160 }
    ensures text { text.new ≡ text.old ++ (codes "I^#" ++ field_text (size_of width) value) }
    ensures grows { length text.new ≤ length text.old + 21 }
{
    text.append(b"I^#");
    put_field(text, width.bytes(), value)
}

/// Appends an absolute address.
fn put_absolute(text: &mut Line, value: u64)
    requires { length text.old + 20 ≤ 160 }
    ensures text { text.new ≡ text.old ++ (codes "@#" ++ field_text 4 value) }
    ensures grows { length text.new ≤ length text.old + 12 }
{
    text.append(b"@#");
    put_field(text, 4, value)
}

/// Appends an operand of the modes 8 and 9.
#[tactic(auto, unfolding(vasm_text::specs::Printing::increment_text))]
fn put_increment(text: &mut Line, form: Form, spec: &Spec)
    requires { length text.old + 25 ≤ 160 }
    ensures text { text.new ≡ text.old ++ increment_text form spec.now }
    ensures grows { length text.new ≤ length text.old + 21 }
{
    match (spec.mode, spec.reg) {
        (8, 15) => put_immediate(text, form.width, spec.value),
        (8, reg) => put_around(text, b"(", reg, b")+"),
        (_, 15) => put_absolute(text, spec.value),
        (_, reg) => put_around(text, b"@(", reg, b")+"),
    }
}

/// Appends a literal.
fn put_literal(text: &mut Line, value: u64)
    requires { length text.old + 24 ≤ 160 }
    ensures text { text.new ≡ text.old ++ (codes "S^#" ++ decimal value) }
    ensures grows { length text.new ≤ length text.old + 24 }
{
    text.append(b"S^#");
    text.append(decimal(value).bytes())
}

/// Appends a specifier without its index.
#[tactic(auto, unfolding(vasm_text::specs::Printing::specifier_text))]
fn put_specifier(text: &mut Line, form: Form, spec: &Spec)
    requires { length text.old + 38 ≤ 160 }
    ensures text { text.new ≡ text.old ++ specifier_text form spec.now }
    ensures grows { length text.new ≤ length text.old + 24 }
{
    match spec.mode {
        0 => put_literal(text, spec.value),
        5 => put_register(text, spec.reg),
        6 => put_around(text, b"(", spec.reg, b")"),
        7 => put_around(text, b"-(", spec.reg, b")"),
        1..10 => put_increment(text, form, spec),
        _ => put_displacement(text, spec),
    }
}

/// Appends an index, if there is one.
fn put_index(text: &mut Line, index: Option<u8>)
    requires { length text.old + 25 ≤ 160 }
    ensures text { text.new ≡ text.old ++ index_text index }
    ensures grows { length text.new ≤ length text.old + 5 }
{
    match index {
        Some(x) => put_around(text, b"[", x, b"]"),
        None => {}
    }
}

/// Appends an operand of the form.
#[tactic(auto, unfolding(vasm_text::specs::Printing::operand_text))]
fn put_operand(text: &mut Line, form: Form, spec: &Spec)
    requires { length text.old + 49 ≤ 160 }
    ensures text { text.new ≡ text.old ++ operand_text form spec.now }
    ensures grows { length text.new ≤ length text.old + 29 }
{
    if form.access == Access::Branch {
        put_field(text, form.width.bytes(), spec.value);
        return;
    }
    put_specifier(text, form, spec);
    put_index(text, spec.index);
}

/// Appends operands of the forms, the first after a mark and each other after a comma.
pub(crate) fn put_operands(text: &mut Line, mark: u8, forms: &[Form], specs: &[Spec])
    requires { length text.old + 30 * length forms.now + 20 ≤ 160 }
    ensures { text.new ≡ text.old ++ text_after_mark mark forms.now specs.now }
{
    if let [form, other_forms @ ..] = forms
        && let [spec, other_specs @ ..] = specs
    {
        text.append_byte(mark);
        put_operand(text, *form, spec);
        put_operands(text, b',', other_forms, other_specs);
    }
}

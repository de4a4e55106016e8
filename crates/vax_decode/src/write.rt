ghost use Rattle.std.specs.Prelude.{◌≡◌, ◌+◌, ◌≤◌, ◌<◌, ◌++◌, length, IfSome};
ghost use Rattle.vax_table.specs.Spelling.{bytes_of, view, IsWellFormed, Spells};
ghost use Rattle.vax_table.specs.Spelled.{spelled_specifier, spelled, spelled_all};
ghost use Rattle.vax_decode.specs.Encoding.{IsInRange, AllInRange};

use vax_table::{Access, Decoded, Form, Spec, row, value_size};
use vv_base::Text;

/// Appends the low bytes of a number, the lowest first.
fn put_number(text: &mut Text<24>, size: usize, value: u64)
    requires { length text.old + size ≤ 24 }
    ensures { text.new ≡ text.old ++ bytes_of size value }
{
    let mut rest = value;
    for _left in (0..size).rev() {
        text.append_byte((rest % 256) as u8);
        rest /= 256;
    }
}

/// Appends a specifier without its index.
#[tactic(auto, unfolding(vax_table::specs::Spelled::spelled_specifier))]
fn put_specifier(text: &mut Text<24>, form: Form, spec: &Spec)
    requires mode { spec.now.mode < 16 }
    requires reg { spec.now.reg < 16 }
    requires literal { spec.now.mode ≡ 0 → spec.now.value < 64 }
    requires room { length text.old + length (spelled_specifier form spec.now) ≤ 24 }
    ensures { text.new ≡ text.old ++ spelled_specifier form spec.now }
{
    if spec.mode == 0 {
        text.append_byte(spec.value as u8);
    } else {
        text.append_byte(16 * spec.mode + spec.reg);
        put_number(text, usize::from(value_size(form, spec)), spec.value);
    }
}

/// Appends an operand of the form.
#[tactic(auto, unfolding(vax_table::specs::Spelled::spelled))]
fn put_operand(text: &mut Text<24>, form: Form, spec: &Spec)
    requires range { IsInRange form spec.now }
    requires room { length text.old + length (spelled form spec.now) ≤ 24 }
    ensures { text.new ≡ text.old ++ spelled form spec.now }
{
    if form.access == Access::Branch {
        put_number(text, usize::from(form.width.bytes()), spec.value);
        return;
    }
    if let Some(index) = spec.index {
        text.append_byte(0x40 + index);
    }
    put_specifier(text, form, spec);
}

/// Appends operands of the forms, in order.
fn put_operands(text: &mut Text<24>, forms: &[Form], specs: &[Spec])
    requires range { AllInRange forms.now specs.now }
    requires room { length text.old + length (spelled_all forms.now specs.now) ≤ 24 }
    ensures { text.new ≡ text.old ++ spelled_all forms.now specs.now }
{
    for (form, spec) in forms.iter().zip(specs) {
        put_operand(text, *form, spec);
    }
}

/// The bytes that spell the instruction.
pub fn encode(d: &Decoded) -> Text<24>
    requires { IsWellFormed (view d.now) }
    ensures { Spells result (view d.now) }
{
    let mut text = Text::new();
    text.append_byte(d.opcode);
    if d.wait {
        text.append_byte(1);
    } else if let Some(row) = row(d.opcode) {
        put_operands(&mut text, row.operands.as_slice(), d.specs.as_slice());
    }
    text
}

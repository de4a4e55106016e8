//! How many bytes the parts of an operand have.
ghost use Rattle.std.specs.Prelude.{◌≡◌, ◌≤◌};
ghost use Rattle.vv_base.specs.Width.{size_of};
ghost use Rattle.vax_table.specs.Reading.{displacement_size};
ghost use Rattle.vax_table.specs.Spelled.{value_size};

use crate::{Form, Spec};
use vv_base::Width;

/// The width of the displacement in the modes A to F.
pub fn displacement_width(mode: u8) -> Width
    ensures { size_of result ≡ displacement_size mode }
{
    match mode {
        0..12 => Width::Byte,
        12..14 => Width::Word,
        _ => Width::Long,
    }
}

/// How many bytes of an operand come after its specifier's first.
#[tactic(auto, unfolding(crate::specs::Spelled::value_size))]
pub fn value_size(form: Form, spec: &Spec) -> u8
    ensures value { result ≡ value_size form spec.now }
    ensures most { result ≤ 8 }
{
    match (spec.mode, spec.reg) {
        (0..8, _) => 0,
        (8, 15) => form.width.bytes(),
        (9, 15) => 4,
        (8 | 9, _) => 0,
        (mode, _) => displacement_width(mode).bytes(),
    }
}

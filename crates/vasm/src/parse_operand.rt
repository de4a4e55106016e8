ghost use Rattle.std.specs.Prelude.{◌≡◌};
ghost use Rattle.vasm_text.specs.Operands.{unnamed_operand, with_name};
ghost use Rattle.vasm.specs.Views.{operand_view};

use vax_table::Spec;

/// An operand of a statement: a specifier, and the name that stands for its value where one does.
#[derive(Clone, Copy, Default)]
pub struct Operand<'a> {
    /// The specifier; its value is 0 where a name stands for it.
    pub spec: Spec,
    /// The name that stands for the value.
    pub name: Option<&'a [u8]>,
}

/// An operand without a name.
pub(crate) fn plain<'a>(mode: u8, reg: u8, value: u64) -> Operand<'a>
    ensures { operand_view result ≡ unnamed_operand mode reg value }
{
    Operand {
        spec: Spec {
            index: None,
            mode,
            reg,
            value,
        },
        name: None,
    }
}

/// An operand whose value a name stands for.
pub(crate) fn with_name(mode: u8, reg: u8, name: &[u8]) -> Operand<'_>
    ensures { operand_view result ≡ with_name mode reg name.now }
{
    Operand {
        spec: Spec {
            index: None,
            mode,
            reg,
            value: 0,
        },
        name: Some(name),
    }
}

use std::alloc::AllocFailed;
use vv_base::NoMemory;

/// Why a line is refused.
#[derive(Clone, Copy, Debug, PartialEq, Eq)]
pub enum AsmKind {
    /// It is of no form, of a reserved form, or has a number that doesn't fit.
    BadLine,
    /// Its label labels an earlier line.
    TwiceNamed,
    /// A name in it labels no line.
    NoName,
    /// The value of a name is out of reach of a byte or a word.
    OutOfReach,
}

/// A line that is refused.
#[derive(Clone, Copy, Debug, PartialEq, Eq)]
pub struct AsmFault {
    /// The line's number, from 1.
    pub line: u32,
    /// Why it is refused.
    pub kind: AsmKind,
}

/// Why a text has no bytes.
#[derive(Clone, Copy, Debug, PartialEq, Eq)]
pub enum AsmError {
    /// The first line that is refused.
    Fault(AsmFault),
    /// Memory ran out.
    NoMemory,
}

impl From<NoMemory> for AsmError {
    ghost use Rattle.std.specs.Prelude.{◌≡◌};
    ghost use Rattle.vasm_text.specs.declared.fault.AsmError.TheVariants.{NoMemory as OutOfMemory};

    ghost from_gives = { λ _ e. e ≡ OutOfMemory };

    fn from(_: NoMemory) -> AsmError {
        AsmError::NoMemory
    }
}

impl<T: Drop> From<AllocFailed<T>> for AsmError {
    ghost use Rattle.std.specs.Prelude.{◌≡◌};
    ghost use Rattle.vasm_text.specs.declared.fault.AsmError.TheVariants.{NoMemory as OutOfMemory};

    ghost from_gives = { λ _ e. e ≡ OutOfMemory };

    fn from(_: AllocFailed<T>) -> AsmError {
        AsmError::NoMemory
    }
}

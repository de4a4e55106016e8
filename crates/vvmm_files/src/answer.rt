ghost use Rattle.std.specs.Prelude.{◌≡◌};
ghost use Rattle.vvmm_files.specs.Texts.{asm_kind_text, fault_text};

use vasm_text::{AsmFault, AsmKind};
use vv_base::{Text, decimal};

/// How a file was shown.
#[derive(Clone, Copy, Debug, PartialEq, Eq)]
pub enum Answer {
    /// All was shown.
    Done,
    /// The shelf lacks the file.
    Missing,
    /// The file has more than 16,777,216 bytes.
    TooLong,
    /// The shelf failed.
    ShelfFault,
    /// The first line of the source that is refused.
    Asm(AsmFault),
    /// The sink failed.
    OutFault,
    /// Memory ran out.
    NoMemory,
}

/// The name of a kind of refusal.
fn kind_text(kind: AsmKind) -> &'static [u8]
    ensures { result.now ≡ asm_kind_text kind }
{
    match kind {
        AsmKind::BadLine => b"BadLine",
        AsmKind::TwiceNamed => b"TwiceNamed",
        AsmKind::NoName => b"NoName",
        AsmKind::OutOfReach => b"OutOfReach",
    }
}

/// What is printed of a line that is refused.
pub fn fault_text(fault: &AsmFault) -> Text<96>
    ensures { result ≡ fault_text fault.now }
{
    let mut text = Text::new();
    text.append(b"asm line ");
    text.append(decimal(u64::from(fault.line)).bytes());
    text.append(b" ");
    text.append(kind_text(fault.kind));
    text
}

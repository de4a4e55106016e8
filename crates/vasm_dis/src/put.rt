ghost use Rattle.std.specs.Prelude.{◌≡◌, ◌*◌, ◌+◌, ◌++◌, ◌≤◌, length};
ghost use Rattle.vasm_text.specs.Printing.{field_text, register_text};

use vv_base::{Text, decimal, hex};

/// The text of an instruction, without a line end.
pub type Line = Text<160>;

/// Appends the name of a register.
#[tactic(auto, unfolding(vasm_text::specs::Printing::register_text))]
pub(crate) fn put_register(text: &mut Line, n: u8)
    requires { length text.old + 21 ≤ 160 }
    ensures text { text.new ≡ text.old ++ register_text n }
    ensures grows { length text.new ≤ length text.old + 3 }
{
    match n {
        0..12 => {
            text.append(b"R");
            text.append(decimal(u64::from(n)).bytes());
        }
        12 => text.append(b"AP"),
        13 => text.append(b"FP"),
        14 => text.append(b"SP"),
        _ => text.append(b"PC"),
    }
}

/// Appends a register between two texts.
pub(crate) fn put_around(text: &mut Line, before: &[u8], n: u8, later: &[u8])
    requires few { length before.now + length later.now ≤ 4 }
    requires room { length text.old + 25 ≤ 160 }
    ensures text { text.new ≡ text.old ++ (before.now ++ (register_text n ++ later.now)) }
    ensures grows { length text.new ≤ length text.old + (length before.now + 3 + length later.now) }
{
    text.append(before);
    put_register(text, n);
    text.append(later);
}

/// Appends the number in a field of `size` bytes.
#[tactic(auto, unfolding(vasm_text::specs::Printing::field_text))]
pub(crate) fn put_field(text: &mut Line, size: u8, value: u64)
    requires low { 1 ≤ size }
    requires high { size ≤ 8 }
    requires room { length text.old + 18 ≤ 160 }
    ensures text { text.new ≡ text.old ++ field_text size value }
    ensures grows { length text.new ≤ length text.old + (2 + 2 * size) }
{
    text.append(b"^X");
    text.append(hex(value, 2 * size).bytes());
}

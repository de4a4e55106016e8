ghost use Rattle.std.specs.Prelude.{◌≡◌, ◌+◌, ◌*◌, ◌^◌, ◌<◌, ◌≤◌, length, nat_lt, IsTrue};
ghost use Rattle.std.specs.List.{list_all};
ghost use Rattle.vv_base.specs.Width.{size_of};
ghost use Rattle.vasm_text.specs.Numbers.{is_hex_digit, hex_value, hex_from, hex_of, number_in, field_in, register_in, not_pc};

use vv_base::{Width, read_decimal};

fn is_hex_digit(b: u8) -> bool
    ensures { result ≡ is_hex_digit b }
{
    (48 <= b && b <= 57) || (0x41 <= b && b <= 0x46)
}

fn are_hex_digits(text: &[u8]) -> bool
    ensures { result ≡ list_all is_hex_digit text.now }
{
    text.iter().all(|b| is_hex_digit(*b))
}

fn hex_value(b: u8) -> u8
    requires { IsTrue (is_hex_digit b) }
    ensures value { result ≡ hex_value b }
    ensures small { result < 16 }
{
    if b <= 57 { b - 48 } else { b - 55 }
}

/// The number that digits of base 16 stand for.
fn hex_number(digits: &[u8]) -> u64
    requires digits { IsTrue (list_all is_hex_digit digits.now) }
    requires few { length digits.now ≤ 16 }
    ensures { result ≡ hex_from 0 digits.now }
{
    let mut value: u64 = 0;
    for d in digits {
        value = 16 * value + u64::from(hex_value(*d));
    }
    value
}

fn hex_of(digits: &[u8]) -> Option<u64>
    ensures { result ≡ hex_of digits.now }
{
    if 1 <= digits.len() && digits.len() <= 16 && are_hex_digits(digits) {
        Some(hex_number(digits))
    } else {
        None
    }
}

/// The number that a text is.
#[tactic(auto, unfolding(vasm_text::specs::Numbers::number_in))]
pub(crate) fn number_in(text: &[u8]) -> Option<u64>
    ensures { result ≡ number_in text.now }
{
    match text {
        [b'^', b'X', digits @ ..] => hex_of(digits),
        _ => read_decimal(text, u64::MAX),
    }
}

fn fits(width: Width, n: u64) -> bool
    ensures { result ≡ nat_lt n (256 ^ size_of width) }
{
    match width {
        Width::Byte => n < 256,
        Width::Word => n < 65536,
        Width::Long => n < 4_294_967_296,
        Width::Quad => true,
    }
}

/// The number that a text is, where it fits in a field of the width.
#[tactic(auto, unfolding(vasm_text::specs::Numbers::field_in))]
pub(crate) fn field_in(width: Width, text: &[u8]) -> Option<u64>
    ensures { result ≡ field_in (size_of width) text.now }
{
    match number_in(text) {
        Some(n) if fits(width, n) => Some(n),
        _ => None,
    }
}

/// The register that a text names.
#[tactic(auto, unfolding(vasm_text::specs::Numbers::register_in))]
pub(crate) fn register_in(text: &[u8]) -> Option<u8>
    ensures { result ≡ register_in text.now }
{
    match text {
        b"AP" => Some(12),
        b"FP" => Some(13),
        b"SP" => Some(14),
        b"PC" => Some(15),
        [b'R', digits @ ..] => match read_decimal(digits, 15) {
            Some(n) => Some(n as u8),
            None => None,
        },
        _ => None,
    }
}

/// A register other than PC.
pub(crate) fn not_pc(reg: Option<u8>) -> Option<u8>
    ensures { result ≡ not_pc reg }
{
    match reg {
        Some(n) if n < 15 => Some(n),
        _ => None,
    }
}

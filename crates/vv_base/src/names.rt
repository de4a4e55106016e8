ghost use Rattle.std.specs.Prelude.{◌≡◌, ◌≤◌, length};
ghost use Rattle.std.specs.List.{list_all};
ghost use Rattle.vv_base.specs.Names.{is_letter, is_name_character, is_object_name, is_graphic, is_file_name, tested};

use crate::{FileName, Name, Text};

fn is_letter(b: u8) -> bool
    ensures { result ≡ is_letter b }
{
    0x41 <= b && b <= 0x5A
}

fn is_name_character(b: u8) -> bool
    ensures { result ≡ is_name_character b }
{
    is_letter(b) || (0x30 <= b && b <= 0x39)
}

fn are_name_characters(bytes: &[u8]) -> bool
    ensures { result ≡ list_all is_name_character bytes.now }
{
    bytes.iter().all(|b| is_name_character(*b))
}

fn is_object_name(bytes: &[u8]) -> bool
    ensures { result ≡ is_object_name bytes.now }
{
    match bytes {
        [] => false,
        [first, rest @ ..] => is_letter(*first) && are_name_characters(rest) && rest.len() <= 7,
    }
}

fn are_graphic(bytes: &[u8]) -> bool
    ensures { result ≡ list_all is_graphic bytes.now }
{
    bytes.iter().all(|b| 0x21 <= *b && *b <= 0x7E)
}

fn is_file_name(bytes: &[u8]) -> bool
    ensures { result ≡ is_file_name bytes.now }
{
    1 <= bytes.len() && bytes.len() <= 64 && are_graphic(bytes)
}

/// The bytes as an object's name; `None` exactly where they aren't 1 to 8 characters of A-Z and 0-9
/// that begin with a letter.
pub fn object_name(bytes: &[u8]) -> Option<Name>
    ensures { result ≡ tested is_object_name bytes.now }
{
    if is_object_name(bytes) {
        Some(Text::from_bytes(bytes))
    } else {
        None
    }
}

/// The bytes as a file's name; `None` exactly where they aren't 1 to 64 bytes from hexadecimal 21 to 7E.
pub fn file_name(bytes: &[u8]) -> Option<FileName>
    ensures { result ≡ tested is_file_name bytes.now }
{
    if is_file_name(bytes) {
        Some(Text::from_bytes(bytes))
    } else {
        None
    }
}

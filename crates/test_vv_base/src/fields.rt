use std::process::Abort;
use vv_base::{
    Full, Text, Width, decimal, file_name, get_u16, get_u32, hex, object_name, put_u16, put_u32,
    read_decimal, signed,
};

/// Texts, and whether each is the name of an object.
static OBJECT_NAMES: [(&str, bool); 5] = [
    ("A", true),
    ("Z9", true),
    ("9Z", false),
    ("", false),
    ("ABCDEFGHI", false),
];

#[test]
fn names_of_objects_are_read(rt: HostRuntime) {
    for (text, is_name) in &OBJECT_NAMES {
        assert!(rt;
            object_name(text.as_bytes()).is_some() == *is_name,
            "{text}"
        );
    }
}

/// Texts, and whether each is the name of a file.
static FILE_NAMES: [(&str, bool); 4] = [
    ("x", true),
    ("", false),
    ("a b", false),
    ("a\u{7f}", false),
];

#[test]
fn names_of_files_are_read(rt: HostRuntime) {
    for (text, is_name) in &FILE_NAMES {
        assert!(rt; file_name(text.as_bytes()).is_some() == *is_name, "{text}");
    }
}

/// Texts, and the number up to 100,000 of each.
static NUMBERS: [(&str, Option<u64>); 5] = [
    ("0", Some(0)),
    ("01", None),
    ("100000", Some(100_000)),
    ("100001", None),
    ("+1", None),
];

#[test]
fn numbers_are_read(rt: HostRuntime) {
    for (text, number) in &NUMBERS {
        assert!(rt; read_decimal(text.as_bytes(), 100_000) == *number, "{text}");
    }
}

/// The bytes are the expected ones.
fn are_bytes(rt: &impl Abort, bytes: &[u8], wanted: &[u8]) {
    assert!(rt; bytes == wanted);
}

#[test]
fn numbers_are_written(rt: HostRuntime) {
    are_bytes(&rt, decimal(u64::MAX).bytes(), b"18446744073709551615");
    are_bytes(&rt, hex(0xFFFF_0000_0020_8ABC, 8).bytes(), b"00208ABC");
}

/// A field of six bytes, into which two numbers are put.
fn put_field() -> [u8; 6] {
    let mut field = [1, 2, 3, 4, 5, 6];
    put_u32(&mut field, 1, 0x1234_5678);
    put_u16(&mut field, 4, 0xABCD);
    field
}

#[test]
fn fields_keep_what_is_put(rt: HostRuntime) {
    let field = put_field();
    are_bytes(&rt, &field, &[1, 0x78, 0x56, 0x34, 0xCD, 0xAB]);
    assert!(rt; get_u32(&field, 2) == 0xABCD_3456);
    assert!(rt; get_u16(&field, 0) == 0x7801);
}

#[test]
fn widths_have_their_bytes(rt: HostRuntime) {
    assert!(rt; Width::Byte.bytes() == 1);
    assert!(rt; Width::Word.bytes() == 2);
    assert!(rt; Width::Long.bytes() == 4);
    assert!(rt; Width::Quad.bytes() == 8);
}

#[test]
fn numbers_have_the_sign_of_their_width(rt: HostRuntime) {
    assert!(rt; signed(0x1_80FF, Width::Byte) == -1);
    assert!(rt; signed(0x1_80FF, Width::Word) == -32_513);
    assert!(rt; signed(0x1_80FF, Width::Long) == 0x1_80FF);
}

#[test]
fn texts_are_filled(rt: HostRuntime) {
    let mut text: Text<4> = Text::new();
    assert!(rt; text.push_all(b"abc") == Ok(()));
    assert!(rt; text.push_all(b"de") == Err(Full));
    assert!(rt; text.push(b'd') == Ok(()));
    assert!(rt; text.push(b'e') == Err(Full));
    are_bytes(&rt, text.bytes(), b"abcd");
}

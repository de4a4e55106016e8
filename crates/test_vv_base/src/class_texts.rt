use crate::classes::{Parts, class};
use std::process::Abort;
use vv_class::{ClassFault, read_class, write_class};

/// Texts of classes, and the parts of each.
static CLASSES: [(&str, Parts); 5] = [
    ("2{1,5};0{}", (2, 34, 0, 0)),
    ("16{};0{}", (16, 0, 0, 0)),
    ("0{0};255{63}", (0, 1, 255, 1 << 63)),
    ("9{9,10,62,63};100{0}", (9, 3 << 62 | 1536, 100, 1)),
    ("0{};0{}", (0, 0, 0, 0)),
];

/// A text is read as its class, which is written as the text.
fn is_text_of(rt: &impl Abort, row: &(&'static str, Parts)) {
    let (text, parts) = *row;
    let wanted = class(parts);
    assert!(rt; read_class(text.as_bytes()) == Ok(wanted), "of {text}");
    let written = write_class(&wanted);
    assert!(rt; written.bytes() == text.as_bytes(), "of {text}");
}

#[test]
fn class_texts_are_read_and_written_back(rt: HostRuntime) {
    for row in &CLASSES {
        is_text_of(&rt, row);
    }
}

/// Texts that aren't classes, and the place of each fault.
static FAULTS: [(&str, u32); 20] = [
    ("256{};0{}", 2),
    ("0{5,5};0{}", 5),
    ("0{};0", 5),
    ("", 0),
    ("-1{};0{}", 0),
    ("01{};0{}", 1),
    ("300{};0{}", 2),
    ("2{5,1};0{}", 5),
    ("1{5,0};0{}", 4),
    ("1{8,7};0{}", 4),
    ("1{50,4};0{}", 5),
    ("1{58,5};0{}", 6),
    ("1{5,1,7};0{}", 5),
    ("1{05};0{}", 3),
    ("1{64};0{}", 3),
    ("1{63,64};0{}", 4),
    ("1{2,};0{}", 4),
    ("1{ 2};0{}", 2),
    ("15{6", 4),
    ("0{};0{};", 7),
];

/// A text is refused at its place.
fn is_refused(rt: &impl Abort, row: &(&'static str, u32)) {
    let (text, place) = *row;
    assert!(rt;
        read_class(text.as_bytes()) == Err(ClassFault { place }),
        "of {text}"
    );
}

#[test]
fn other_texts_have_the_place_of_their_fault(rt: HostRuntime) {
    for row in &FAULTS {
        is_refused(&rt, row);
    }
}

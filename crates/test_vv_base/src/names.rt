use std::process::Abort;
use vasm_text::{mnemonic, opcode};

/// Opcodes and their names.
static NAMES: [(u8, &str); 8] = [
    (0x00, "HALT"),
    (0x80, "ADDB2"),
    (0x9E, "MOVAB"),
    (0xAE, "MNEGW"),
    (0xCF, "CASEL"),
    (0xD7, "DECL"),
    (0xF5, "SOBGTR"),
    (0xFD, "WAIT"),
];

/// The name is the opcode's, and the opcode the name's.
fn is_name(rt: &impl Abort, row: &(u8, &'static str)) {
    let (code, name) = *row;
    assert!(rt; mnemonic(code) == Some(name), "{name}");
    assert!(rt; opcode(name.as_bytes()) == Some(code), "{name}");
}

#[test]
fn names_and_opcodes(rt: HostRuntime) {
    for row in &NAMES {
        is_name(&rt, row);
    }
}

/// Texts that name no opcode.
static OTHERS: [&str; 5] = ["", "halt", "ASHQ", "HALT ", "ADDB"];

#[test]
fn others_are_no_names(rt: HostRuntime) {
    assert!(rt; mnemonic(0xFF).is_none());
    for name in &OTHERS {
        assert!(rt; opcode(name.as_bytes()).is_none(), "{name}");
    }
}

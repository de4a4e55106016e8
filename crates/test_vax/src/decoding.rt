use std::alloc::{AllocError, Global};
use std::process::Abort;
use std::test::Fail;
use vax_decode::{Decode, DecodeFault, decode, encode};
use vax_table::{Access, Form, Operation, operation, row};
use vv_base::Width;

/// The operands of each opcode by the manual's letters, access and width in turn; `-` where no
/// instruction has the opcode.
static OPERANDS: [&str; 256] = [
    // 00
    "", "", "", "", "", "", "", "", "-", "-", "-", "-", "rbrwab", "rbrwab", "-", "-",
    // 10
    "bb", "bb", "bb", "bb", "bb", "bb", "ab", "ab", "bb", "bb", "bb", "bb", "bb", "bb", "bb", "bb",
    // 20
    "-", "-", "-", "-", "-", "-", "-", "-", "-", "-", "-", "-", "-", "-", "-", "-",
    // 30
    "bw", "bw", "rwwl", "rwwb", "-", "-", "-", "-", "-", "-", "-", "-", "rwwl", "rwrwmwbw", "awwl",
    "aw",
    // 40
    "-", "-", "-", "-", "-", "-", "-", "-", "-", "-", "-", "-", "-", "-", "-", "-",
    // 50
    "-", "-", "-", "-", "-", "-", "-", "-", "-", "-", "-", "-", "-", "-", "-", "-",
    // 60
    "-", "-", "-", "-", "-", "-", "-", "-", "-", "-", "-", "-", "-", "-", "-", "-",
    // 70
    "-", "-", "-", "-", "-", "-", "-", "-", "rbrlwl", "-", "-", "-", "wq", "rqwq", "aqwl", "aq",
    // 80
    "rbmb", "rbrbwb", "rbmb", "rbrbwb", "rbmb", "rbrbwb", "rbmb", "rbrbwb", "rbmb", "rbrbwb",
    "rbmb", "rbrbwb", "rbmb", "rbrbwb", "rbwb", "rbrbrb",
    // 90
    "rbwb", "rbrb", "rbwb", "rbrb", "wb", "rb", "mb", "mb", "rbwl", "rbww", "rbwl", "rbww",
    "rbrlwl", "rbrbmbbw", "abwl", "ab",
    // A0
    "rwmw", "rwrwww", "rwmw", "rwrwww", "rwmw", "rwrwww", "rwmw", "rwrwww", "rwmw", "rwrwww",
    "rwmw", "rwrwww", "rwmw", "rwrwww", "rwww", "rwrwrw",
    // B0
    "rwww", "rwrw", "rwww", "rwrw", "ww", "rw", "mw", "mw", "rw", "rw", "rw", "rw", "rw", "rw",
    "rw", "rw",
    // C0
    "rlml", "rlrlwl", "rlml", "rlrlwl", "rlml", "rlrlwl", "rlml", "rlrlwl", "rlml", "rlrlwl",
    "rlml", "rlrlwl", "rlml", "rlrlwl", "rlwl", "rlrlrl",
    // D0
    "rlwl", "rlrl", "rlwl", "rlrl", "wl", "rl", "ml", "ml", "rlml", "rlml", "rlrl", "rlwl", "wl",
    "rl", "alwl", "al",
    // E0
    "rlvbbb", "rlvbbb", "rlvbbb", "rlvbbb", "rlvbbb", "rlvbbb", "rlvbbb", "rlvbbb", "rlbb", "rlbb",
    "-", "-", "-", "-", "-", "-",
    // F0
    "-", "rlrlmlbw", "rlmlbb", "rlmlbb", "mlbb", "mlbb", "rlwb", "rlww", "-", "-", "abab", "rlab",
    "", "", "-", "-",
];

/// The opcodes whose instructions a monitor does: HALT, REI, LDPCTX, SVPCTX, CHMK to CHMU, MTPR, MFPR
/// and WAIT.
static SENSITIVE: [u8; 11] = [
    0x00, 0x02, 0x06, 0x07, 0xbc, 0xbd, 0xbe, 0xbf, 0xda, 0xdb, 0xfd,
];

/// How the bytes are answered: the instruction's length, `None` for more bytes, or the fault.
fn answer(b: &[u8]) -> Result<u8, Option<DecodeFault>> {
    match decode(b) {
        Decode::Done(d) => Ok(d.length),
        Decode::NeedMore => Err(None),
        Decode::Fault(fault) => Err(Some(fault)),
    }
}

/// Whether the bytes begin with an instruction, and encoding it gives its bytes.
fn is_encoded_again(b: &[u8]) -> bool {
    match decode(b) {
        Decode::Done(d) => b.starts_with(encode(&d).bytes()),
        _ => false,
    }
}

fn size_of(width: u8) -> usize {
    match width {
        b'b' => 1,
        b'w' => 2,
        b'l' => 4,
        _ => 8,
    }
}

/// An instruction whose operands are immediates and displacements of ones, but for the operand at one
/// place, which is one given byte.
fn instruction(
    alloc: Global,
    opcode: u8,
    letters: &[u8],
    place: usize,
    given: u8,
) -> Result<Vec<u8>, AllocError> {
    let mut bytes = Vec::new(alloc);
    bytes.push(opcode)?;
    for (k, letter) in letters.iter().enumerate() {
        if k % 2 == 1 {
            if k / 2 == place {
                continue;
            }
            for _ in 0..size_of(*letter) {
                bytes.push(1)?;
            }
        } else if k / 2 == place {
            bytes.push(given)?;
        } else if *letter != b'b' {
            bytes.push(0x8f)?;
        }
    }
    Ok(bytes)
}

fn access_letter(access: Access) -> u8 {
    match access {
        Access::Read => b'r',
        Access::Modify => b'm',
        Access::Write => b'w',
        Access::Address => b'a',
        Access::Bits => b'v',
        Access::Branch => b'b',
    }
}

fn width_letter(width: Width) -> u8 {
    match width {
        Width::Byte => b'b',
        Width::Word => b'w',
        Width::Long => b'l',
        Width::Quad => b'q',
    }
}

fn letters_of(alloc: Global, forms: &[Form]) -> Result<Vec<u8>, AllocError> {
    let mut letters = Vec::new(alloc);
    for form in forms {
        letters.push(access_letter(form.access))?;
        letters.push(width_letter(form.width))?;
    }
    Ok(letters)
}

/// An opcode's row has the manual's operands, and its operation says whether a monitor does the instruction.
fn check_row(rt: &impl Abort, alloc: Global, opcode: u8, letters: &str) -> Result<(), AllocError> {
    match row(opcode) {
        None => assert!(rt; letters == "-", "at {opcode}"),
        Some(row) => {
            let found = letters_of(alloc, row.operands.as_slice())?;
            assert!(rt; found.as_slice() == letters.as_bytes(), "at {opcode}");
            let is_sensitive = matches!(operation(opcode), Operation::Sensitive(_));
            assert!(rt; is_sensitive == SENSITIVE.contains(&opcode), "at {opcode}");
        }
    }
    Ok(())
}

#[test]
fn rows_are_those_of_the_manual(rt: HostRuntime) -> Result<(), Fail> {
    for (opcode, letters) in OPERANDS.iter().enumerate() {
        check_row(&rt, rt.alloc(), opcode as u8, letters)?;
    }
    Ok(())
}

/// Whether every proper front of the bytes needs more.
fn wants_more_throughout(b: &[u8]) -> bool {
    for cut in 0..b.len() {
        if answer(&b[..cut]) != Err(None) {
            return false;
        }
    }
    true
}

/// How an instruction is answered in which one operand is the one byte given.
fn answer_with(
    alloc: Global,
    opcode: u8,
    letters: &[u8],
    place: usize,
    given: u8,
) -> Result<Result<u8, Option<DecodeFault>>, AllocError> {
    let bytes = instruction(alloc, opcode, letters, place, given)?;
    Ok(answer(&bytes))
}

/// An opcode of this first byte is refused where no instruction has it, and else is decoded whole and encoded again.
fn check_first_byte(
    rt: &impl Abort,
    alloc: Global,
    opcode: u8,
    letters: &str,
) -> Result<(), AllocError> {
    if letters == "-" {
        let refused = Err(Some(DecodeFault::Opcode));
        assert!(rt; answer(&[opcode]) == refused, "at {opcode}");
    } else if opcode != 0xfd {
        let whole = instruction(alloc, opcode, letters.as_bytes(), 4, 0)?;
        let length = answer(&whole).map(usize::from);
        assert!(rt; length == Ok(whole.len()), "at {opcode}");
        assert!(rt; is_encoded_again(&whole), "at {opcode}");
        assert!(rt; wants_more_throughout(&whole), "at {opcode}");
    }
    Ok(())
}

#[test]
fn every_first_byte_is_decoded_by_the_manual(rt: HostRuntime) -> Result<(), Fail> {
    for (opcode, letters) in OPERANDS.iter().enumerate() {
        check_first_byte(&rt, rt.alloc(), opcode as u8, letters)?;
    }
    Ok(())
}

#[test]
fn a_first_byte_fd_wants_a_second_one(rt: HostRuntime) {
    assert!(rt; answer(&[0xfd]) == Err(None));
    assert!(rt; answer(&[0xfd, 1]) == Ok(2));
    assert!(rt; answer(&[0xfd, 2]) == Err(Some(DecodeFault::Opcode)));
}

/// The operand at a place may be a literal where it is read, a register where its address isn't taken, and never PC in
/// mode 6.
fn check_operand(
    rt: &impl Abort,
    alloc: Global,
    opcode: u8,
    letters: &[u8],
    place: usize,
    access: u8,
) -> Result<(), AllocError> {
    let literal = answer_with(alloc, opcode, letters, place, 0x3f)?;
    assert!(rt; literal.is_ok() == (access == b'r'), "at {opcode}");
    let register = answer_with(alloc, opcode, letters, place, 0x52)?;
    assert!(rt; register.is_ok() == (access != b'a'), "at {opcode}");
    let pc = answer_with(alloc, opcode, letters, place, 0x6f)?;
    assert!(rt; pc == Err(Some(DecodeFault::Addressing)), "at {opcode}");
    Ok(())
}

/// Each operand of an instruction that isn't a branch's.
fn check_operands(
    rt: &impl Abort,
    alloc: Global,
    opcode: u8,
    letters: &[u8],
) -> Result<(), AllocError> {
    for (place, access) in letters.iter().step_by(2).enumerate() {
        if *access != b'b' && *access != b'-' {
            check_operand(rt, alloc, opcode, letters, place, *access)?;
        }
    }
    Ok(())
}

/// A literal is only where an operand is read, a register only where its address isn't taken, and
/// PC in mode 6 nowhere.
#[test]
fn each_operand_allows_what_its_access_does(rt: HostRuntime) -> Result<(), Fail> {
    for (opcode, letters) in OPERANDS.iter().enumerate() {
        check_operands(&rt, rt.alloc(), opcode as u8, letters.as_bytes())?;
    }
    Ok(())
}

/// Bytes, and how they are answered.
type Answered = (&'static [u8], Result<u8, Option<DecodeFault>>);

static EXAMPLES: [Answered; 11] = [
    (&[], Err(None)),
    (&[0xd0, 0x8f, 0x01], Err(None)),
    (&[0xd0, 0x01, 0x01], Err(Some(DecodeFault::Addressing))),
    (&[0xd0, 0x4f], Err(Some(DecodeFault::Addressing))),
    (&[0xfd, 0x02], Err(Some(DecodeFault::Opcode))),
    (&[0xfd, 0x01], Ok(2)),
    (&[0xc0, 0x44, 0xc3, 0x34, 0x12, 0x50], Ok(6)),
    (
        &[0xc0, 0x44, 0x53, 0x50],
        Err(Some(DecodeFault::Addressing)),
    ),
    (&[0xde, 0x51, 0x50], Err(Some(DecodeFault::Addressing))),
    (&[0xd0, 0x41, 0x8f], Err(Some(DecodeFault::Addressing))),
    (&[0x7d, 0x5d, 0x5e], Err(Some(DecodeFault::Addressing))),
];

#[test]
fn worked_examples_are_decoded(rt: HostRuntime) {
    for (number, (bytes, want)) in EXAMPLES.iter().enumerate() {
        assert!(rt; answer(bytes) == *want, "row {number}");
    }
}

#[test]
fn an_indexed_word_displacement_is_decoded_and_encoded(rt: HostRuntime) {
    // ADDL2 1234(R3)[R4], R0, and two bytes after it
    let bytes = [0xc0, 0x44, 0xc3, 0x34, 0x12, 0x50, 0xde, 0xad];
    let Decode::Done(d) = decode(&bytes) else {
        assert!(rt; false, "a whole instruction");
        return;
    };
    assert!(rt; d.opcode == 0xc0);
    assert!(rt; !d.wait);
    assert!(rt; d.length == 6);
    assert!(rt; d.specs.len() == 2);
    assert!(rt; encode(&d).bytes() == &bytes[..6]);
}

use std::alloc::Global;
use std::test::Fail;
use vasm::assemble;
use vasm_dis::disassemble;
use vasm_text::AsmError;
use vv_base::NoMemory;

const LIMIT: usize = 16_777_216;

/// Whether the text of an image is assembled to the image.
fn comes_back(alloc: Global, image: &[u8]) -> Result<bool, AsmError> {
    if image.len() > LIMIT {
        return Ok(false);
    }
    let text = disassemble(alloc, image)?;
    if text.len() > LIMIT {
        return Ok(false);
    }
    let bytes = assemble(alloc, text.as_slice())?;
    Ok(bytes.as_slice() == image)
}

/// An image of an opcode and four operands that begin with a byte, each with four bytes after it.
fn with_operands(opcode: u8, specifier: u8) -> [u8; 21] {
    let s = specifier;
    [
        opcode, s, 0x61, 0xFE, 0x7F, 0x80, s, 0x61, 0xFE, 0x7F, 0x80, s, 0x61, 0xFE, 0x7F, 0x80, s,
        0x61, 0xFE, 0x7F, 0x80,
    ]
}

/// Bytes at the front of an operand: each mode, with PC and with other registers.
static SPECIFIERS: [u8; 26] = [
    0x00, 0x3F, 0x41, 0x4F, 0x50, 0x5E, 0x5F, 0x6C, 0x6F, 0x71, 0x7F, 0x82, 0x8F, 0x9D, 0x9F, 0xA3,
    0xAF, 0xB0, 0xBF, 0xCE, 0xCF, 0xDB, 0xDF, 0xE4, 0xEF, 0xFA,
];

/// Whether an opcode comes back with each of these bytes at the front of its operands.
fn opcode_comes_back(alloc: Global, opcode: u8) -> Result<bool, AsmError> {
    for specifier in &SPECIFIERS {
        let image = with_operands(opcode, *specifier);
        if !comes_back(alloc, &image)? {
            return Ok(false);
        }
    }
    Ok(true)
}

#[test]
fn every_opcode_with_every_operand(rt: HostRuntime) -> Result<(), Fail> {
    for n in 0..256u16 {
        let back = opcode_comes_back(rt.alloc(), n as u8).map_err(|_| "refused")?;
        assert!(rt; back, "{n}");
    }
    Ok(())
}

/// An image of several instructions.
const IMAGE: &[u8] =
    b"\xD0\x8F\x00\x00\x00\x80\x4C\xB2\xFE\xC1\xE5\x01\x02\x03\x04\x7E\x9F\x00\x10\x00\x80\xFD\x01\x3D\x01\x52\x53\xF0\xFF\xE8\x50\xFC\x00";

#[test]
fn every_front_of_an_image(rt: HostRuntime) -> Result<(), Fail> {
    for n in 0..IMAGE.len() {
        let back = comes_back(rt.alloc(), &IMAGE[..n]).map_err(|_| "refused")?;
        assert!(rt; back, "{n}");
    }
    Ok(())
}

/// A text of nothing but as many line feeds as a text may have bytes.
fn line_feeds(alloc: Global) -> Result<Vec<u8>, NoMemory> {
    let mut text = Vec::new(alloc);
    for _ in 0..LIMIT {
        text.push(b'\n')?;
    }
    Ok(text)
}

#[test]
fn line_feeds_alone(rt: HostRuntime) -> Result<(), Fail> {
    let text = line_feeds(rt.alloc())?;
    if text.len() > LIMIT {
        return Err("too long".into());
    }
    let bytes = assemble(rt.alloc(), text.as_slice()).map_err(|_| "refused")?;
    assert!(rt; bytes.len() == 0);
    Ok(())
}

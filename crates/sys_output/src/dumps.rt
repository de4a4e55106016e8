ghost use Rattle.std.specs.Prelude.{◌≡◌, ◌<◌, ◌≤◌, ◌+◌, ◌*◌, ◌∷◌, ◌^◌, [], drop, is_err, length, take};
ghost use Rattle.vm_state.specs.Partition.{guest_of, part};
ghost use Rattle.sys_state.specs.Dump.{dump_of, if_shown, register_lines, row_lines, text_of_lines};
ghost use Rattle.sys_devices.specs.ShownSince.{ShownSinceOn};

use crate::texts::{is_shown, name_text, psl_text, register_text, row_text};
use vax_hw::Hardware;
use vm_state::GuestState;
use vv_base::{Name, Text, put_u32};
use vv_io::{LineFault, Lines};

/// Puts a text on a line, with CR and LF after it.
fn put_text<L: Lines>(lines: &mut L, line: u8, mut text: Text<64>) -> Result<(), LineFault>
    requires line { line < 32 }
    requires short { length text ≤ 62 }
    ensures { ShownSinceOn line (is_err result) (L.lines lines.old) (L.lines lines.new) (text_of_lines (text ∷ [])) }
{
    text.append(b"\r\n");
    lines.put_on(line, text.bytes())
}

/// Puts the lines of the registers.
pub fn put_registers<L: Lines>(lines: &mut L, line: u8, r: &[u32; 16]) -> Result<(), LineFault>
    requires { line < 32 }
    ensures { ShownSinceOn line (is_err result) (L.lines lines.old) (L.lines lines.new) (text_of_lines (register_lines 0 r.now)) }
{
    for (number, v) in r.iter().enumerate() {
        put_text(lines, line, register_text(number, *v))?;
    }
    Ok(())
}

/// The 16 bytes of memory from an address on.
fn row_at<H: Hardware>(machine: &H, at: u32) -> [u8; 16]
    requires place { at + 16 < 2 ^ 32 }
    requires inside { at + 16 ≤ length (H.machine machine.now).memory }
    ensures { result ≡ take 16 (drop at (H.machine machine.now).memory) }
{
    let mut row = [0; 16];
    for number in 0..4 {
        put_u32(
            &mut row,
            4 * number,
            machine.read_long(at + 4 * number as u32),
        );
    }
    row
}

/// Puts the line of a row at an address, unless it is all zero.
pub fn put_row<L: Lines>(lines: &mut L, line: u8, at: u32, row: &[u8; 16]) -> Result<(), LineFault>
    requires { line < 32 }
    ensures { ShownSinceOn line (is_err result) (L.lines lines.old) (L.lines lines.new) (text_of_lines (if_shown at row.now [])) }
{
    if is_shown(row) {
        put_text(lines, line, row_text(at, row))
    } else {
        Ok(())
    }
}

/// Puts the lines of a guest's memory.
fn put_rows<H: Hardware, L: Lines>(
    machine: &H,
    g: &GuestState,
    lines: &mut L,
    line: u8,
) -> Result<(), LineFault>
    requires line { line < 32 }
    requires place { g.now.base + g.now.pages ≤ 65536 }
    requires inside { 512 * g.now.base + 512 * g.now.pages ≤ length (H.machine machine.now).memory }
    ensures { ShownSinceOn line (is_err result) (L.lines lines.old) (L.lines lines.new)
        (text_of_lines (row_lines (32 * g.now.pages) 0 (part (H.machine machine.now).memory (512 * g.now.base)
        (512 * g.now.pages)))) }
{
    for number in 0..32 * g.pages {
        let at = 16 * number;
        put_row(lines, line, at, &row_at(machine, 512 * g.base + at))?;
    }
    Ok(())
}

/// Puts a guest's dump on a line, one put for each of its lines; the first fault ends it.
pub fn dump<H: Hardware, L: Lines>(
    machine: &H,
    name: &Name,
    g: &GuestState,
    lines: &mut L,
    line: u8,
) -> Result<(), LineFault>
    requires line { line < 32 }
    requires place { g.now.base + g.now.pages ≤ 65536 }
    requires inside { 512 * g.now.base + 512 * g.now.pages ≤ length (H.machine machine.now).memory }
    ensures { ShownSinceOn line (is_err result) (L.lines lines.old) (L.lines lines.new) (dump_of name.now (guest_of (H.machine machine.now).memory g.now)) }
{
    put_text(lines, line, name_text(name))?;
    put_registers(lines, line, &g.r)?;
    put_text(lines, line, psl_text(g.psl.0))?;
    put_rows(machine, g, lines, line)
}

ghost use Rattle.sys_snap.specs.Conditions.{is_p0br, is_psl};
ghost use Rattle.sys_snap.specs.Parts.{bases_of, levels_of, registers_of};
ghost use Rattle.sys_snap.specs.Reader.{bases_in, levels_in, registers_in};
ghost use Rattle.sys_snap.specs.Reading.{four, one, two};
ghost use Rattle.sys_snap.specs.Reads.{Reads, ReadsSeen};
ghost use Rattle.vm_state.specs.Registers.{allows};
ghost use Rattle.vm_state.specs.declared.register.Register.TheVariants.{Astlvl, P0lr, P1lr, Sbr, Scbb, Sisr};

use crate::cursor::{Cursor, flag, long, longs};
use crate::fault::SnapFault;
use vax_arch::Psl;
use vv_base::get_u16;

/// R0 to R15, PSL, and the five stack pointers.
#[derive(Clone, Copy)]
pub struct Registers {
    pub r: [u32; 16],
    pub psl: Psl,
    pub stacks: [u32; 5],
}

/// The table registers, PCBB and SCBB.
#[derive(Clone, Copy)]
pub struct Bases {
    pub p0br: u32,
    pub p0lr: u32,
    pub p1br: u32,
    pub p1lr: u32,
    pub sbr: u32,
    pub slr: u32,
    pub pcbb: u32,
    pub scbb: u32,
}

/// ASTLVL, SISR and MAPEN.
#[derive(Clone, Copy)]
pub struct Levels {
    pub astlvl: u8,
    pub sisr: u16,
    pub mapen: bool,
}

fn psl(r: &mut Cursor) -> Result<Psl, SnapFault>
    ensures { ReadsSeen (λ p. p.0) (four is_psl) r.old r.new result }
{
    let place = r.place();
    let psl = Psl(long(r)?);
    if psl.has_must_be_zero_bit() {
        return Err(SnapFault { place });
    }
    Ok(psl)
}

/// The registers, 88 bytes.
pub fn read_registers(r: &mut Cursor) -> Result<Registers, SnapFault>
    ensures { ReadsSeen registers_of registers_in r.old r.new result }
{
    let general = longs(r)?;
    let psl = psl(r)?;
    let stacks = longs(r)?;
    Ok(Registers {
        r: general,
        psl,
        stacks,
    })
}

/// P0BR: 0, or an address in system space, a multiple of 4.
fn p0br(r: &mut Cursor) -> Result<u32, SnapFault>
    ensures { Reads (four is_p0br) r.old r.new result }
{
    let place = r.place();
    let v = long(r)?;
    if v != 0 && (v % 4 != 0 || v / 0x4000_0000 != 2) {
        return Err(SnapFault { place });
    }
    Ok(v)
}

/// The length of P0's or of the system's table.
fn table_length(r: &mut Cursor) -> Result<u32, SnapFault>
    ensures { Reads (four (allows P0lr)) r.old r.new result }
{
    let place = r.place();
    let v = long(r)?;
    if v > 8192 {
        return Err(SnapFault { place });
    }
    Ok(v)
}

fn p1lr(r: &mut Cursor) -> Result<u32, SnapFault>
    ensures { Reads (four (allows P1lr)) r.old r.new result }
{
    let place = r.place();
    let v = long(r)?;
    if v < 2_088_960 || v > 2_097_152 {
        return Err(SnapFault { place });
    }
    Ok(v)
}

/// An address that is a multiple of 4.
fn aligned(r: &mut Cursor) -> Result<u32, SnapFault>
    ensures { Reads (four (allows Sbr)) r.old r.new result }
{
    let place = r.place();
    let v = long(r)?;
    if v % 4 != 0 {
        return Err(SnapFault { place });
    }
    Ok(v)
}

fn scbb(r: &mut Cursor) -> Result<u32, SnapFault>
    ensures { Reads (four (allows Scbb)) r.old r.new result }
{
    let place = r.place();
    let v = long(r)?;
    if v % 512 != 0 {
        return Err(SnapFault { place });
    }
    Ok(v)
}

/// The table registers, PCBB and SCBB, 32 bytes.
pub fn read_bases(r: &mut Cursor) -> Result<Bases, SnapFault>
    ensures { ReadsSeen bases_of bases_in r.old r.new result }
{
    let p0br = p0br(r)?;
    let p0lr = table_length(r)?;
    let p1br = aligned(r)?;
    let p1lr = p1lr(r)?;
    let sbr = aligned(r)?;
    let slr = table_length(r)?;
    let pcbb = aligned(r)?;
    let scbb = scbb(r)?;
    Ok(Bases {
        p0br,
        p0lr,
        p1br,
        p1lr,
        sbr,
        slr,
        pcbb,
        scbb,
    })
}

fn astlvl(r: &mut Cursor) -> Result<u8, SnapFault>
    ensures { Reads (one (allows Astlvl)) r.old r.new result }
{
    let place = r.place();
    let level = r.cut(1)?[0];
    if level > 4 {
        return Err(SnapFault { place });
    }
    Ok(level)
}

fn sisr(r: &mut Cursor) -> Result<u16, SnapFault>
    ensures { Reads (two (allows Sisr)) r.old r.new result }
{
    let place = r.place();
    let bits = get_u16(r.cut(2)?, 0);
    if bits % 2 != 0 {
        return Err(SnapFault { place });
    }
    Ok(bits)
}

/// ASTLVL, SISR and MAPEN, 4 bytes.
pub fn read_levels(r: &mut Cursor) -> Result<Levels, SnapFault>
    ensures { ReadsSeen levels_of levels_in r.old r.new result }
{
    let astlvl = astlvl(r)?;
    let sisr = sisr(r)?;
    let mapen = flag(r)?;
    Ok(Levels {
        astlvl,
        sisr,
        mapen,
    })
}

//! Plays a case of the machine alone, with 16 pages. The system table at 0 and the P0 table at 80 map each page to the frame of
//! its number, and the P1 table at 100 the last four pages to the frames 8 to 11. All are open to all modes and modified. Numbers
//! are hexadecimal.

use crate::case::{Case, Difference};
use std::alloc::Global;
use test_vm_stage::{Place, REGISTERS};
use vax_cpu::Cpu;
use vax_hw::{Dest, Exit, Hardware, Psl, World};
use vv_base::NoMemory;

/// The pages of the machine.
const PAGES: u32 = 16;

/// Where the code begins.
const CODE: u32 = 0x200;

/// In user mode, with the tables, and zero in all registers but PC.
fn world(vmpsl: u32) -> World {
    World {
        r: [0, 0, 0, 0, 0, 0, 0, 0, 0, 0, 0, 0, 0, 0, 0, CODE],
        psl: Psl(0x03C0_0000),
        vmpsl: Psl(vmpsl),
        p0br: 0x8000_0080,
        p0lr: 16,
        p1br: 0x7F80_0110,
        p1lr: 0x1F_FFFC,
        sbr: 0,
        slr: 16,
    }
}

/// What it has in a register; 0 of what the machine hasn't.
fn value(place: Place, w: &World) -> u32 {
    match place {
        Place::R(n) if n < 16 => w.r[n],
        Place::Psl => w.psl.0,
        Place::P0br => w.p0br,
        Place::P0lr => w.p0lr,
        Place::P1br => w.p1br,
        Place::P1lr => w.p1lr,
        Place::Sbr => w.sbr,
        Place::Slr => w.slr,
        _ => 0,
    }
}

/// Puts a register, if the machine has it; whether it has.
fn put_register(w: &mut World, place: Place, v: u32) -> bool {
    match place {
        Place::R(n) if n < 16 => w.r[n] = v,
        Place::Psl => w.psl = Psl(v),
        Place::P0br => w.p0br = v,
        Place::P0lr => w.p0lr = v,
        Place::P1br => w.p1br = v,
        Place::P1lr => w.p1lr = v,
        Place::Sbr => w.sbr = v,
        Place::Slr => w.slr = v,
        _ => {
            return false;
        }
    }
    true
}

/// Puts a longword, if it lies in memory; whether it does.
fn put_long(cpu: &mut Cpu, pa: u32, v: u32) -> bool {
    let lies_inside = u64::from(pa) + 4 <= 512 * u64::from(cpu.pages());
    if lies_inside {
        cpu.write_long(pa, v);
    }
    lies_inside
}

/// Puts registers and longwords; whether there are all these.
fn put_all(cpu: &mut Cpu, w: &mut World, values: &[(Place, u32)]) -> bool {
    let mut fits = true;
    for (place, v) in values {
        fits = fits
            && match *place {
                Place::Long(pa) => put_long(cpu, pa, *v),
                register => put_register(w, register, *v),
            };
    }
    fits
}

/// Puts the tables.
fn put_tables(cpu: &mut Cpu) {
    for page in 0..16u32 {
        let _ = put_long(cpu, 4 * page, 0xA400_0000 + page);
        let _ = put_long(cpu, 0x80 + 4 * page, 0xA400_0000 + page);
    }
    for page in 0..4u32 {
        let _ = put_long(cpu, 0x100 + 4 * page, 0xA400_0008 + page);
    }
}

/// The byte of a number; 0 beyond all.
fn byte_of(bytes: &[u8], place: usize) -> u8 {
    bytes.get(place).copied().unwrap_or(0)
}

/// Puts the code, by longwords; whether it lies in memory.
fn put_code(cpu: &mut Cpu, code: &[u8]) -> bool {
    let mut fits = code.len() <= 0x1000;
    for place in 0..0x1000u32 {
        let from = 4 * place as usize;
        if from < code.len() {
            let long = [
                byte_of(code, from),
                byte_of(code, from + 1),
                byte_of(code, from + 2),
                byte_of(code, from + 3),
            ];
            fits = put_long(cpu, CODE + 4 * place, u32::from_le_bytes(long)) && fits;
        }
    }
    fits
}

/// A machine before the steps, and what is loaded; none where it can't have all that is said of it.
fn begun(alloc: Global, case: &Case) -> Result<Option<(Cpu, World)>, NoMemory> {
    let mut cpu = Cpu::new(alloc, PAGES)?;
    let mut w = world(case.vmpsl);
    put_tables(&mut cpu);
    if put_code(&mut cpu, &case.code) && put_all(&mut cpu, &mut w, &case.before) {
        Ok(Some((cpu, w)))
    } else {
        Ok(None)
    }
}

/// What a reference is for.
fn intent(write: bool) -> &'static str {
    if write { "write" } else { "read" }
}

/// Whether a text names an exit.
fn is_told(alloc: Global, exit: &Exit, text: &str) -> Result<bool, NoMemory> {
    let told = match exit {
        Exit::Budget => format!(in alloc; "budget")?,
        Exit::NotValid { va, write } => format!(in alloc; "not valid {va:X} {}", intent(*write))?,
        Exit::Denied { va, write } => format!(in alloc; "denied {va:X} {}", intent(*write))?,
        Exit::Modify { va } => format!(in alloc; "modify {va:X}")?,
        Exit::Arithmetic { kind } => format!(in alloc; "arithmetic {kind}")?,
        Exit::Refused(refusal) => format!(in alloc; "refused {refusal:?}")?,
        Exit::Emulate(trap) => {
            let (op, a, b, c) = (trap.op, trap.a, trap.b, trap.c);
            match trap.dest {
                Dest::Nowhere => format!(in alloc; "trap {op:?} {a:X} {b:X} {c:X}")?,
                Dest::Register(n) => format!(in alloc; "trap {op:?} {a:X} {b:X} {c:X} R{n}")?,
                Dest::Memory(va) => format!(in alloc; "trap {op:?} {a:X} {b:X} {c:X} {va:X}")?,
            }
        }
    };
    Ok(told.as_str() == text)
}

/// The first register that differs.
fn other_register(found: &World, wanted: &World) -> Option<Difference> {
    let (_, place) = REGISTERS.iter().find(|register| value(register.1, found)
        != value(register.1, wanted))?;
    Some(Difference::At {
        place: *place,
        found: value(*place, found),
        wanted: value(*place, wanted),
    })
}

/// The first longword that differs.
fn other_long(found: &Cpu, wanted: &Cpu) -> Option<Difference> {
    for place in 0..128 * PAGES {
        let pa = 4 * place;
        if found.pages() == PAGES
            && wanted.pages() == PAGES
            && found.read_long(pa) != wanted.read_long(pa)
        {
            return Some(Difference::At {
                place: Place::Long(pa),
                found: found.read_long(pa),
                wanted: wanted.read_long(pa),
            });
        }
    }
    None
}

/// The registers after a run: where it ended with a trap, those of the trap, if the machine's are as before.
fn registers_after(exit: &Exit, before: &World, w: World) -> World {
    match exit {
        Exit::Emulate(_) if w != *before => *before,
        Exit::Emulate(trap) => {
            let mut traps = w;
            traps.r[..15].copy_from_slice(&trap.regs);
            traps.r[15] = trap.next_pc;
            traps
        }
        _ => w,
    }
}

/// What differs from a case, if anything.
pub fn compare(alloc: Global, case: &Case) -> Result<Option<Difference>, NoMemory> {
    let (Some((mut cpu, before)), Some((mut wanted, mut after))) = (
        begun(alloc, case)?,
        begun(alloc, case)?,
    ) else {
        return Ok(Some(Difference::SetUp));
    };
    if !put_all(&mut wanted, &mut after, &case.after) {
        return Ok(Some(Difference::SetUp));
    }
    cpu.load_world(&before);
    let exit = cpu.run(case.steps().max(1));
    let found = registers_after(&exit, &before, cpu.save_world());
    let [plain, ..] = case.kinds;
    if !is_told(alloc, &exit, case.ends)? {
        Ok(Some(Difference::Ended(exit)))
    } else if cpu.retired() != plain {
        Ok(Some(Difference::Retired(cpu.retired())))
    } else if cpu.misses() != case.misses {
        Ok(Some(Difference::Missed(cpu.misses())))
    } else {
        Ok(other_register(&found, &after).or(other_long(&cpu, &wanted)))
    }
}

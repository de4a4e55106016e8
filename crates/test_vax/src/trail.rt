//! The trail of a loop at 200, twice through and once more: INCL R0; MOVB (R1)+,R3; MOVL R0,R4; ADDW2 R0,R5; CLRQ R6;
//! TSTL (R2); BRB. Most of it changes one register or none; MOVB moves R1 as well, CLRQ clears R7 too. Numbers are hexadecimal.

use crate::known::{At, machine, put, world};
use std::alloc::Global;
use std::process::Abort;
use std::test::Fail;
use vax_cpu::Cpu;
use vax_hw::{Exit, Hardware};
use vv_base::NoMemory;

/// The loop, and the four bytes that MOVB finds.
static LONGS: [At; 6] = [
    (0x200, 0x8190_50D6),
    (0x204, 0x5450_D053),
    (0x208, 0x7C55_50A0),
    (0x20C, 0x1162_D556),
    (0x210, 0xEF),
    (0x800, 0x4433_2211),
];

/// R0 to PC before.
static REGISTERS: [u32; 16] = [
    0xFFFF_FFFE,
    0x800,
    0xC00,
    0xAABB_CCDD,
    5,
    0x1234_FFFF,
    0xDEAD_BEEF,
    0xCAFE_F00D,
    8,
    9,
    10,
    11,
    12,
    13,
    0xFFFF_FFFF,
    0x200,
];

/// A machine with the loop, in user mode.
fn looping(alloc: Global) -> Result<Cpu, NoMemory> {
    let mut cpu = machine(alloc)?;
    for long in &LONGS {
        put(&mut cpu, *long);
    }
    let mut w = world(3, 0, 0);
    w.r = REGISTERS;
    cpu.load_world(&w);
    Ok(cpu)
}

/// The trail after two runs, and R3.
fn trailed(alloc: Global, first: u32, second: u32) -> Result<(Exit, u64, u32), NoMemory> {
    let mut cpu = looping(alloc)?;
    let _first = cpu.run(first.max(1));
    let exit = cpu.run(second.max(1));
    Ok((exit, cpu.trail(), cpu.save_world().r[3]))
}

/// The budgets of two runs, the trail after them, and R3.
type Trail = (u32, u32, u64, u32);

static TRAILS: [Trail; 5] = [
    (1, 6, 0x1E_D148_F9BC, 0xAABB_CC11),
    (1, 13, 0x2C_FBDF_3726, 0xAABB_CC22),
    (1, 14, 0x2E_B8D0_1C09, 0xAABB_CC22),
    (7, 8, 0x2E_B8D0_1C09, 0xAABB_CC22),
    (10, 5, 0x2E_B8D0_1C09, 0xAABB_CC22),
];

/// A row's runs.
fn check_trail(rt: &impl Abort, alloc: Global, row: &Trail) -> Result<(), NoMemory> {
    let (first, second, trail, r3) = *row;
    let found = trailed(alloc, first, second)?;
    assert!(rt; found == (Exit::Budget, trail, r3), "{first} {second}");
    Ok(())
}

#[test]
fn trails_are_summed(rt: HostRuntime) -> Result<(), Fail> {
    for row in &TRAILS {
        check_trail(&rt, rt.alloc(), row)?;
    }
    Ok(())
}

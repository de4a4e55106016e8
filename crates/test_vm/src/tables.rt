//! The machine's answers are the guest's, over tables of all kinds, before and after writes of their entries.

use crate::Event::{self, Load, Put};
use crate::Line::{Agrees, Fills, Follows};
use crate::{Bench, MAPPED, Registers, play};
use std::test::Fail;

/// Table registers with mapping on. Macros, since a constant's value calls no function.
macro_rules! registers {
    ($p0br:expr, $p0lr:expr, $p1br:expr, $p1lr:expr, $sbr:expr, $slr:expr) => {
        Registers {
            mapen: true,
            p0br: $p0br,
            p0lr: $p0lr,
            p1br: $p1br,
            p1lr: $p1lr,
            sbr: $sbr,
            slr: $slr,
        }
    };
}

/// With a P0 table of another base and length.
macro_rules! p0 {
    ($p0br:expr, $p0lr:expr) => {
        registers!($p0br, $p0lr, 0, 0x20_0000, 0x4000, 64)
    };
}

/// With a P1 table.
macro_rules! p1 {
    ($p1br:expr, $p1lr:expr) => {
        registers!(0x8000_4200, 64, $p1br, $p1lr, 0x4000, 64)
    };
}

/// With another system table.
macro_rules! system {
    ($sbr:expr, $slr:expr) => {
        registers!(0x8000_4200, 64, 0, 0x20_0000, $sbr, $slr)
    };
}

/// Registers; how many pages among those that are compared have frames then; and two events.
type Row = (Registers, u32, Event, Event);

/// Mapping off.
const OFF: Registers = Registers {
    mapen: false,
    ..MAPPED
};

static ROWS: [Row; 15] = [
    // P0 and S as they are; the P0 table's page is written through itself, then the system table's.
    (
        MAPPED,
        128,
        Put(0x4284, 0xA400_0020),
        Put(0x4080, 0xA400_0021),
    ),
    // Mapping off.
    (OFF, 64, Put(0x4220, 0), Load(MAPPED)),
    // No P0 page, and as many as there can be.
    (p0!(0x8000_4200, 0), 64, Put(0x4200, 5), Load(MAPPED)),
    (
        p0!(0x8000_4200, 8192),
        128,
        Put(0x4300, 0xA400_0001),
        Put(0x4000, 0x2000_0000),
    ),
    // A P0 table that is the system table, one in the last page, and one beyond it.
    (
        p0!(0x8000_4000, 64),
        128,
        Put(0x4080, 0xA400_0021),
        Put(0x4080, 0),
    ),
    (
        p0!(0x8000_7E00, 64),
        64,
        Put(0x7E04, 0xA400_003F),
        Put(0x40FC, 0xA400_0040),
    ),
    (
        p0!(0x8000_7FFC, 64),
        64,
        Put(0x7FFC, 0xA400_003F),
        Put(0x4100, 0xA400_0021),
    ),
    // P1 empty, with its eight last pages, with the most that there can be, at its lower end and at its upper end.
    (
        p1!(0x7F80_4320, 0x20_0000),
        128,
        Put(0x433C, 0xA400_0003),
        Load(MAPPED),
    ),
    (
        p1!(0x7F80_4220, 0x1F_FFF8),
        136,
        Put(0x421C, 0xA400_0003),
        Put(0x4200, 0xA400_0040),
    ),
    (
        p1!(0x7F80_C200, 0x1F_E000),
        130,
        Put(0x4204, 0x8400_0003),
        Put(0x4200, 0x9400_0004),
    ),
    (
        p1!(0x7F80_4200, 0x1F_E000),
        128,
        Put(0x41FC, 0xA400_0005),
        Put(0x4084, 0),
    ),
    // No system page, and as many as there can be; a system table in the P0 table's page, and one at memory's end.
    (system!(0x4000, 0), 0, Put(0x4000, 0), Load(MAPPED)),
    (
        system!(0x4000, 8192),
        129,
        Put(0x4100, 0xA400_0040),
        Put(0x4200, 0xA41F_FFFF),
    ),
    (
        system!(0x4200, 64),
        128,
        Put(0x4284, 0xA400_0020),
        Put(0x4284, 0xA400_0022),
    ),
    (
        system!(0x7FFC, 64),
        0,
        Put(0x7FFC, 0xA400_0005),
        Put(0x7FFC, 0xA41F_FFFF),
    ),
];

/// The machine agrees with the guest's tables before its pages are filled, after it, and after each of the events.
#[test]
fn tables_of_all_kinds(rt: HostRuntime) -> Result<(), Fail> {
    for (scene, row) in ROWS.iter().enumerate() {
        let (registers, pages, first, second) = *row;
        let lines = [
            Agrees(false),
            Fills(pages),
            Agrees(true),
            Follows(first, true),
            Follows(second, true),
        ];
        play(&rt, rt.alloc(), scene, &registers, &lines)?;
    }
    Ok(())
}

static UPPERS: [u32; 6] = [
    0x8000_0005,
    0x8400_0003,
    5,
    0x0400_0003,
    0x8000_0040,
    0x85E0_0007,
];

/// An entry of the P0 table, of the system table and of the page of the P0 table, under each code, valid and not, modified
/// and not, with a frame in memory and beyond.
#[test]
fn entries_of_all_kinds(rt: HostRuntime) -> Result<(), Fail> {
    let mut bench = Bench::with_tables(rt.alloc(), &MAPPED)?;
    for code in 0..16u32 {
        for (scene, upper) in UPPERS.iter().enumerate() {
            let long = code.wrapping_mul(0x0800_0000).wrapping_add(*upper);
            let lines = [
                Follows(Put(0x4220, long), true),
                Follows(Put(0x4020, long), true),
                Follows(Put(0x4084, long), true),
                Follows(Put(0x4084, 0xA400_0021), true),
            ];
            bench.play(&rt, scene, &lines);
        }
    }
    Ok(())
}

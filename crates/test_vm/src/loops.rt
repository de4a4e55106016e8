ghost use Rattle.std.specs.Prelude.{◌≤◌, IfOk};
ghost use Rattle.vm_guest.specs.Kept.{IsShadowedIn};

use crate::{Cost, Counted};
use std::alloc::Global;
use std::process::Abort;
use std::test::Fail;
use vm_console::KeptPort;
use vm_guest::Guest;
use vv_base::NoMemory;

/// Pages of the guest; its real tables lie after them in the machine.
const PAGES: u32 = 128;

/// Where a program begins.
const START: u32 = 0x200;

/// Mapping is turned on; the program follows.
static MAPS: [u8; 31] = [
    0xDA, 0x8F, 0x00, 0x20, 0x00, 0x00, 0x0C, // 200 MTPR #2000, #SBR
    0xDA, 0x8F, 0x80, 0x00, 0x00, 0x00, 0x0D, // 207 MTPR #80, #SLR
    0xDA, 0x8F, 0x00, 0x22, 0x00, 0x80, 0x08, // 20E MTPR #80002200, #P0BR
    0xDA, 0x8F, 0x80, 0x00, 0x00, 0x00, 0x09, // 215 MTPR #80, #P0LR
    0xDA, 0x01, 0x38, // 21C MTPR #1, #MAPEN
];

/// Two instructions a turn.
static TIGHT: [u8; 4] = [
    0xD6, 0x50, // INCL R0
    0x11, 0xFC, // BRB
];

/// Sixteen instructions a turn, which read four pages one after another, write three, and are themselves in one.
static MIXED: [u8; 89] = [
    0xD0, 0x8F, 0x00, 0x30, 0x00, 0x00, 0x51, // MOVL #3000, R1
    0xD0, 0x8F, 0x00, 0x38, 0x00, 0x00, 0x53, // MOVL #3800, R3
    0xD0, 0x8F, 0x00, 0x2C, 0x00, 0x00, 0x5E, // MOVL #2C00, SP
    0xD0, 0x8F, 0x00, 0x3C, 0x00, 0x00, 0x56, // MOVL #3C00, R6
    0xD4, 0x57, // CLRL R7
    0xD0, 0x81, 0x52, // MOVL (R1)+, R2
    0xC1, 0x52, 0x63, 0xA3, 0x08, // ADDL3 R2, (R3), 8(R3)
    0xDD, 0x52, // PUSHL R2
    0xA0, 0x02, 0xC3, 0x00, 0x01, // ADDW2 #2, 100(R3)
    0x90, 0x66, 0x54, // MOVB (R6), R4
    0x88, 0x10, 0x66, // BISB2 #10, (R6)
    0xD0, 0x8E, 0x55, // MOVL (SP)+, R5
    0xD1, 0x55, 0x63, // CMPL R5, (R3)
    0x12, 0x02, // BNEQ
    0xD6, 0x58, // INCL R8
    0xE2, 0x57, 0xA3, 0x10, 0x00, // BBSS R7, 10(R3)
    0xD6, 0xA3, 0x20, // INCL 20(R3)
    0x9A, 0x66, 0x59, // MOVZBL (R6), R9
    0xCA, 0x8F, 0x00, 0xF8, 0xFF, 0xFF, 0x51, // BICL2 #FFFFF800, R1
    0xC8, 0x8F, 0x00, 0x30, 0x00, 0x00, 0x51, // BISL2 #3000, R1
    0x31, 0xC5, 0xFF, // BRW
];

/// A system table, open to kernel mode, and a P0 table, open to all, each of 128 entries: page n has the frame n, and is
/// modified.
fn tables() -> [u8; 1024] {
    let mut tables = [0; 1024];
    for n in 0..256usize {
        tables[4 * n] = (n % 128) as u8;
        tables[4 * n + 3] = if n < 128 { 0x94 } else { 0xA4 };
    }
    tables
}

/// What the mixed program reads.
fn data() -> [u8; 4096] {
    let mut data = [0; 4096];
    for n in 0..4096usize {
        data[n] = (5 * n % 256) as u8;
    }
    data
}

/// A program, with mapping off or on, and the outcome of 10,000 steps of it: how many are the machine's, and longwords read and
/// written by the kernel, runs of the machine, misses in them, and guarded runs.
struct Loop {
    name: &'static str,
    maps: bool,
    is_mixed: bool,
    plain: u64,
    costs: Cost,
}

/// Where its code is after its start.
fn offset(case: &Loop) -> usize
    ensures { result ≤ 31 }
{
    if case.maps { 31 } else { 0 }
}

/// The bytes of a program from its start on.
fn image(case: &Loop) -> [u8; 120] {
    let mut image = [0; 120];
    let at = offset(case);
    image[..31].copy_from_slice(&MAPS);
    if case.is_mixed {
        image[at..at + 89].copy_from_slice(&MIXED);
    } else {
        image[at..at + 4].copy_from_slice(&TIGHT);
    }
    image
}

/// The guest with a program, its tables and its data, at its start.
fn set_up(alloc: Global, case: &Loop) -> Result<(Counted, Guest), NoMemory>
    ensures { IfOk result (λ x. IsShadowedIn x.0.machine.memory x.1) }
{
    let mut machine = Counted::new(alloc, 1024)?;
    let mut guest = Guest::new(alloc, &mut machine, PAGES, 0, PAGES, START, false)?;
    guest.store(&mut machine, 0x2000, &tables());
    guest.store(&mut machine, 0x3000, &data());
    guest.store(&mut machine, START, &image(case));
    guest.start(&mut machine);
    Ok((machine, guest))
}

/// Ten thousand steps in one call cost what was counted.
fn check_loop(rt: &impl Abort, alloc: Global, case: &Loop) -> Result<(), NoMemory> {
    let (mut machine, mut guest) = set_up(alloc, case)?;
    let mut port = KeptPort::<64>::new(alloc)?;
    let before = machine.cost();
    let counts = guest.advance(&mut machine, &mut port, 10_000);
    assert!(rt; counts.plain == case.plain, "{}", case.name);
    assert!(rt; machine.cost_since(&before) == case.costs, "{}", case.name);
    Ok(())
}

#[test]
fn loops_cost_what_was_counted_by_hand(rt: HostRuntime) -> Result<(), Fail> {
    for case in &LOOPS {
        check_loop(&rt, rt.alloc(), case)?;
    }
    Ok(())
}

/// With mapping off a fill is one write and one run more. A first write of a page in which no table lies is one run more than
/// its fill, one longword read and one written; with mapping on, two more read. The mixed program touches the page of its
/// code, four that it reads, and three that it writes; then all is kept. Turning mapping on costs ten runs, ten longwords
/// written and five misses, as in the steps one by one; with it each fill reads three longwords. No step is guarded: the pages
/// that are written have the frames 15, 1C and 1E, and the tables lie in 10 and 11.
static LOOPS: [Loop; 4] = [
    Loop {
        name: "tight-off",
        maps: false,
        is_mixed: false,
        plain: 10_000,
        costs: [0, 1, 2, 1, 0],
    },
    Loop {
        name: "tight-on",
        maps: true,
        is_mixed: false,
        plain: 9995,
        costs: [3, 11, 12, 6, 0],
    },
    Loop {
        name: "mixed-off",
        maps: false,
        is_mixed: true,
        plain: 10_000,
        costs: [3, 11, 15, 8, 0],
    },
    Loop {
        name: "mixed-on",
        maps: true,
        is_mixed: true,
        plain: 9995,
        costs: [33, 21, 25, 13, 0],
    },
];

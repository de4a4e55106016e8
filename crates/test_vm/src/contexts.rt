//! Contexts that come and go: four are kept, and a fifth takes the slot of the one that was used least recently.

use crate::Event::{Load, Put, Touch};
use crate::Line::{Agrees, Fills, Follows, Frame, Happens, Rises};
use crate::NoPlace::Absent;
use crate::{Bench, Line, MAPPED, NoPlace, Registers, play};
use std::test::Fail;

/// Contexts with P0 tables after that of `MAPPED`, each 100 bytes further on; the first page has the frame of their number.
const ONE: Registers = Registers {
    p0br: 0x8000_4300,
    ..MAPPED
};

const TWO: Registers = Registers {
    p0br: 0x8000_4400,
    ..MAPPED
};

const THREE: Registers = Registers {
    p0br: 0x8000_4500,
    ..MAPPED
};

const FOUR: Registers = Registers {
    p0br: 0x8000_4600,
    ..MAPPED
};

/// The P0 tables of the contexts 1 to 4, in which a page has the frame of its number and the context's together.
static TABLES: [Line; 4] = [
    Rises(0x4300, 63, 0xA400_0001),
    Rises(0x4400, 62, 0xA400_0002),
    Rises(0x4500, 61, 0xA400_0003),
    Rises(0x4600, 60, 0xA400_0004),
];

/// A context that is loaded, what page 0 has before it is filled, and after it.
type Step = (Registers, Result<u32, NoPlace>, u32);

static STEPS: [Step; 14] = [
    (MAPPED, Err(Absent), 0),
    (ONE, Err(Absent), 1),
    (TWO, Err(Absent), 2),
    (THREE, Err(Absent), 3),
    // All four are kept.
    (MAPPED, Ok(0), 0),
    (ONE, Ok(1), 1),
    (THREE, Ok(3), 3),
    // The fifth takes the slot of 2, whose entries are gone; when 2 is back, 0 goes, then 1.
    (FOUR, Err(Absent), 4),
    (THREE, Ok(3), 3),
    (TWO, Err(Absent), 2),
    (FOUR, Ok(4), 4),
    (MAPPED, Err(Absent), 0),
    (TWO, Ok(2), 2),
    (ONE, Err(Absent), 1),
];

/// Contexts one after the other, each with what page 0 has before it is filled, and its own frame after it.
#[test]
fn four_contexts_are_kept(rt: HostRuntime) -> Result<(), Fail> {
    let mut bench = Bench::with_tables(rt.alloc(), &MAPPED)?;
    bench.play(&rt, 0, &TABLES);
    for (step, row) in STEPS.iter().enumerate() {
        let (registers, found, frame) = *row;
        let lines = [
            Happens(Load(registers)),
            Frame(0, found),
            Follows(Touch(0), true),
            Frame(0, Ok(frame)),
        ];
        bench.play(&rt, step, &lines);
    }
    Ok(())
}

/// A place that is written, what a system page has after it, and whether page 0 stays in the contexts 0 and 1, and in 2 and 3. The tables at 4200
/// and 4300 lie in frame 21, those at 4400 and 4500 in frame 22.
type Reaching = (u32, Result<u32, NoPlace>, bool, bool);

static REACHING: [Reaching; 3] = [
    (0x4000, Err(Absent), false, false),
    (0x4210, Ok(3), false, true),
    (0x4410, Ok(3), true, false),
];

/// Page 0 of a context, by its number, where it is kept or not.
fn kept(is_kept: bool, number: u32) -> Line {
    Frame(0, if is_kept { Ok(number) } else { Err(Absent) })
}

/// The four contexts, each with all its pages filled.
static FILLED: [Line; 11] = [
    Rises(0x4300, 63, 0xA400_0001),
    Rises(0x4400, 62, 0xA400_0002),
    Rises(0x4500, 61, 0xA400_0003),
    Fills(128),
    Happens(Load(ONE)),
    Fills(127),
    Happens(Load(TWO)),
    Fills(126),
    Happens(Load(THREE)),
    Fills(125),
    Frame(0x8000_0600, Ok(3)),
];

/// A system page stays filled in every context, and a write of a table drops what was read from it in all four slots.
#[test]
fn writes_reach_all_slots(rt: HostRuntime) -> Result<(), Fail> {
    for (scene, row) in REACHING.iter().enumerate() {
        let (pa, system, first, second) = *row;
        let lines = [
            Happens(Put(pa, 0xA400_0007)),
            Frame(0x8000_0600, system),
            Happens(Load(MAPPED)),
            kept(first, 0),
            Agrees(false),
            Happens(Load(ONE)),
            kept(first, 1),
            Agrees(false),
            Happens(Load(TWO)),
            kept(second, 2),
            Agrees(false),
            Happens(Load(THREE)),
            kept(second, 3),
            Agrees(false),
        ];
        let mut bench = Bench::with_tables(rt.alloc(), &MAPPED)?;
        bench.play(&rt, scene, &FILLED);
        bench.play(&rt, scene, &lines);
    }
    Ok(())
}

/// Registers; what a page of P0 and one of the system have after a touch of the first under them, and whether it has a frame.
type Change = (Registers, Result<u32, NoPlace>, Result<u32, NoPlace>, bool);

static CHANGES: [Change; 4] = [
    (
        Registers {
            sbr: 0x4004,
            ..MAPPED
        },
        Err(Absent),
        Ok(4),
        false,
    ),
    (Registers { slr: 63, ..MAPPED }, Ok(0), Ok(3), true),
    (
        Registers { slr: 0, ..MAPPED },
        Err(Absent),
        Err(Absent),
        false,
    ),
    (
        Registers {
            mapen: false,
            ..MAPPED
        },
        Ok(0),
        Err(Absent),
        true,
    ),
];

/// Another SBR, another SLR, mapping off and on: no entry is left, in no slot, and the registers before can be loaded again.
#[test]
fn nothing_stays_where_the_system_table_changes(rt: HostRuntime) -> Result<(), Fail> {
    for (scene, row) in CHANGES.iter().enumerate() {
        let (registers, process, system, has_frame) = *row;
        let lines = [
            Fills(128),
            Happens(Load(registers)),
            Frame(0, Err(Absent)),
            Frame(0x8000_0600, Err(Absent)),
            Follows(Touch(0), has_frame),
            Frame(0, process),
            Frame(0x8000_0600, system),
            Follows(Load(MAPPED), true),
        ];
        play(&rt, rt.alloc(), scene, &MAPPED, &lines)?;
    }
    Ok(())
}

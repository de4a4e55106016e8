//! Frames of tables that the guest itself writes, each in a guarded step, or that the kernel writes.

use crate::Event::{self, Load, Mark, Put, PutByte, Touch, Write};
use crate::Line::{Agrees, Fills, Follows, Frame, Happens, Rises};
use crate::NoPlace::Absent;
use crate::{Line, MAPPED, NoPlace, Registers, play};
use std::test::Fail;

/// The entry of page 8, an address, a write, and the frame of the address's page after it.
type Written = (u32, u32, Event, u32);

static WRITTEN: [Written; 9] = [
    // Page 8 is at frame 5; its entry is written at its system address, then at its P0 address.
    (0xA400_0005, 0x1000, Write(0x8000_4220, 6), 6),
    (0xA400_0005, 0x1000, Write(0x4220, 7), 7),
    // Page 8 is the P0 table: page 9's entry is written through it, then page 8's own.
    (0xA400_0021, 0x1200, Write(0x1024, 6), 6),
    (0xA400_0021, 0x1000, Write(0x1020, 5), 5),
    // Page 8 is the system table: the entry of the P0 table's page becomes that of the system table.
    (0xA400_0020, 0x1000, Write(0x1084, 0x20), 8),
    // The entry of the P0 table's page, by the system page that maps the system table.
    (0xA400_0005, 0x1000, Write(0x8000_4084, 0x20), 8),
    // The kernel writes the same entries.
    (0xA400_0005, 0x1000, Put(0x4220, 0xA400_0006), 6),
    (0xA400_0005, 0x1000, PutByte(0x4084, 0x20), 8),
    // The last frame of memory.
    (0xA400_0005, 0x1200, Write(0x8000_4224, 63), 63),
];

/// A page's frame changes with a byte that is written by a page that maps its table.
#[test]
fn tables_written_by_the_guest(rt: HostRuntime) -> Result<(), Fail> {
    for (scene, row) in WRITTEN.iter().enumerate() {
        let (entry_8, va, write, frame) = *row;
        let lines = [
            Follows(Put(0x4220, entry_8), true),
            Follows(write, true),
            Frame(va, Ok(frame)),
        ];
        play(&rt, rt.alloc(), scene, &MAPPED, &lines)?;
    }
    Ok(())
}

/// A write, and where a page of P0 and one of the system are after it.
type Dropped = (Event, Result<u32, NoPlace>, Result<u32, NoPlace>);

static DROPPED: [Dropped; 8] = [
    (Put(0x4220, 0xA400_0006), Err(Absent), Ok(3)),
    (Put(0x4000, 0xA400_0006), Err(Absent), Err(Absent)),
    (Put(0x4400, 0xA400_0006), Ok(2), Ok(3)),
    (Write(0x4400, 7), Ok(2), Ok(3)),
    (Mark(0x0400), Err(Absent), Ok(3)),
    (Mark(0x8000_0600), Err(Absent), Err(Absent)),
    (Mark(0x4000_0000), Ok(2), Ok(3)),
    (Load(MAPPED), Ok(2), Ok(3)),
];

/// What is after a write, without all pages being filled anew: only the written table's pages are missed.
#[test]
fn only_what_was_read_is_dropped(rt: HostRuntime) -> Result<(), Fail> {
    for (scene, row) in DROPPED.iter().enumerate() {
        let (write, process, system) = *row;
        let lines = [
            Fills(128),
            Happens(write),
            Frame(0x400, process),
            Frame(0x8000_0600, system),
        ];
        play(&rt, rt.alloc(), scene, &MAPPED, &lines)?;
    }
    Ok(())
}

/// A context that maps the first one's table, and whose table the first one maps.
const OTHER: Registers = Registers {
    p0br: 0x8000_4400,
    p1br: 0x7F80_4220,
    p1lr: 0x1F_FFF8,
    ..MAPPED
};

static ALIASING: [Line; 16] = [
    Rises(0x4400, 64, 0xA400_0000),
    Follows(Load(OTHER), true),
    Follows(Load(MAPPED), true),
    Follows(Write(0x4420, 9), true),
    Follows(Load(OTHER), true),
    Follows(Write(0x7FFF_F000, 1), true),
    Follows(Write(0x4220, 10), true),
    Follows(Load(MAPPED), true),
    Follows(Write(0x4200, 11), true),
    Follows(Load(OTHER), true),
    Frame(0x1000, Ok(9)),
    Frame(0x7FFF_F000, Ok(11)),
    Happens(Load(MAPPED)),
    Agrees(false),
    Happens(Touch(0x1000)),
    Frame(0x1000, Ok(10)),
];

/// Two contexts of which each maps the other's table: what is written in one is seen in the other.
#[test]
fn contexts_that_alias(rt: HostRuntime) -> Result<(), Fail> {
    Ok(play(&rt, rt.alloc(), 0, &MAPPED, &ALIASING)?)
}

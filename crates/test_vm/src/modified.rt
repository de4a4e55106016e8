//! Modify bits: clear at a fill, set by a grant, open for the time of a guarded step alone, and closed where an entry is read
//! from the page.

use crate::Event::{self, Grant, Load, Mark, Put, Touch, Write};
use crate::Line::{Agrees, Fails, Fills, Follows, Frame, Happens, Long, Open, Rises};
use crate::{Line, MAPPED, Registers, play};
use std::test::Fail;

/// Entries of the page at 1000, and how many pages have frames; whether writes can be granted; whether they can be once the modify
/// bit is set; and whether the page has a frame. Frame 21 has the P0 table, frame 20 the system table.
static GRANTS: [(u32, u32, bool, bool, bool); 8] = [
    (0xA400_0008, 128, true, true, true),
    (0xA000_0008, 128, false, true, true),
    (0xA400_0021, 128, false, false, true),
    (0xA000_0021, 128, false, false, true),
    (0xA400_0020, 128, false, false, true),
    (0x2400_0008, 127, false, false, false),
    (0xA400_0040, 127, false, false, false),
    (0xF800_0008, 128, false, true, true),
];

/// Writes to a page are granted, or they can't be.
fn granted(va: u32, is_granted: bool) -> Line {
    if is_granted {
        Happens(Grant(va))
    } else {
        Fails(Grant(va))
    }
}

/// Writes to the page at 1000 are granted, and it is open, or neither.
#[test]
fn grants(rt: HostRuntime) -> Result<(), Fail> {
    for (scene, row) in GRANTS.iter().enumerate() {
        let (entry, filled, is_granted, is_granted_marked, has_frame) = *row;
        let lines = [
            Happens(Put(0x4220, entry)),
            Fills(filled),
            Open(0x1000, false),
            granted(0x1000, is_granted),
            Open(0x1000, is_granted),
            Happens(Mark(0x1000)),
            granted(0x1000, is_granted_marked),
            Open(0x1000, is_granted_marked),
            Follows(Touch(0x1000), has_frame),
            Follows(Grant(0x8000_0000), true),
        ];
        play(&rt, rt.alloc(), scene, &MAPPED, &lines)?;
    }
    Ok(())
}

/// A byte of the entry of the page at 1200, written through the page at 1000.
const THROUGH: Event = Write(0x1020, 0x23);

static OWN_PAGE: [Line; 8] = [
    Follows(Put(0x4220, 0xA000_0021), true),
    Follows(THROUGH, false),
    Follows(Mark(0x1020), true),
    Long(0x4220, 0xA400_0021),
    Open(0x1000, false),
    Follows(THROUGH, true),
    Long(0x4220, 0xA400_0023),
    Open(0x1000, false),
];

/// The page at 1000 is that of the P0 table, and its modify bit is clear: setting it writes the page's own entry, then the
/// guest writes it through itself; the page is never left open.
#[test]
fn a_modify_bit_in_its_own_page(rt: HostRuntime) -> Result<(), Fail> {
    Ok(play(&rt, rt.alloc(), 0, &MAPPED, &OWN_PAGE)?)
}

/// With a P0 table at 4400.
const OTHER: Registers = Registers {
    p0br: 0x8000_4400,
    ..MAPPED
};

static CLOSED: [Line; 22] = [
    Rises(0x4400, 64, 0xA400_0000),
    Fills(128),
    // The second table's page, by its two addresses, and another one.
    Happens(Grant(0x4400)),
    Open(0x4400, true),
    Happens(Grant(0x8000_4400)),
    Open(0x8000_4400, true),
    Happens(Grant(0x4600)),
    Open(0x4600, true),
    Open(0x4400, true),
    Open(0x8000_4400, true),
    // The first entry that is read from the second table closes its page.
    Happens(Load(OTHER)),
    Open(0x8000_4400, true),
    Happens(Touch(0)),
    Open(0x8000_4400, false),
    Fails(Grant(0x8000_4400)),
    Open(0x8000_4400, false),
    Happens(Load(MAPPED)),
    Open(0x4400, false),
    Open(0x4600, true),
    Follows(Write(0x4400, 9), true),
    Follows(Load(OTHER), true),
    Frame(0, Ok(9)),
];

/// A page that was granted becomes that of a table: it is closed with the first entry that is read from it, in the slots of
/// other contexts too, and may not be granted again.
#[test]
fn a_page_of_a_table_is_closed(rt: HostRuntime) -> Result<(), Fail> {
    Ok(play(&rt, rt.alloc(), 0, &MAPPED, &CLOSED)?)
}

const OFF: Registers = Registers {
    mapen: false,
    ..MAPPED
};

static UNMAPPED: [Line; 10] = [
    Follows(Grant(0x4200), true),
    Follows(Write(0x4220, 7), true),
    Follows(Put(0x4224, 0xA400_0008), true),
    Follows(Mark(0x4200), true),
    Follows(Grant(0x7FFF), true),
    Follows(Grant(0x8000), false),
    Follows(Grant(0x8000_0000), false),
    Follows(Load(MAPPED), true),
    Frame(0x1000, Ok(7)),
    Frame(0x1200, Ok(8)),
];

/// With mapping off every page is modified, and none is read from.
#[test]
fn mapping_is_off(rt: HostRuntime) -> Result<(), Fail> {
    Ok(play(&rt, rt.alloc(), 0, &OFF, &UNMAPPED)?)
}

static GRANTED: [Line; 12] = [
    Rises(0x4400, 64, 0xA400_0000),
    Fills(128),
    Happens(Load(OTHER)),
    // The entries of the first context are kept, until one of its table is written.
    Fails(Grant(0x4200)),
    Happens(Put(0x4300, 1)),
    Happens(Grant(0x4200)),
    Open(0x4200, true),
    // An entry is read from the first table again.
    Happens(Load(MAPPED)),
    Happens(Touch(0)),
    Happens(Load(OTHER)),
    Open(0x4200, false),
    Agrees(false),
];

/// A page of a table that no entry is kept from any longer may be granted, and is closed when one is read from it again.
#[test]
fn a_page_that_was_a_tables_may_be_granted(rt: HostRuntime) -> Result<(), Fail> {
    Ok(play(&rt, rt.alloc(), 0, &MAPPED, &GRANTED)?)
}

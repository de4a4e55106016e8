ghost use Rattle.std.specs.Prelude.{IfOk};
ghost use Rattle.vm_guest.specs.Kept.{IsShadowedIn};

use crate::{Cost, Counted};
use std::alloc::Global;
use std::test::Fail;
use vm_console::KeptPort;
use vm_guest::Guest;
use vv_base::NoMemory;

/// Pages of the guest; its real tables lie after them in the machine.
const PAGES: u32 = 128;

/// Where a system table and five P0 tables begin.
const TABLES: u32 = 0x4000;

/// The tables, each of 128 entries: page n has the frame n, open to all, and is modified.
fn tables() -> [u8; 3072] {
    let mut tables = [0; 3072];
    for n in 0..768usize {
        tables[4 * n] = (n % 128) as u8;
        tables[4 * n + 3] = 0xA4;
    }
    tables
}

/// The program turns mapping on, reads and writes, writes its own table, goes to other contexts, and writes the table of one of
/// them by its system address.
static PROGRAM: [u8; 149] = [
    0xDA, 0x8F, 0x00, 0x40, 0x00, 0x00, 0x0C, // 200 MTPR #4000, #SBR
    0xDA, 0x8F, 0x80, 0x00, 0x00, 0x00, 0x0D, // 207 MTPR #80, #SLR
    0xDA, 0x8F, 0x00, 0x42, 0x00, 0x80, 0x08, // 20E MTPR #80004200, #P0BR
    0xDA, 0x8F, 0x80, 0x00, 0x00, 0x00, 0x09, // 215 MTPR #80, #P0LR
    0xDA, 0x01, 0x38, // 21C MTPR #1, #MAPEN
    0x01, // 21F NOP
    0x01, // 220 NOP
    0xD0, 0x50, 0x9F, 0x00, 0x10, 0x00, 0x00, // 221 MOVL R0, @#1000
    0xD0, 0x50, 0x9F, 0x00, 0x10, 0x00, 0x00, // 228 MOVL R0, @#1000
    0xD0, 0x8F, 0x16, 0x00, 0x00, 0xA4, 0x9F, 0x58, 0x42, 0x00, 0x00, // 22F MOVL #A4000016, @#4258
    0x01, // 23A NOP
    0xDA, 0x8F, 0x00, 0x44, 0x00, 0x80, 0x08, // 23B MTPR #80004400, #P0BR
    0x01, // 242 NOP
    0xDA, 0x8F, 0x00, 0x42, 0x00, 0x80, 0x08, // 243 MTPR #80004200, #P0BR
    0x01, // 24A NOP
    0xDA, 0x8F, 0x00, 0x46, 0x00, 0x80, 0x08, // 24B MTPR #80004600, #P0BR
    0xDA, 0x8F, 0x00, 0x48, 0x00, 0x80, 0x08, // 252 MTPR #80004800, #P0BR
    0xDA, 0x8F, 0x00, 0x4A, 0x00, 0x80, 0x08, // 259 MTPR #80004A00, #P0BR
    0x01, // 260 NOP
    0xD0, 0x8F, 0x01, 0x00, 0x00, 0xA4, 0x9F, 0x04, 0x48, 0x00, 0x80, // 261 MOVL #A4000001, @#80004804
    0xD0, 0x8F, 0x01, 0x00, 0x00, 0xA4, 0x9F, 0x04, 0x48, 0x00, 0x80, // 26C MOVL #A4000001, @#80004804
    0xD0, 0x8F, 0x01, 0x00, 0x00, 0xA4, 0x9F, 0x04, 0x48, 0x00, 0x80, // 277 MOVL #A4000001, @#80004804
    0xDA, 0x8F, 0x00, 0x48, 0x00, 0x80, 0x08, // 282 MTPR #80004800, #P0BR
    0x01, // 289 NOP
    0xD0, 0x8F, 0x01, 0x00, 0x00, 0xA4, 0x9F, 0x04, 0x48, 0x00, 0x80, // 28A MOVL #A4000001, @#80004804
];

/// The guest with its program and tables, at its start.
fn set_up(alloc: Global) -> Result<(Counted, Guest), NoMemory>
    ensures { IfOk result (λ x. IsShadowedIn x.0.machine.memory x.1) }
{
    let mut machine = Counted::new(alloc, 1024)?;
    let mut guest = Guest::new(alloc, &mut machine, PAGES, 0, PAGES, 0x200, false)?;
    guest.store(&mut machine, 0x200, &PROGRAM);
    guest.store(&mut machine, TABLES, &tables());
    guest.start(&mut machine);
    Ok((machine, guest))
}

/// Whether one step costs so much.
fn costs_so(
    machine: &mut Counted,
    guest: &mut Guest,
    port: &mut KeptPort<64>,
    wanted: &Cost,
) -> bool
    requires { IsShadowedIn machine.old.machine.memory guest.old }
    ensures { IsShadowedIn machine.new.machine.memory guest.new }
{
    let before = machine.cost();
    let _ = guest.advance(machine, port, 1);
    machine.cost_since(&before) == *wanted
}

#[test]
fn each_step_costs_what_was_counted_by_hand(rt: HostRuntime) -> Result<(), Fail> {
    let (mut machine, mut guest) = set_up(rt.alloc())?;
    let mut port = KeptPort::<64>::new(rt.alloc())?;
    for (what, wanted) in &STEPS {
        assert!(rt;
            costs_so(&mut machine, &mut guest, &mut port, wanted),
            "{what}"
        );
    }
    Ok(())
}

/// The steps of the program: longwords read and written by the kernel, runs of the machine, misses in them, and guarded runs.
/// Each switch empties what it drops, one write an entry; a mapped page is found by two longwords, a system page by one, of which
/// a fill reads the page's own entry twice. After a guarded store its page is closed by a write more, unless its own entry is
/// dropped; it may then be granted, since nothing is read from its frame. A fill from a frame that may be written reads each
/// entry that is filled in a group of 128 by which it may be, and closes those that map it.
static STEPS: [(&'static str, Cost); 25] = [
    ("SBR, over the filled page", [0, 2, 2, 1, 0]),
    ("SLR", [0, 2, 2, 1, 0]),
    ("P0BR, a context more", [0, 1, 2, 1, 0]),
    ("P0LR, one more", [0, 1, 2, 1, 0]),
    ("MAPEN, which drops three pages", [0, 4, 2, 1, 0]),
    ("the code's page is filled", [3, 1, 2, 1, 0]),
    ("a kept step", [0, 0, 1, 0, 0]),
    ("a page is filled, and granted for good", [6, 2, 3, 1, 0]),
    ("a kept store", [0, 0, 1, 0, 0]),
    (
        "a guarded store to a table, which drops three pages",
        [8, 5, 3, 1, 1],
    ),
    ("the code's page is filled again", [3, 1, 2, 1, 0]),
    ("a second context", [0, 0, 1, 0, 0]),
    ("its page is filled", [3, 1, 2, 1, 0]),
    ("back to the first context", [0, 0, 1, 0, 0]),
    ("a kept step there", [0, 0, 1, 0, 0]),
    ("a third context", [0, 0, 1, 0, 0]),
    ("its page is filled, and a fourth context", [3, 1, 2, 1, 0]),
    (
        "its page is filled, and a fifth context takes a slot",
        [3, 2, 2, 1, 0],
    ),
    ("its page is filled", [3, 1, 2, 1, 0]),
    (
        "a guarded store to the fourth context's table, by its system page, which is filled and closed",
        [6, 4, 3, 1, 1],
    ),
    (
        "a store there again, granted since nothing is read from it",
        [2, 1, 2, 0, 0],
    ),
    ("a kept store there", [0, 0, 1, 0, 0]),
    ("back to the fourth context", [0, 0, 1, 0, 0]),
    (
        "its page is filled, and the table's closed, the one in its group",
        [4, 2, 2, 1, 0],
    ),
    ("a guarded store there again", [4, 3, 2, 0, 1]),
];

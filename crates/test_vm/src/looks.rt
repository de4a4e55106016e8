//! How many records of real entries are looked at: as many as are dropped, and others of the few groups in which these lie.

ghost use Rattle.std.specs.Prelude.{IfOk};
ghost use Rattle.vm_shadow.specs.StandsFor.{StandsFor};

use crate::Event::{self, Load, Put, Touch, Write};
use crate::{Bench, MAPPED, Registers};
use std::alloc::Global;
use std::process::Abort;
use std::test::Fail;
use vv_base::NoMemory;

/// P0 with 8192 pages, from a table at 80000000 on.
const WIDE: Registers = Registers {
    p0br: 0x8000_0000,
    p0lr: 8192,
    ..MAPPED
};

/// A context of 64 pages, with its table at a place. A macro, since a constant's value calls no function.
macro_rules! narrow {
    ($p0br:expr) => {
        Registers {
            p0br: $p0br,
            p0lr: 64,
            ..MAPPED
        }
    };
}

/// The 64 pages of the wide P0 table. 62 of them have the frame 21, in which all 128 entries are valid; the next has the frame
/// 22, with one valid entry, and the last the frame 24, with one too. In the frame 23 a hundred are valid.
fn put_tables(bench: &mut Bench)
    requires { StandsFor bench.old.machine.memory bench.old.shadow bench.old.guest }
    ensures { StandsFor bench.new.machine.memory bench.new.shadow bench.new.guest }
{
    for j in 0..62 {
        let _ = bench.put(0x4000 + 4 * j, 0xA400_0021);
    }
    bench.put_rising(0x40F8, 1, 0xA400_0022);
    bench.put_rising(0x40FC, 1, 0xA400_0024);
    bench.put_rising(0x4200, 64, 0xA400_0000);
    bench.put_rising(0x4300, 64, 0xA400_0000);
    bench.put_rising(0x4400, 1, 0xA400_0001);
    bench.put_rising(0x4600, 50, 0xA400_0000);
    bench.put_rising(0x46C8, 50, 0xA400_0000);
    bench.put_rising(0x4800, 1, 0xA400_0001);
}

/// Refers to each page of P0.
fn touch_process(bench: &mut Bench)
    requires { StandsFor bench.old.machine.memory bench.old.shadow bench.old.guest }
    ensures { StandsFor bench.new.machine.memory bench.new.shadow bench.new.guest }
{
    for page in 0..8192 {
        let _ = bench.touch(512 * page);
    }
}

/// A guest with 8,037 filled entries: 7,936 from the frame 21, one from 22, a hundred from 23. One was read from 24 before,
/// in the group of the hundred, and is gone.
fn with_filled(alloc: Global) -> Result<Bench, NoMemory>
    ensures { IfOk result (λ b. StandsFor b.machine.memory b.shadow b.guest) }
{
    let mut bench = Bench::new(alloc)?;
    put_tables(&mut bench);
    let _ = bench.load(&WIDE);
    let _ = bench.touch(0x3F_0000);
    bench.put_rising(0x40FC, 1, 0xA400_0023);
    touch_process(&mut bench);
    Ok(bench)
}

/// What happens, and how many records are looked at for it.
type Row = (&'static str, Event, u64);

static ROWS: [Row; 22] = [
    (
        "a store to a watched frame without dependents, by its group",
        Put(0x4804, 0),
        100,
    ),
    ("a store there again", Put(0x4804, 0), 0),
    ("a store to a frame with one dependent", Put(0x4404, 0), 1),
    ("a store to a frame with a hundred", Put(0x47FC, 0), 100),
    ("a fill", Touch(0x3E_0000), 0),
    (
        "a guarded store to a frame with one dependent",
        Write(0x4408, 0),
        1,
    ),
    (
        "a fill from a frame that may be written by an entry, by its group",
        Touch(0x3E_0000),
        128,
    ),
    ("a fill from it again", Touch(0x3E_0000), 0),
    ("a second context", Load(narrow!(0x8000_0200)), 0),
    ("a fill there", Touch(0), 0),
    ("a third context", Load(narrow!(0x8000_0400)), 0),
    ("a fill there", Touch(0), 0),
    ("a fourth context", Load(narrow!(0x8000_0600)), 0),
    ("a fill there", Touch(0), 0),
    (
        "a fifth context, where the first goes with all its entries",
        Load(narrow!(0x8000_0800)),
        7937,
    ),
    ("a fill there", Touch(0), 0),
    (
        "another, where the second goes with one",
        Load(narrow!(0x8000_0A00)),
        1,
    ),
    ("a fill there", Touch(0x200), 0),
    (
        "mapping off, which drops the four that are left",
        Load(Registers {
            mapen: false,
            ..MAPPED
        }),
        4,
    ),
    ("a fill with mapping off", Touch(0), 0),
    ("mapping on, which drops it", Load(WIDE), 1),
    ("mapping stays on", Load(WIDE), 0),
];

/// What a row says happens, and the shadow looks at as many records as the row says.
fn check_row(rt: &impl Abort, bench: &mut Bench, row: &Row)
    requires { StandsFor bench.old.machine.memory bench.old.shadow bench.old.guest }
    ensures { StandsFor bench.new.machine.memory bench.new.shadow bench.new.guest }
{
    let (what, event, looked) = row;
    let before = bench.shadow.looked_at();
    assert!(rt; bench.happen(*event), "{what}");
    assert_eq!(rt;
        bench.shadow.looked_at().wrapping_sub(before),
        *looked,
        "{what}"
    );
}

/// Among eight thousand filled entries, what is looked at grows with what is dropped.
#[test]
fn few_records_are_looked_at(rt: HostRuntime) -> Result<(), Fail> {
    let mut bench = with_filled(rt.alloc())?;
    for row in &ROWS {
        check_row(&rt, &mut bench, row);
    }
    Ok(())
}

/// A guest that writes its whole table once drops each entry once.
#[test]
fn a_whole_table_is_written(rt: HostRuntime) -> Result<(), Fail> {
    let mut bench = with_filled(rt.alloc())?;
    let before = bench.shadow.looked_at();
    bench.put_rising(0x4200, 128, 0xA400_0000);
    assert_eq!(rt; bench.shadow.looked_at().wrapping_sub(before), 7936);
    Ok(())
}

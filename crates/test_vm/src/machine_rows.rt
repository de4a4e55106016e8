//! One instruction of the machine itself, on a copy of it, before and after writes of tables.

ghost use Rattle.std.specs.Prelude.{IfOk};
ghost use Rattle.vm_shadow.specs.StandsFor.{StandsFor};

use crate::{Bench, MAPPED};
use std::alloc::Global;
use std::process::Abort;
use std::test::Fail;
use vax_cpu::Cpu;
use vax_hw::{Exit, Hardware, Psl};
use vv_base::NoMemory;

/// MOVB (R1),R3 at 200, and MOVB R3,(R1) at 204.
const LOADS: u32 = 0x200;

const STORES: u32 = 0x204;

fn copy_of(alloc: Global, machine: &Cpu) -> Result<Cpu, NoMemory> {
    let pages = machine.pages();
    let mut copy = Cpu::new(alloc, pages)?;
    for i in 0..128 * pages {
        if i / 128 < copy.pages() {
            copy.write_long(4 * i, machine.read_long(4 * i));
        }
    }
    Ok(copy)
}

/// How one instruction at PC ends in a real mode, and what is in R3 then.
fn run_one(
    alloc: Global,
    bench: &Bench,
    mode: u32,
    pc: u32,
    r1: u32,
) -> Result<(Exit, u32), NoMemory>
    requires { StandsFor bench.now.machine.memory bench.now.shadow bench.now.guest }
{
    let mut machine = copy_of(alloc, &bench.machine)?;
    let mut w = bench.world();
    w.psl = Psl(0x2000_0000 + mode % 4 * 0x0140_0000);
    w.r[15] = pc;
    w.r[1] = r1;
    machine.load_world(&w);
    let exit = machine.run(1);
    let [_, _, _, r3, ..] = machine.save_world().r;
    Ok((exit, r3))
}

/// A guest with the two instructions, and the byte 11 in frame 5.
fn with_code(alloc: Global) -> Result<Bench, NoMemory>
    ensures { IfOk result (λ b. StandsFor b.machine.memory b.shadow b.guest) }
{
    let mut bench = Bench::with_tables(alloc, &MAPPED)?;
    let _ = bench.put(LOADS, 0x0053_6190);
    let _ = bench.put(STORES, 0x0061_5390);
    let _ = bench.put(0xA00, 0x11);
    Ok(bench)
}

/// A guest with the two instructions, the bytes 11, 22 and 33 in frames 5, 6 and 9, and this entry of the page at 1000.
fn with_bytes(alloc: Global, entry_8: u32) -> Result<Bench, NoMemory>
    ensures { IfOk result (λ b. StandsFor b.machine.memory b.shadow b.guest) }
{
    let mut bench = with_code(alloc)?;
    let _ = bench.put(0xC00, 0x22);
    let _ = bench.put(0x1200, 0x33);
    let _ = bench.put(0x4220, entry_8);
    Ok(bench)
}

/// How one instruction at PC ends in executive mode.
fn check_exit(
    rt: &impl Abort,
    alloc: Global,
    bench: &Bench,
    pc: u32,
    r1: u32,
    exit: Exit,
) -> Result<(), NoMemory>
    requires { StandsFor bench.now.machine.memory bench.now.shadow bench.now.guest }
{
    let (found, _) = run_one(alloc, bench, 1, pc, r1)?;
    assert!(rt; found == exit, "{r1:x}");
    Ok(())
}

/// The byte that is loaded in executive mode from an address.
fn check_byte(
    rt: &impl Abort,
    alloc: Global,
    bench: &Bench,
    va: u32,
    byte: u32,
) -> Result<(), NoMemory>
    requires { StandsFor bench.now.machine.memory bench.now.shadow bench.now.guest }
{
    let (found, r3) = run_one(alloc, bench, 1, LOADS, va)?;
    assert!(rt; found == Exit::Budget && r3 == byte, "{va:x}");
    Ok(())
}

/// An entry of the page at 1000, an address, the byte that it has, and a byte that is written by another address.
type Seen = (u32, u32, u32, u32, u8);

static SEEN: [Seen; 3] = [
    // The entry of the page at 1000 is written at its system address.
    (0xA400_0005, 0x1000, 0x11, 0x8000_4220, 6),
    // The page at 1000 is that of the P0 table, and the entry of the page at 1200 is written through it.
    (0xA400_0021, 0x1200, 0x33, 0x1024, 6),
    // Its own entry is.
    (0xA400_0021, 0x1000, 0, 0x1020, 6),
];

/// Before the byte is written: nothing is filled, then all, and the guest's own modify bits are set, and the real ones clear.
fn check_before(
    rt: &impl Abort,
    alloc: Global,
    bench: &mut Bench,
    row: &Seen,
) -> Result<(), NoMemory>
    requires { StandsFor bench.old.machine.memory bench.old.shadow bench.old.guest }
    ensures { StandsFor bench.new.machine.memory bench.new.shadow bench.new.guest }
{
    let (_, va, before, written, _) = *row;
    let missed = Exit::NotValid {
        va: LOADS,
        write: false,
    };
    check_exit(rt, alloc, bench, LOADS, va, missed)?;
    let _ = bench.touch_all();
    check_byte(rt, alloc, bench, va, before)?;
    let modify = Exit::Modify { va: written };
    check_exit(rt, alloc, bench, STORES, written, modify)
}

/// After it: the address's page is missed, and once it is filled it is another one.
fn check_after(
    rt: &impl Abort,
    alloc: Global,
    bench: &mut Bench,
    row: &Seen,
) -> Result<(), NoMemory>
    requires { StandsFor bench.old.machine.memory bench.old.shadow bench.old.guest }
    ensures { StandsFor bench.new.machine.memory bench.new.shadow bench.new.guest }
{
    let (_, va, _, written, byte) = *row;
    let is_written = bench.write(written, byte);
    assert!(rt; is_written);
    let _ = bench.touch(LOADS);
    let missed = Exit::NotValid { va, write: false };
    check_exit(rt, alloc, bench, LOADS, va, missed)?;
    let _ = bench.touch(va);
    check_byte(rt, alloc, bench, va, 0x22)
}

/// Both, on one guest.
fn check_seen(rt: &impl Abort, alloc: Global, row: &Seen) -> Result<(), NoMemory> {
    let (entry_8, ..) = *row;
    let mut bench = with_bytes(alloc, entry_8)?;
    check_before(rt, alloc, &mut bench, row)?;
    check_after(rt, alloc, &mut bench, row)
}

/// Entries of the page at 1000, a byte that is written by an address, and the byte that an address has before and after.
#[test]
fn the_machine_sees_tables_as_they_are(rt: HostRuntime) -> Result<(), Fail> {
    for row in &SEEN {
        check_seen(&rt, rt.alloc(), row)?;
    }
    Ok(())
}

/// An entry of the page at 1000, a mode, and whether it may load and store there.
type Right = (u32, u32, bool, bool);

static RIGHTS: [Right; 6] = [
    (0x9400_0005, 1, true, true),
    (0x9400_0005, 2, false, false),
    (0xF400_0005, 1, true, true),
    (0xF400_0005, 3, true, false),
    (0xA400_0005, 3, true, true),
    (0x8400_0005, 1, false, false),
];

/// A guest with an entry of the page at 1000, all its pages filled, and writes to that one granted.
fn with_granted(alloc: Global, entry: u32) -> Result<Bench, NoMemory>
    ensures { IfOk result (λ b. StandsFor b.machine.memory b.shadow b.guest) }
{
    let mut bench = with_code(alloc)?;
    let _ = bench.put(0x4220, entry);
    let _ = bench.touch_all();
    let _ = bench.grant(0x1000);
    Ok(bench)
}

/// A mode loads and stores there as its row says.
fn check_right(rt: &impl Abort, alloc: Global, row: &Right) -> Result<(), NoMemory> {
    let (entry, mode, loads, stores) = *row;
    let bench = with_granted(alloc, entry)?;
    let (loaded, _) = run_one(alloc, &bench, mode, LOADS, 0x1000)?;
    assert!(rt; (loaded == Exit::Budget) == loads, "{entry:x} {mode}");
    let (stored, _) = run_one(alloc, &bench, mode, STORES, 0x1000)?;
    assert!(rt; (stored == Exit::Budget) == stores, "{entry:x} {mode}");
    Ok(())
}

/// Each mode loads and stores under KW, URKW and UW, of a page to which writes are granted.
#[test]
fn the_machine_lets_each_mode_do_what_the_guest_lets_it(rt: HostRuntime) -> Result<(), Fail> {
    for row in &RIGHTS {
        check_right(&rt, rt.alloc(), row)?;
    }
    Ok(())
}

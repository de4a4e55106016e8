//! A page that the machine has used, and whose entries, mode or tables change then: it is looked up again. The system table
//! is at 0 and the P0 table at 80, where the pages 0 to 15 have the frames of their numbers, open to all and modified. Another
//! P0 table is at 280, which maps page 4 to frame 6. The word at 800 is 11, that at C00, in frame 6, is 22. At 200 is the
//! loop MOVL (R1),R3; MOVL R0,(R2); BRB. Numbers are hexadecimal.

use std::alloc::Global;
use std::process::Abort;
use std::test::Fail;
use vax_cpu::Cpu;
use vax_hw::{Exit, Hardware, Psl, World};
use vv_base::NoMemory;

/// A longword at a place.
pub type At = (u32, u32);

/// The place of the system table's entry 0, and of the P0 table's entries 4 and 5.
const SYSTEM_0: u32 = 0;

const ENTRY_4: u32 = 0x90;

const ENTRY_5: u32 = 0x94;

static LONGS: [At; 7] = [
    (0x200, 0xD053_61D0),
    (0x204, 0xF811_6250),
    (0x284, 0xA400_0001),
    (0x290, 0xA400_0006),
    (0x294, 0xA400_0005),
    (0x800, 0x11),
    (0xC00, 0x22),
];

pub fn put(cpu: &mut Cpu, (place, v): At) {
    if u64::from(place) + 4 <= 512 * u64::from(cpu.pages()) {
        cpu.write_long(place, v);
    }
}

pub fn machine(alloc: Global) -> Result<Cpu, NoMemory> {
    let mut cpu = Cpu::new(alloc, 16)?;
    for i in 0..16 {
        put(&mut cpu, (4 * i, 0xA400_0000 + i));
        put(&mut cpu, (0x80 + 4 * i, 0xA400_0000 + i));
    }
    for long in &LONGS {
        put(&mut cpu, *long);
    }
    Ok(cpu)
}

/// R1 800, in a mode, 0 to 3.
pub fn world(mode: u32, r0: u32, r2: u32) -> World {
    World {
        r: [r0, 0x800, r2, 0, 0, 0, 0, 0, 0, 0, 0, 0, 0, 0, 0, 0x200],
        psl: Psl(mode % 4 * 0x140_0000),
        vmpsl: Psl(0x03C0_0000),
        p0br: 0x8000_0080,
        p0lr: 16,
        p1br: 0x7F80_0110,
        p1lr: 0x1F_FFFC,
        sbr: 0,
        slr: 16,
    }
}

/// A machine that went through the loop four times, with a longword of the tables.
fn looped(alloc: Global, first: At, before: &World) -> Result<Cpu, NoMemory> {
    let mut cpu = machine(alloc)?;
    put(&mut cpu, first);
    cpu.load_world(before);
    let _first = cpu.run(12);
    Ok(cpu)
}

/// Why a run ended, R3, and the misses.
type Seen = (Exit, u32, u64);

/// The outcome of the second of two runs: the first goes through the loop four times, then a longword is changed, and another
/// world loaded.
fn again(
    alloc: Global,
    first: At,
    before: &World,
    changed: At,
    after: &World,
    budget: u32,
) -> Result<Seen, NoMemory> {
    let mut cpu = looped(alloc, first, before)?;
    put(&mut cpu, changed);
    cpu.load_world(after);
    let exit = cpu.run(budget.max(1));
    Ok((exit, cpu.save_world().r[3], cpu.misses()))
}

/// Its outcome is the expected one.
fn check(
    rt: &impl Abort,
    alloc: Global,
    worlds: (&World, &World),
    longs: (At, At),
    budget: u32,
    seen: &Seen,
) -> Result<(), NoMemory> {
    let (before, after) = worlds;
    let (first, changed) = longs;
    let found = again(alloc, first, before, changed, after, budget)?;
    assert!(rt; found == *seen, "{:x} at {:x}", changed.1, changed.0);
    Ok(())
}

/// A longword that changes, and what is seen in user mode then.
type Changed = (At, Seen);

/// The first of the loop's longwords, unchanged.
const SAME: At = (0x200, 0xD053_61D0);

const DENIED: Exit = Exit::Denied {
    va: 0x800,
    write: false,
};

static CHANGED: [Changed; 7] = [
    // nothing changes; another frame, by the page's entry and by its table's
    (SAME, (Exit::Budget, 0x11, 0)),
    ((ENTRY_4, 0xA400_0006), (Exit::Budget, 0x22, 0)),
    ((SYSTEM_0, 0xA400_0001), (Exit::Budget, 0x22, 0)),
    // no longer valid, open to none, not modified, and a table that isn't valid
    (
        (ENTRY_4, 0x2400_0004),
        (
            Exit::NotValid {
                va: 0x800,
                write: false,
            },
            0,
            1,
        ),
    ),
    ((ENTRY_4, 0x8400_0004), (DENIED, 0, 0)),
    (
        (ENTRY_5, 0xA000_0005),
        (Exit::Modify { va: 0xA00 }, 0x11, 0),
    ),
    (
        (SYSTEM_0, 0x2400_0000),
        (
            Exit::NotValid {
                va: 0x200,
                write: false,
            },
            0,
            1,
        ),
    ),
];

/// A row's change, in user mode throughout.
fn check_changed(rt: &impl Abort, alloc: Global, row: &Changed) -> Result<(), NoMemory> {
    let (changed, seen) = row;
    let user = world(3, 7, 0xA00);
    check(rt, alloc, (&user, &user), (SAME, *changed), 2, seen)
}

#[test]
fn what_was_known_follows_its_entries(rt: HostRuntime) -> Result<(), Fail> {
    for row in &CHANGED {
        check_changed(&rt, rt.alloc(), row)?;
    }
    Ok(())
}

/// The longword at 800 is the kernel's alone in the guest's tables, and executive mode reads it before a mode does.
fn check_mode(rt: &impl Abort, alloc: Global, mode: u32, seen: &Seen) -> Result<(), NoMemory> {
    let executive = world(1, 7, 0xA00);
    let after = world(mode, 7, 0xA00);
    let longs = ((ENTRY_4, 0xAC00_0004), SAME);
    check(rt, alloc, (&executive, &after), longs, 2, seen)
}

#[test]
fn another_mode_is_judged_anew(rt: HostRuntime) -> Result<(), Fail> {
    check_mode(&rt, rt.alloc(), 3, &(DENIED, 0, 0))?;
    check_mode(&rt, rt.alloc(), 1, &(Exit::Budget, 0x11, 0))?;
    Ok(())
}

/// What is seen with P0's table at an address, and of a length, after the usual one.
fn check_table(
    rt: &impl Abort,
    alloc: Global,
    p0br: u32,
    p0lr: u32,
    seen: &Seen,
) -> Result<(), NoMemory> {
    let user = world(3, 7, 0xA00);
    let after = World {
        p0br,
        p0lr,
        ..world(3, 7, 0xA00)
    };
    check(rt, alloc, (&user, &after), (SAME, SAME), 2, seen)
}

#[test]
fn other_tables_and_a_shorter_one_are_looked_up(rt: HostRuntime) -> Result<(), Fail> {
    check_table(&rt, rt.alloc(), 0x8000_0280, 16, &(Exit::Budget, 0x22, 0))?;
    check_table(&rt, rt.alloc(), 0x8000_0080, 4, &(DENIED, 0, 0))?;
    Ok(())
}

/// The loop stores the same into the page's entry, and then another frame.
#[test]
fn an_entry_that_the_loop_stores_is_looked_up(rt: HostRuntime) -> Result<(), Fail> {
    let before = world(3, 0xA400_0004, 0x8000_0090);
    let after = world(3, 0xA400_0006, 0x8000_0090);
    let seen = (Exit::Budget, 0x22, 0);
    check(&rt, rt.alloc(), (&before, &after), (SAME, SAME), 4, &seen)?;
    Ok(())
}

/// The loop MOVPSL (R2); PROBER (R1),#4,(R1); BRB.
static OF_STATUS: [At; 2] = [(0x210, 0x610C_62DC), (0x214, 0xF811_6104)];

#[test]
fn movpsl_and_probe_make_their_pages_known(rt: HostRuntime) -> Result<(), Fail> {
    let mut cpu = machine(rt.alloc())?;
    for long in &OF_STATUS {
        put(&mut cpu, *long);
    }
    let mut w = world(3, 7, 0xA00);
    w.r[15] = 0x210;
    cpu.load_world(&w);
    let exit = cpu.run(12);
    assert!(rt; exit == Exit::Budget);
    assert!(rt; cpu.known_place(0xA00, true) == Some(0xA00));
    assert!(rt; cpu.known_place(0x800, false) == Some(0x800));
    assert!(rt; cpu.known_place(0xC00, false).is_none());
    Ok(())
}

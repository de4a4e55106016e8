use std::process::Abort;
use vm_slots::{Context, Slots, Taken};

/// A context of these registers.
fn with(registers: (bool, u32, u32, u32, u32)) -> Context {
    let (mapped, p0br, p0lr, p1br, p1lr) = registers;
    Context {
        mapped,
        p0br,
        p0lr,
        p1br,
        p1lr,
    }
}

fn context(p0br: u32) -> Context {
    with((true, p0br, 8, 0, 0))
}

/// Contexts that are taken in turn: the slot, and whether it is fresh and another one's.
static TAKES: [(u32, u8, bool, bool); 9] = [
    (1, 0, true, false),
    (2, 1, true, false),
    (3, 2, true, false),
    (4, 3, true, false),
    (5, 0, true, true),
    (3, 2, false, false),
    (2, 1, false, false),
    (6, 3, true, true),
    (4, 0, true, true),
];

/// Where each context is after them.
static FINDS: [(u32, Option<u8>); 6] = [
    (1, None),
    (2, Some(1)),
    (3, Some(2)),
    (4, Some(0)),
    (5, None),
    (6, Some(3)),
];

/// Slots that the contexts were taken in.
fn taken(rt: &impl Abort) -> Slots {
    let mut slots = Slots::new();
    for (p0br, slot, fresh, evicted) in &TAKES {
        let wanted = Taken {
            slot: *slot,
            fresh: *fresh,
            evicted: *evicted,
        };
        assert!(rt; slots.take(&context(*p0br)) == wanted, "at {p0br}");
    }
    slots
}

#[test]
fn the_least_recently_used_gives_way(rt: HostRuntime) {
    let mut slots = taken(&rt);
    for (p0br, slot) in &FINDS {
        assert!(rt; slots.find(&context(*p0br)) == *slot, "at {p0br}");
    }
    slots.clear();
    assert!(rt; slots.find(&context(4)).is_none());
}

/// Contexts that differ from that of 1 in one register alone.
static APART: [(bool, u32, u32, u32, u32); 5] = [
    (false, 1, 8, 0, 0),
    (true, 2, 8, 0, 0),
    (true, 1, 9, 0, 0),
    (true, 1, 8, 4, 0),
    (true, 1, 8, 0, 1),
];

/// Each has a slot of its own beside that one's.
#[test]
fn each_register_tells_contexts_apart(rt: HostRuntime) {
    for registers in &APART {
        let other = with(*registers);
        let mut slots = Slots::new();
        assert!(rt; slots.take(&context(1)).slot == 0);
        assert!(rt; slots.find(&other).is_none());
        assert!(rt; slots.take(&other).slot == 1);
        assert!(rt; slots.find(&context(1)) == Some(0));
    }
}

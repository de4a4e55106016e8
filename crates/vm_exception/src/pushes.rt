ghost use Rattle.std.specs.Prelude.{◌≡◌, ◌≤◌, ◌<◌, ◌+◌, ◌*◌, ◌%◌, ◌^◌, ◌++◌, length, map, true};
ghost use Rattle.vax_arch.specs.declared.mode.Intent.TheVariants.{Write};
ghost use Rattle.vax_table.specs.Operand.{minus};
ghost use Rattle.vm_exception.specs.Pushed.{byte_of, home_in, home_of, walked_of};
ghost use Rattle.vm_state.specs.Partition.{guest_of};
ghost use Rattle.vm_state.specs.Pushes.{bytes_from, pushed_bytes, push_walked, walked};
ghost use Rattle.vm_state.specs.Translation.{walk_of};

use arrayvec::ArrayVec;
use vax_arch::{Intent, Mode};
use vax_hw::Hardware;
use vm_state::{GuestState, MemFault, Walk};
use vm_walk::walk;

/// A byte that is pushed, for an address.
#[derive(Clone, Copy, Debug, Default, PartialEq, Eq)]
pub struct PushedByte {
    pub at: u32,
    pub value: u8,
}

/// Where a byte goes: its physical place, and that of its page's entry, of which there is none with mapping off.
#[derive(Clone, Copy, Debug, Default, PartialEq, Eq)]
pub struct Home {
    pub place: u32,
    pub entry: Option<u32>,
    pub value: u8,
}

/// The outcome of the walk of bytes that are pushed: all have homes, or the first that has none has a fault, or is beyond
/// memory.
#[derive(Drop)]
pub enum Walked {
    Homes(ArrayVec<Home, 16>),
    Faulty(MemFault),
    PastMemory,
}

/// The four bytes of a longword at an address, after others.
fn push_long(bytes: &mut ArrayVec<PushedByte, 16>, at: u32, long: u32)
    requires { length bytes.old.items ≤ 12 }
    ensures bytes { map byte_of bytes.new.items ≡ map byte_of bytes.old.items ++ bytes_from 4 at long }
    ensures size { length bytes.new.items ≡ length bytes.old.items + 4 }
{
    let [first, second, third, fourth] = long.to_le_bytes();
    bytes.push(PushedByte { at, value: first });
    bytes.push(PushedByte {
        at: at.wrapping_add(1),
        value: second,
    });
    bytes.push(PushedByte {
        at: at.wrapping_add(2),
        value: third,
    });
    bytes.push(PushedByte {
        at: at.wrapping_add(3),
        value: fourth,
    });
}

/// The bytes of longwords that are pushed from a stack pointer on, in the order in which they are walked.
fn pushed_bytes(sp: u32, longs: &[u32]) -> ArrayVec<PushedByte, 16>
    requires { length longs.now ≤ 4 }
    ensures { map byte_of result.items ≡ pushed_bytes sp longs.now }
{
    let mut bytes = ArrayVec::new();
    let mut at = sp;
    for long in longs {
        at = at.wrapping_sub(4);
        push_long(&mut bytes, at, *long);
    }
    bytes
}

/// The walk of an address for writing, in a mode, by that of another one: where both lie in one page, they differ in the byte
/// of the page alone.
fn walk_beside<H: Hardware>(
    machine: &H,
    g: &GuestState,
    m: Mode,
    va: u32,
    other: u32,
    walked: Walk,
) -> Walk
    requires partition { 512 * (g.now.base + g.now.pages) ≤ length (H.machine machine.now).memory }
    requires walked { walked ≡ walk_of (guest_of (H.machine machine.now).memory g.now) other m Write }
    ensures { result ≡ walk_of (guest_of (H.machine machine.now).memory g.now) va m Write }
{
    match walked {
        Walk::Frame { pa, entry, table } if va / 512 == other / 512 => Walk::Frame {
            pa: pa / 512 * 512 + va % 512,
            entry,
            table,
        },
        _ => walk(machine, g, va, m, Intent::Write),
    }
}

/// The walk of bytes for writing, in a mode: one for those that come one after another in a page.
fn walk_bytes<H: Hardware>(machine: &H, g: &GuestState, m: Mode, bytes: &[PushedByte]) -> Walked
    requires partition { 512 * (g.now.base + g.now.pages) ≤ length (H.machine machine.now).memory }
    requires few { length bytes.now ≤ 16 }
    ensures { walked_of result ≡ walked (guest_of (H.machine machine.now).memory g.now) m (map byte_of bytes.now) }
{
    let mut homes = ArrayVec::new();
    let [first, ..] = bytes else {
        return Walked::Homes(homes);
    };
    let mut at = first.at;
    let mut last = walk(machine, g, at, m, Intent::Write);
    for byte in bytes {
        last = walk_beside(machine, g, m, byte.at, at, last);
        at = byte.at;
        match last {
            Walk::Frame { pa, entry, .. } => homes.push(Home {
                place: pa,
                entry,
                value: byte.value,
            }),
            Walk::Fault(fault) => return Walked::Faulty(fault),
            Walk::Beyond => return Walked::PastMemory,
        }
    }
    Walked::Homes(homes)
}

/// The homes of a longword's bytes at an address, in a page, after others.
fn push_homes(homes: &mut ArrayVec<Home, 16>, page: u32, entry: Option<u32>, at: u32, long: u32)
    requires few { length homes.old.items ≤ 12 }
    requires page { page + 512 ≤ 2 ^ 32 }
    ensures homes { map home_of homes.new.items ≡ map home_of homes.old.items ++ map (home_in page entry) (bytes_from 4 at long) }
    ensures size { length homes.new.items ≡ length homes.old.items + 4 }
{
    let [first, second, third, fourth] = long.to_le_bytes();
    homes.push(Home {
        place: page + at % 512,
        entry,
        value: first,
    });
    homes.push(Home {
        place: page + at.wrapping_add(1) % 512,
        entry,
        value: second,
    });
    homes.push(Home {
        place: page + at.wrapping_add(2) % 512,
        entry,
        value: third,
    });
    homes.push(Home {
        place: page + at.wrapping_add(3) % 512,
        entry,
        value: fourth,
    });
}

/// The homes of longwords that are pushed from a stack pointer on, in a page.
fn homes_in(page: u32, entry: Option<u32>, sp: u32, longs: &[u32]) -> ArrayVec<Home, 16>
    requires few { length longs.now ≤ 4 }
    requires page { page + 512 ≤ 2 ^ 32 }
    ensures { map home_of result.items ≡ map (home_in page entry) (pushed_bytes sp longs.now) }
{
    let mut homes = ArrayVec::new();
    let mut at = sp;
    for long in longs {
        at = at.wrapping_sub(4);
        push_homes(&mut homes, page, entry, at, *long);
    }
    homes
}

/// Whether there are longwords, and one page has all that are pushed from a stack pointer on.
fn are_in_page(sp: u32, longs: &[u32]) -> bool
    requires { length longs.now ≤ 4 }
    ensures { result ≡ true → (1 ≤ length longs.now) × (minus sp (4 * length longs.now) % 512 + 4 * length longs.now ≤ 512) }
{
    let bytes = 4 * longs.len() as u32;
    0 < bytes && sp.wrapping_sub(bytes) % 512 + bytes <= 512
}

/// The walk of longwords that are pushed in a mode from a stack pointer on: one for all that lie in a page.
#[tactic(auto, unfolding(vm_state::specs::Pushes::push_walked))]
pub fn walk_pushes<H: Hardware>(
    machine: &H,
    g: &GuestState,
    m: Mode,
    sp: u32,
    longs: &[u32],
) -> Walked
    requires partition { 512 * (g.now.base + g.now.pages) ≤ length (H.machine machine.now).memory }
    requires few { length longs.now ≤ 4 }
    ensures { walked_of result ≡ push_walked (guest_of (H.machine machine.now).memory g.now) m sp longs.now }
{
    if !are_in_page(sp, longs) {
        return walk_bytes(machine, g, m, &pushed_bytes(sp, longs));
    }
    match walk(machine, g, sp.wrapping_sub(4), m, Intent::Write) {
        Walk::Frame { pa, entry, .. } => Walked::Homes(homes_in(pa / 512 * 512, entry, sp, longs)),
        Walk::Fault(fault) => Walked::Faulty(fault),
        Walk::Beyond => Walked::PastMemory,
    }
}

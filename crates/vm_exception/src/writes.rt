ghost use Rattle.std.specs.Prelude.{[], ◌≡◌, ◌≤◌, ◌+◌, ◌*◌, ◌/◌, ◌%◌, length, map, take, true, Some};
ghost use Rattle.vm_exception.specs.Pushed.{home_of};
ghost use Rattle.vm_exception.specs.Wrote.{AreHomes, PutsHomes, Wrote};
ghost use Rattle.vm_shadow.specs.Shadowed.{Keeps, own};
ghost use Rattle.vm_state.specs.Pushes.{all_marked, frames_pushed, mark_written, pushed};
ghost use Rattle.vm_state.specs.Translation.{marked};

use crate::pushes::Home;
use vax_arch::Pte;
use vax_hw::Hardware;
use vm_shadow::Shadow;

/// The modify bit of an entry.
const MODIFY: u32 = 0x0400_0000;

/// Sets the modify bit of the entry at a physical place of the guest, where it is clear.
#[tactic(auto, using(crate::proofs::Marking::mark_one, crate::proofs::Marking::mark_none))]
fn mark_entry<H: Hardware>(machine: &mut H, s: &mut Shadow, base: u32, place: u32)
    requires keeps { Keeps [] [] (H.machine machine.old).memory s.old }
    requires base { s.old.base ≡ base }
    requires aligned { place % 4 ≡ 0 }
    requires inside { place + 4 ≤ 512 * s.old.pages }
    ensures { Wrote (mark_written (own (H.machine machine.old).memory s.old) (Some place))
        (marked place (own (H.machine machine.old).memory s.old)) (H.machine machine.old) s.old
        (H.machine machine.new) s.new }
{
    let _all = machine.pages();
    let entry = Pte(machine.read_long(512 * base + place));
    if !entry.modified() {
        s.store_long(machine, place, entry.0 + MODIFY);
    }
}

/// Sets the modify bits of the pages in which bytes have their homes.
fn mark_homes<H: Hardware>(machine: &mut H, s: &mut Shadow, base: u32, homes: &[Home])
    requires keeps { Keeps [] [] (H.machine machine.old).memory s.old }
    requires base { s.old.base ≡ base }
    requires homes { AreHomes (512 * s.old.pages) (map home_of homes.now) }
    ensures { Wrote (frames_pushed (own (H.machine machine.old).memory s.old) (map home_of homes.now))
        (all_marked (map home_of homes.now) (own (H.machine machine.old).memory s.old)) (H.machine machine.old) s.old
        (H.machine machine.new) s.new }
{
    let mut last = None;
    for home in homes {
        if home.entry != last {
            if let Some(place) = home.entry {
                mark_entry(machine, s, base, place);
            }
            last = home.entry;
        }
    }
}

/// Whether four places are those of the bytes of an aligned longword, in order.
fn are_longword(first: u32, second: u32, third: u32, fourth: u32) -> bool
    ensures { result ≡ true → (first % 4 ≡ 0) × (second ≡ first + 1) × (third ≡ first + 2) × (fourth ≡ first + 3) }
{
    first % 4 == 0 && second == first + 1 && third == first + 2 && fourth == first + 3
}

/// The longword of four bytes.
fn long_of(first: u8, second: u8, third: u8, fourth: u8) -> u32
    ensures { (result % 256 ≡ first) × (result / 256 % 256 ≡ second) × (result / 256 / 256 % 256 ≡ third) × (result / 256 / 256 / 256 % 256 ≡ fourth) }
{
    u32::from_le_bytes([first, second, third, fourth])
}

/// Writes the first of some bytes to its home, or the first four together, where these are an aligned longword. Answers how
/// many were written.
fn put_some<H: Hardware>(machine: &mut H, s: &mut Shadow, homes: &[Home]) -> usize
    requires keeps { Keeps [] [] (H.machine machine.old).memory s.old }
    requires homes { AreHomes (512 * s.old.pages) (map home_of homes.now) }
    requires any { 1 ≤ length homes.now }
    ensures some { 1 ≤ result }
    ensures within { result ≤ length homes.now }
    ensures puts { PutsHomes (map home_of (take result homes.now)) (H.machine machine.old) s.old (H.machine machine.new) s.new }
{
    if let [a, b, c, d, ..] = homes {
        if are_longword(a.place, b.place, c.place, d.place) {
            let long = long_of(a.value, b.value, c.value, d.value);
            s.store_long(machine, a.place, long);
            return 4;
        }
    }
    s.store_byte(machine, homes[0].place, homes[0].value);
    1
}

/// Writes bytes to their homes.
pub fn put_homes<H: Hardware>(machine: &mut H, s: &mut Shadow, homes: &[Home])
    requires keeps { Keeps [] [] (H.machine machine.old).memory s.old }
    requires homes { AreHomes (512 * s.old.pages) (map home_of homes.now) }
    ensures { PutsHomes (map home_of homes.now) (H.machine machine.old) s.old (H.machine machine.new) s.new }
{
    let mut done = 0;
    while done < homes.len() {
        done += put_some(machine, s, &homes[done..]);
    }
}

/// Sets the modify bits of the pages in which bytes have their homes, and writes the bytes.
#[tactic(auto, using(crate::proofs::Marking::push_both))]
pub fn push<H: Hardware>(machine: &mut H, s: &mut Shadow, base: u32, homes: &[Home])
    requires keeps { Keeps [] [] (H.machine machine.old).memory s.old }
    requires base { s.old.base ≡ base }
    requires homes { AreHomes (512 * s.old.pages) (map home_of homes.now) }
    ensures { Wrote (frames_pushed (own (H.machine machine.old).memory s.old) (map home_of homes.now))
        (pushed (map home_of homes.now) (own (H.machine machine.old).memory s.old)) (H.machine machine.old) s.old
        (H.machine machine.new) s.new }
{
    mark_homes(machine, s, base, homes);
    put_homes(machine, s, homes);
}

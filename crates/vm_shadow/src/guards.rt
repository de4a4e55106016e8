ghost use Rattle.std.specs.Prelude.{◌≡◌, ◌≤◌, ◌<◌, ◌+◌, length, slice_set, true};
ghost use Rattle.vax_arch.specs.Walk.{page_of};
ghost use Rattle.vm_shadow.specs.Marks.{flags_of};
ghost use Rattle.vm_shadow.specs.Layout.{IsCovered, entry_place};
ghost use Rattle.vm_shadow.specs.Shadowed.{Fits, mapped_frame, real_at, way_of};
ghost use Rattle.vm_shadow.specs.StandsFor.{ClosesPage, GrantsOrLeaves, HasModifiedPage, OpensPage, can_grant, own_number};

use crate::Shadow;
use crate::fills::entry_number;
use crate::flags::is_flagged;
use crate::marks::Marks;
use crate::records::{GROUP, GROUPS};
use crate::scans::{MODIFY, entry_place};
use vax_arch::Pte;
use vax_hw::Hardware;

/// Marks the group of an entry, for a frame that it lets be written; a frame beyond the guest's has none.
#[tactic(auto, using(crate::proofs::Ways::flags_marked, crate::proofs::Ways::flags_past))]
fn mark_way(ways: &mut Marks, frame: u32, n: u32)
    requires few { frame ≤ 2097151 }
    requires number { n < 73728 }
    ensures { flags_of ways.new ≡ slice_set (flags_of ways.old) (way_of frame n) true }
{
    let way = GROUPS * frame + n / GROUP;
    if ((way / 64) as usize) < ways.words() {
        ways.mark(way);
    }
}

impl Shadow {
    /// The place of the real entry of a page, in the slot in use.
    #[tactic(auto, using(crate::proofs::Covering::slot_small, crate::proofs::Guarding::place_inside))]
    fn place<H: Hardware>(&self, machine: &H, page: u32) -> u32
        requires fits { Fits (H.machine machine.now).memory self.now }
        requires covered { IsCovered page }
        ensures is { result ≡ entry_place self.now.at (own_number self.now page) }
        ensures inside { result + 4 ≤ length (H.machine machine.now).memory }
    {
        let _all = machine.pages();
        entry_place(self.at, entry_number(u32::from(self.slot), page))
    }

    /// Opens an address's page for one guarded step: its real modify bit is set. The page's real entry must be valid, and
    /// the guest's own modify bit set. Answers the frame of the guest that the page maps.
    #[tactic(auto, using(crate::proofs::Covering::slot_small))]
    pub fn open_write<H: Hardware>(&mut self, machine: &mut H, va: u32) -> u32
        requires fits { Fits (H.machine machine.old).memory self.old }
        requires covered { IsCovered (page_of va) }
        requires marked { HasModifiedPage (H.machine machine.old).memory self.old (own_number self.old (page_of va)) }
        ensures is { OpensPage (own_number self.old (page_of va)) (H.machine machine.old) self.old (H.machine machine.new) self.new }
        ensures frame { result ≡ mapped_frame self.old (real_at (H.machine machine.old).memory self.old (own_number self.old (page_of va))) }
    {
        let place = self.place(machine, va / 512);
        let entry = Pte(machine.read_long(place));
        let frame = entry.frame().saturating_sub(self.base);
        if entry.modified() {
            return frame;
        }
        machine.write_long(place, entry.0 + MODIFY);
        let n = entry_number(u32::from(self.slot), va / 512);
        mark_way(&mut self.writable, frame, n);
        frame
    }

    /// Grants writes to an address's page for good, where no entry may have been read from its frame; false where one may
    /// have been, and then nothing changes. The page's real entry must be valid, and the guest's own modify bit set.
    #[tactic(auto, using(crate::proofs::Covering::slot_small))]
    pub fn grant_write<H: Hardware>(&mut self, machine: &mut H, va: u32) -> bool
        requires fits { Fits (H.machine machine.old).memory self.old }
        requires covered { IsCovered (page_of va) }
        requires marked { HasModifiedPage (H.machine machine.old).memory self.old (own_number self.old (page_of va)) }
        ensures when { result ≡ can_grant (H.machine machine.old).memory self.old (own_number self.old (page_of va)) }
        ensures is { GrantsOrLeaves result (own_number self.old (page_of va)) (H.machine machine.old) self.old (H.machine machine.new) self.new }
    {
        let place = self.place(machine, va / 512);
        let entry = Pte(machine.read_long(place));
        let frame = entry.frame().saturating_sub(self.base);
        if is_flagged(&self.consulted, frame) {
            return false;
        }
        if !entry.modified() {
            machine.write_long(place, entry.0 + MODIFY);
            let n = entry_number(u32::from(self.slot), va / 512);
            mark_way(&mut self.writable, frame, n);
        }
        true
    }

    /// Closes an address's page after a guarded step: its real modify bit is clear.
    pub fn close_write<H: Hardware>(&self, machine: &mut H, va: u32)
        requires fits { Fits (H.machine machine.old).memory self.now }
        requires covered { IsCovered (page_of va) }
        ensures { ClosesPage (own_number self.now (page_of va)) (H.machine machine.old) self.now (H.machine machine.new) }
    {
        let place = self.place(machine, va / 512);
        let entry = Pte(machine.read_long(place));
        if entry.modified() {
            machine.write_long(place, entry.0 - MODIFY);
        }
    }
}

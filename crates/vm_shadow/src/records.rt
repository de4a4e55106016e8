ghost use Rattle.std.specs.Prelude.{◌≡◌, ◌≤◌, ◌<◌, ◌+◌, ◌*◌, ◌/◌, ◌^◌, ℕ, true, false, IfOk, Some, None, length, slice_set};
ghost use Rattle.vm_shadow.specs.Calls.{DropsEntries, remembered};
ghost use Rattle.vm_shadow.specs.Shadowed.{is_read_from};
ghost use Rattle.vm_shadow.specs.Marks.{AreEmpty, IsPast, IsPastIn, MarksGroups, SetsMember, Shuts, Skips, row_start};
ghost use Rattle.vm_shadow.specs.declared.scans.Dropped.TheVariants.{ReadFrom};

use crate::Source;
use crate::marks::Marks;
use crate::scans::{ALL_ENTRIES, Dropped, EMPTY, close_entry, entry_place};
use std::alloc::Global;
use std::marker::Model;
use vax_hw::Hardware;
use vv_base::NoMemory;

/// The entries of a group, and the groups.
pub const GROUP: u32 = 128;

pub const GROUPS: u32 = 576;

/// By the number of a real entry, the frames that it was read from; with marks, so that entries that aren't filled are looked
/// at only in groups with others. A mark may stand for what is gone; none is missing.
#[derive(Drop)]
pub struct Records {
    sources: Vec<Option<Source>>,
    /// The frames of the guest.
    frames: u32,
    /// The entries that are filled.
    filled: Marks,
    /// The groups in which one is filled, and for each frame those in which one was read from it.
    groups: Marks,
    /// How many records were looked at so far, modulo 2 ^ 64.
    looked: u64,
}

impl Model for Records {
    ghost use Rattle.std.specs.Prelude.{List, Option};
    ghost use Rattle.vm_shadow.specs.declared.source.Source.{Source};
    ghost use Rattle.vm_shadow.specs.Marks.{AreMarked};

    ghost Value = { List (Option Source) };

    ghost view = { λ r. r.sources.items };

    ghost invariant = { λ r. AreMarked r.frames r.sources.items r.filled r.groups };
}

/// The first of the numbers by which a way to drop entries has its groups marked.
fn row_of(frames: u32, which: Dropped) -> u32
    requires { frames ≤ 2048 }
    ensures { result ≡ row_start frames which }
{
    match which {
        Dropped::ReadFrom(frame) if frame < frames => GROUPS * (frame + 1),
        Dropped::ReadFrom(_) | Dropped::All => 0,
    }
}

/// Marks the group of an entry, for a way by which it may be dropped.
fn mark_group(groups: &mut Marks, frames: u32, n: u32, which: Dropped)
    requires few { frames ≤ 2048 }
    requires number { n < 73728 }
    requires rows { 64 * length groups.old ≡ 576 * (frames + 1) }
    ensures { SetsMember true (row_start frames which + n / 128) groups.old groups.new }
{
    groups.mark(row_of(frames, which) + n / GROUP);
}

/// Marks the group of an entry, for each way by which it may be dropped.
fn mark_groups(groups: &mut Marks, frames: u32, n: u32, source: Source)
    requires few { frames ≤ 2048 }
    requires number { n < 73728 }
    requires rows { 64 * length groups.old ≡ 576 * (frames + 1) }
    ensures { MarksGroups frames n source groups.old groups.new }
{
    mark_group(groups, frames, n, Dropped::All);
    match source {
        Source::Direct => {}
        Source::System { entry } => mark_group(groups, frames, n, Dropped::ReadFrom(entry)),
        Source::Process { entry, table } => {
            mark_group(groups, frames, n, Dropped::ReadFrom(entry));
            mark_group(groups, frames, n, Dropped::ReadFrom(table));
        }
    }
}

/// The first entry from one on that lies in a group that is marked in a row; that one itself, if it isn't the first of its
/// group.
fn skip(groups: &Marks, row: u32, from: u32) -> u32
    requires few { from ≤ 73728 }
    requires row { row + 576 ≤ 64 * length groups.now }
    requires rows { 64 * length groups.now ≤ 2 ^ 24 }
    ensures skips { Skips groups.now row from result }
    ensures few { result ≤ 73728 }
{
    if from % GROUP != 0 {
        return from;
    }
    GROUP * (groups.next(row + from / GROUP, row + GROUPS) - row)
}

impl Records {
    /// Records of entries of which none is filled, for a guest of `frames` frames.
    pub fn new(alloc: Global, frames: u32) -> Result<Records, NoMemory>
        requires { frames ≤ 2048 }
        ensures { IfOk result (λ r. AreEmpty r) }
    {
        let sources = vec![in alloc; None; ALL_ENTRIES as usize]?;
        let filled = Marks::new(alloc, ALL_ENTRIES / 64)?;
        let groups = Marks::new(alloc, GROUPS / 64 * (frames + 1))?;
        Ok(Records {
            sources,
            frames,
            filled,
            groups,
            looked: 0,
        })
    }

    /// How many records were looked at so far, modulo 2 ^ 64.
    pub fn looked(&self) -> u64 {
        self.looked
    }

    /// Records the frames that an entry was read from.
    pub fn fill(&mut self, n: u32, source: Source)
        requires { n < 73728 }
        ensures { self.new ≡ slice_set self.old n (Some source) }
    {
        mark_groups(&mut self.groups, self.frames, n, source);
        self.filled.mark(n);
        self.sources[n as usize] = Some(source);
    }

    /// An entry isn't filled any longer. Its group is dropped with the last one that is filled there.
    fn remove(&mut self, n: u32)
        requires { n < 73728 }
        ensures { self.new ≡ slice_set self.old n None }
    {
        self.sources[n as usize] = None;
        self.filled.unmark(n);
        let first = n / GROUP * GROUP;
        if self.filled.next(first, first + GROUP) == first + GROUP {
            self.groups.unmark(n / GROUP);
        }
    }

    /// Clears the marks of the groups in which an entry was read from a frame, when there are none.
    fn forget(&mut self, frame: u32)
        requires { (n : ℕ) → is_read_from frame (remembered self.old n) ≡ false }
        ensures { self.new ≡ self.old }
    {
        if frame < self.frames {
            self.groups.clear(9 * (frame + 1), 9 * (frame + 2));
        }
    }

    /// The first entry from one up to another that may be filled, in a group that is marked in a row; that other, where there is
    /// none.
    fn next_in(&self, groups: &Marks, row: u32, from: u32, end: u32) -> u32
        requires order { from ≤ end }
        requires few { end ≤ 73728 }
        requires row { row + 576 ≤ 64 * length groups.now }
        requires rows { 64 * length groups.now ≤ 2 ^ 24 }
        ensures past { IsPastIn groups.now row self.now from result }
        ensures within { result ≤ end }
    {
        let mut n = skip(groups, row, from);
        while n < end {
            let later = end.min(n / GROUP * GROUP + GROUP);
            let found = self.filled.next(n, later);
            if found < later {
                return found;
            }
            n = skip(groups, row, later);
        }
        end
    }

    /// The first entry from one up to another that has to be looked at to drop some so; that other, where there is none.
    fn next(&self, from: u32, end: u32, which: Dropped) -> u32
        requires order { from ≤ end }
        requires few { end ≤ 73728 }
        ensures past { IsPast which self.now from result }
        ensures within { result ≤ end }
    {
        self.next_in(&self.groups, row_of(self.frames, which), from, end)
    }

    /// Looks at a record.
    fn look(&mut self, n: u32) -> Option<Source>
        requires { n < 73728 }
        ensures is { result ≡ remembered self.old n }
        ensures same { self.new ≡ self.old }
    {
        self.looked = self.looked.wrapping_add(1);
        self.sources[n as usize]
    }

    /// Drops entries, from one number up to another.
    pub fn drop_entries<H: Hardware>(
        &mut self,
        machine: &mut H,
        at: u32,
        first: u32,
        end: u32,
        which: Dropped,
    )
        requires whole { length self.old ≡ 73728 }
        requires order { first ≤ end }
        requires few { end ≤ 73728 }
        requires room { 512 * (at + 580) ≤ length (H.machine machine.old).memory }
        ensures { DropsEntries at first end which (H.machine machine.old) self.old (H.machine machine.new) self.new }
    {
        let _all = machine.pages();
        let mut n = self.next(first, end, which);
        while n < end {
            if which.takes(self.look(n)) {
                machine.write_long(entry_place(at, n), EMPTY);
                self.remove(n);
            }
            n = self.next(n + 1, end, which);
        }
    }

    /// Drops all entries that were read from a frame of the guest.
    pub fn drop_read_from<H: Hardware>(&mut self, machine: &mut H, at: u32, frame: u32)
        requires whole { length self.old ≡ 73728 }
        requires room { 512 * (at + 580) ≤ length (H.machine machine.old).memory }
        ensures { DropsEntries at 0 73728 (ReadFrom frame) (H.machine machine.old) self.old (H.machine machine.new) self.new }
    {
        self.drop_entries(machine, at, 0, ALL_ENTRIES, Dropped::ReadFrom(frame));
        self.forget(frame);
    }

    /// Clears the modify bit of each real entry that maps a frame, in the groups that are marked for it.
    pub fn close_entries<H: Hardware>(
        &mut self,
        machine: &mut H,
        at: u32,
        base: u32,
        ways: &Marks,
        frame: u32,
    )
        requires whole { length self.old ≡ 73728 }
        requires room { 512 * (at + 580) ≤ length (H.machine machine.old).memory }
        requires row { 576 * (frame + 1) ≤ 64 * length ways.now }
        requires rows { 64 * length ways.now ≤ 2 ^ 24 }
        ensures shuts { Shuts at base 73728 frame ways.now (H.machine machine.old) self.old (H.machine machine.new) }
        ensures same { self.new ≡ self.old }
    {
        let _all = machine.pages();
        let row = GROUPS * frame;
        let mut n = self.next_in(ways, row, 0, ALL_ENTRIES);
        while n < ALL_ENTRIES {
            let _known = self.look(n);
            let source = Source::System { entry: frame };
            close_entry(machine, entry_place(at, n), base, source);
            n = self.next_in(ways, row, n + 1, ALL_ENTRIES);
        }
    }
}

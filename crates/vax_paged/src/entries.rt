ghost use Rattle.std.specs.Prelude.{◌≡◌, ◌+◌, ◌*◌, ◌≤◌, ◌<◌, ◌^◌};
ghost use Rattle.vv_base.specs.Bytes.{long_at};
ghost use Rattle.vax_arch.specs.Walk.{in_region, mapped_entry, process_entry, system_entry};
ghost use Rattle.vax_hw.specs.Machine.{machine_tables};
ghost use Rattle.vax_hw.specs.RealTables.{everywhere, real_look};
ghost use Rattle.vax_paged.specs.Paged.{IsLow, IsMapped, entry_looked_up, look_of};

use crate::memory::long_in;
use vax_arch::{Pte, REGION};
use vax_hw::World;

/// The outcome of a page's look-up in the machine's own tables: its entry; or it has none, since the system table's entry for its
/// table isn't valid, or by a length.
#[derive(Clone, Copy, Debug, PartialEq, Eq)]
pub enum Entry {
    Found(Pte),
    NotValid,
    TooFar,
}

/// Where a page's entry lies; or it has none, as `Entry` says.
#[derive(Clone, Copy, Debug, PartialEq, Eq)]
pub enum Look {
    Found(usize),
    NotValid,
    TooFar,
}

/// The machine's memory as its page tables show it.
#[derive(Drop)]
pub struct Paged<'a> {
    pub memory: &'a [u8],
    pub world: &'a World,
}

impl Paged<'_> {
    /// The entry at a place.
    fn entry_at(&self, place: usize) -> Pte
        requires { place ≤ everywhere }
        ensures { result.0 ≡ long_at self.now.memory.now place }
    {
        Pte(long_in(self.memory, place))
    }

    /// The place of the system table's entry of a page.
    pub fn in_system_table(&self, page: u32) -> usize
        requires { page < 2 ^ 21 }
        ensures value { result ≡ self.now.world.now.sbr + 4 * page }
        ensures small { result + 4 ≤ everywhere }
    {
        self.world.sbr as usize + 4 * page as usize
    }

    /// Where a system page's entry lies, by its number in the region.
    #[tactic(auto, unfolding(vax_arch::specs::Walk::system_entry))]
    fn system_look(&self, page: u32) -> Look
        requires { page < 2 ^ 21 }
        ensures is { result ≡ look_of (system_entry everywhere (machine_tables self.now.world.now) page) }
        ensures mapped { IsMapped (system_entry everywhere (machine_tables self.now.world.now) page) }
        ensures low { IsLow result }
    {
        if self.world.slr <= page {
            return Look::TooFar;
        }
        Look::Found(self.in_system_table(page))
    }

    /// Where the process entry at a virtual address lies, which must be a system address that the system table has.
    #[tactic(auto, unfolding(vax_arch::specs::Walk::process_entry))]
    fn process_look(&self, at: u32) -> Look
        ensures is { result ≡ look_of (process_entry everywhere self.now.memory.now (machine_tables self.now.world.now) at) }
        ensures mapped { IsMapped (process_entry everywhere self.now.memory.now (machine_tables self.now.world.now) at) }
        ensures low { IsLow result }
    {
        let page = at / 512;
        if page / REGION != 2 || self.world.slr <= page % REGION {
            return Look::TooFar;
        }
        let table = self.entry_at(self.in_system_table(page % REGION));
        if !table.valid() {
            return Look::NotValid;
        }
        Look::Found(512 * table.frame() as usize + at as usize % 512)
    }

    /// Where the entry of a page lies, which is an address divided by 512.
    #[tactic(auto, unfolding(vax_hw::specs::RealTables::real_look, vax_arch::specs::Walk::lookup, vax_arch::specs::Walk::mapped_entry))]
    pub fn look(&self, page: u32) -> Look
        requires { page < 2 ^ 23 }
        ensures is { result ≡ look_of (real_look self.now.memory.now (machine_tables self.now.world.now) page) }
        ensures mapped { IsMapped (real_look self.now.memory.now (machine_tables self.now.world.now) page) }
        ensures low { IsLow result }
    {
        let in_region = page % REGION;
        match page / REGION {
            0 if in_region < self.world.p0lr => {
                self.process_look(self.world.p0br.wrapping_add(4 * in_region))
            }
            1 if self.world.p1lr <= in_region => {
                self.process_look(self.world.p1br.wrapping_add(4 * in_region))
            }
            2 => self.system_look(in_region),
            _ => Look::TooFar,
        }
    }

    /// The entry of a page, which is an address divided by 512.
    #[tactic(auto, using(crate::proofs::Lookups::looked))]
    pub fn entry(&self, page: u32) -> Entry
        requires { page < 2 ^ 23 }
        ensures is { result ≡ entry_looked_up self.now.memory.now (real_look self.now.memory.now (machine_tables self.now.world.now) page) }
        ensures mapped { IsMapped (real_look self.now.memory.now (machine_tables self.now.world.now) page) }
    {
        match self.look(page) {
            Look::Found(place) => Entry::Found(self.entry_at(place)),
            Look::NotValid => Entry::NotValid,
            Look::TooFar => Entry::TooFar,
        }
    }
}

ghost use Rattle.std.specs.Prelude.{◌≡◌, ◌<◌, ◌≤◌, ◌+◌, ◌*◌, [], length, false};
ghost use Rattle.vax_arch.specs.Walk.{page_of};
ghost use Rattle.vax_arch.specs.WalkLaws.{IsInside};
ghost use Rattle.vm_shadow.specs.Marks.{Frees};
ghost use Rattle.vm_shadow.specs.Layout.{IsCovered, entry_number, real_entry};
ghost use Rattle.vm_shadow.specs.Shadowed.{Keeps};
ghost use Rattle.vm_shadow.specs.StandsFor.{FillsPage, IsPageEntry, IsPresent, Protects, StandsFor};
ghost use Rattle.vm_state.specs.Partition.{guest_of, partition_of};
ghost use Rattle.vm_state.specs.Translation.{look};

use crate::flags::set_flags;
use crate::scans::entry_place;
use crate::{Shadow, Source};
use vax_arch::{Lookup, Pte, REGION, compress};
use vax_hw::Hardware;
use vm_state::GuestState;
use vm_walk::look_up;

/// The first page of P1 for which there are real entries.
const P1_FIRST: u32 = 2_088_960;

/// The number of the real entry of a page, in a slot.
pub fn entry_number(slot: u32, page: u32) -> u32
    requires slot { slot < 4 }
    requires covered { IsCovered page }
    ensures is { result ≡ entry_number slot page }
    ensures small { result < 73728 }
{
    let in_region = page % REGION;
    match page / REGION % 4 {
        2 => in_region,
        0 => 8192 + 16_384 * slot + in_region,
        _ => 16_384 + 16_384 * slot + (in_region - P1_FIRST),
    }
}

/// The real entry that stands for an entry of the guest, with its modify bit clear.
fn real_entry(base: u32, entry: Pte) -> u32
    requires { base ≤ 65536 }
    ensures { result ≡ real_entry base false entry.0 }
{
    0x8000_0000 + u32::from(compress(entry.prot()).0) * 0x0800_0000 + (base + entry.frame())
}

/// The entry of a page of the guest, by its look-up, with the frames that it is read from.
#[tactic(auto, using(vm_state::proofs::Parts::part_long))]
fn entry_of<H: Hardware>(machine: &H, g: &GuestState, seen: Lookup) -> Option<(Pte, Source)>
    requires partition { 512 * (g.now.base + g.now.pages) ≤ length (H.machine machine.now).memory }
    requires inside { IsInside (512 * g.now.pages) seen }
    ensures { IsPageEntry g.now.pages (partition_of (H.machine machine.now).memory g.now) seen result }
{
    let _all = machine.pages();
    match seen {
        Lookup::Found { place, table } => {
            let entry = Pte(machine.read_long(512 * g.base + place));
            let source = match table {
                None => Source::System { entry: place / 512 },
                Some(above) => Source::Process {
                    entry: place / 512,
                    table: above / 512,
                },
            };
            Some((entry, source))
        }
        Lookup::Direct { frame } => Some((Pte(0xA400_0000 + frame), Source::Direct)),
        Lookup::Fails { .. } | Lookup::Beyond => None,
    }
}

impl Shadow {
    /// No page that maps a frame can be written without an exit any longer.
    #[tactic(auto, using(crate::proofs::Protecting::frees_beyond))]
    fn close_frame<H: Hardware>(&mut self, machine: &mut H, frame: u32)
        requires { Keeps [] [] (H.machine machine.old).memory self.old }
        ensures { Frees frame (H.machine machine.old) self.old (H.machine machine.new) self.new }
    {
        if frame < self.pages {
            let (first, end) = (9 * frame, 9 * (frame + 1));
            if self.writable.is_clear(first, end) {
                return;
            }
            let (at, base) = (self.at, self.base);
            self.reads
                .close_entries(machine, at, base, &self.writable, frame);
            self.writable.clear(first, end);
        }
    }

    /// No page that maps a frame that a source has can be written without an exit any longer.
    #[tactic(auto, using(crate::proofs::Protecting::protects_direct, crate::proofs::Protecting::protects_system, crate::proofs::Protecting::protects_process))]
    fn protect<H: Hardware>(&mut self, machine: &mut H, source: Source)
        requires { Keeps [] [] (H.machine machine.old).memory self.old }
        ensures { Protects source (H.machine machine.old) self.old (H.machine machine.new) self.new }
    {
        match source {
            Source::Direct => {}
            Source::System { entry } => self.close_frame(machine, entry),
            Source::Process { entry, table } => {
                self.close_frame(machine, entry);
                self.close_frame(machine, table);
            }
        }
    }

    /// Fills the real entry of an address's page, with its modify bit clear. The page's entry must be found and valid, and
    /// name a frame in memory; what its code allows isn't asked.
    pub fn fill<H: Hardware>(&mut self, machine: &mut H, g: &GuestState, va: u32)
        requires stands { StandsFor (H.machine machine.old).memory self.old g.now }
        requires present { IsPresent (guest_of (H.machine machine.old).memory g.now) (page_of va) }
        ensures { FillsPage (page_of va) g.now (H.machine machine.old) self.old (H.machine machine.new) self.new }
    {
        let seen = look_up(machine, g, va / 512);
        self.fill_found(machine, g, va, seen);
    }

    /// Fills the real entry of an address's page, as `fill` does, by the look-up of the page.
    pub fn fill_found<H: Hardware>(
        &mut self,
        machine: &mut H,
        g: &GuestState,
        va: u32,
        seen: Lookup,
    )
        requires stands { StandsFor (H.machine machine.old).memory self.old g.now }
        requires present { IsPresent (guest_of (H.machine machine.old).memory g.now) (page_of va) }
        requires seen { seen ≡ look (guest_of (H.machine machine.old).memory g.now) (page_of va) }
        requires inside { IsInside (512 * g.now.pages) seen }
        ensures { FillsPage (page_of va) g.now (H.machine machine.old) self.old (H.machine machine.new) self.new }
    {
        if let Some((entry, source)) = entry_of(machine, g, seen) {
            self.protect(machine, source);
            let n = entry_number(u32::from(self.slot), va / 512);
            machine.write_long(entry_place(self.at, n), real_entry(self.base, entry));
            self.reads.fill(n, source);
            set_flags(&mut self.consulted, source, true);
        }
    }
}

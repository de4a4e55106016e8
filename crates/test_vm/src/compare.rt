ghost use Rattle.std.specs.Prelude.{◌<◌, ◌+◌, ◌*◌, ◌^◌};
ghost use Rattle.vm_shadow.specs.StandsFor.{StandsFor};

use crate::{BASE, Bench, Event, NoPlace, PAGES, real_entry, real_walk};
use vax_arch::{Intent, Lookup, Mode, Pte};
use vax_hw::{Hardware, World};
use vm_state::Walk;
use vm_walk::{look_up, walk};

/// The pages that are compared: the first 64 of P0 and of S, the last 64 of P1, and pages at the edges of tables and regions.
const COMPARED: u32 = 208;

static EDGES: [u32; 16] = [
    0x1FFF, 0x2000, 0x1F_FFFF, 0x20_0000, 0x3F_DFFF, 0x3F_E000, 0x3F_E001, 0x40_0040, 0x40_0080,
    0x40_1FFF, 0x40_2000, 0x40_21FF, 0x40_2200, 0x5F_FFFF, 0x60_0000, 0x7F_FFFF,
];

/// A page that is compared, by its number among them.
fn compared_page(k: u32) -> u32
    ensures { result < 2 ^ 23 }
{
    match k / 64 {
        0 => k,
        1 => 0x40_0000 + k % 64,
        2 => 0x3F_FFC0 + k % 64,
        _ => EDGES[(k % 16) as usize] % 0x80_0000,
    }
}

static USES: [(Mode, Mode, Intent); 8] = [
    (Mode::Kernel, Mode::Executive, Intent::Read),
    (Mode::Kernel, Mode::Executive, Intent::Write),
    (Mode::Executive, Mode::Executive, Intent::Read),
    (Mode::Executive, Mode::Executive, Intent::Write),
    (Mode::Supervisor, Mode::Supervisor, Intent::Read),
    (Mode::Supervisor, Mode::Supervisor, Intent::Write),
    (Mode::User, Mode::User, Intent::Read),
    (Mode::User, Mode::User, Intent::Write),
];

/// A place of the guest, or why there is none.
fn own_place(walked: Walk) -> Result<u32, NoPlace> {
    match walked {
        Walk::Frame { pa, .. } => Ok(pa),
        Walk::Fault(fault) if fault.not_valid => Err(NoPlace::Absent),
        Walk::Fault(_) => Err(NoPlace::Refused),
        Walk::Beyond => Err(NoPlace::Beyond),
    }
}

/// Whether the machine's answer may stand for the guest's: the same place, moved; the same refusal; or a miss, unless the
/// page is to be filled.
fn may_stand(real: Result<u32, NoPlace>, own: Result<u32, NoPlace>, is_filled: bool) -> bool {
    match (real, own) {
        (Ok(place), Ok(pa)) => pa < 512 * PAGES && place == 512 * BASE + pa,
        (Ok(_), Err(_)) | (Err(NoPlace::Beyond), _) | (Err(NoPlace::Refused), Ok(_)) => false,
        (Err(NoPlace::Refused), Err(_)) => true,
        (Err(NoPlace::Absent), Ok(_)) => !is_filled,
        (Err(NoPlace::Absent), Err(_)) => true,
    }
}

impl Bench {
    /// Whether a modify bit that the machine finds set is set in the guest's table.
    #[tactic(auto, using(crate::proofs::Driving::partition_fits))]
    fn has_right_modify_bit(&self, w: &World, page: u32) -> bool
        requires stands { StandsFor self.now.machine.memory self.now.shadow self.now.guest }
        requires page { page < 2 ^ 23 }
    {
        match real_entry(&self.machine, w, 512 * page) {
            Ok(entry) if entry.valid() && entry.modified() => match look_up(
                &self.machine,
                &self.guest,
                page,
            ) {
                Lookup::Found { place, .. } => Pte(self.guest_long(place)).modified(),
                Lookup::Direct { .. } => true,
                Lookup::Fails { .. } | Lookup::Beyond => false,
            },
            _ => true,
        }
    }

    /// A longword of the guest's memory; 0 beyond it.
    pub fn guest_long(&self, pa: u32) -> u32 {
        let end = 512 * u64::from(self.machine.pages());
        let place = 512 * u64::from(BASE) + u64::from(pa);
        if place < end - 3 {
            self.machine.read_long(place as u32)
        } else {
            0
        }
    }

    /// Whether the machine and the guest's tables agree in each use of an address.
    #[tactic(auto, using(crate::proofs::Driving::partition_fits))]
    fn agrees_at(&self, w: &World, va: u32, is_filled: bool) -> bool
        requires { StandsFor self.now.machine.memory self.now.shadow self.now.guest }
    {
        let mut agrees = true;
        for (mode, ring, intent) in &USES {
            let real = real_walk(&self.machine, w, va, *ring, *intent);
            let own = own_place(walk(&self.machine, &self.guest, va, *mode, *intent));
            agrees = agrees && may_stand(real, own, is_filled);
        }
        agrees
    }

    /// Whether the machine and the guest's tables agree in all pages that are compared, and in their modify bits; where the pages
    /// have just been filled, a miss agrees with no place.
    pub fn agrees(&self, is_filled: bool) -> bool
        requires { StandsFor self.now.machine.memory self.now.shadow self.now.guest }
    {
        let w = self.world();
        let mut agrees = true;
        for k in 0..COMPARED {
            let page = compared_page(k);
            agrees = agrees
                && self.agrees_at(&w, 512 * page + k, is_filled)
                && self.has_right_modify_bit(&w, page);
        }
        agrees
    }

    /// Fills all pages that are compared and have frames; how many.
    pub fn touch_all(&mut self) -> u32
        requires { StandsFor self.old.machine.memory self.old.shadow self.old.guest }
        ensures { StandsFor self.new.machine.memory self.new.shadow self.new.guest }
    {
        let mut filled: u32 = 0;
        for k in 0..COMPARED {
            if self.touch(512 * compared_page(k)) {
                filled = filled.saturating_add(1);
            }
        }
        filled
    }

    /// One event; then all is compared as it is, and again with all pages filled. Whether the event could happen; none where the
    /// machine and the guest's tables don't agree.
    pub fn follow(&mut self, event: Event) -> Option<bool>
        requires { StandsFor self.old.machine.memory self.old.shadow self.old.guest }
        ensures { StandsFor self.new.machine.memory self.new.shadow self.new.guest }
    {
        let happened = self.happen(event);
        let agrees = self.agrees(false);
        let _ = self.touch_all();
        if agrees && self.agrees(true) {
            Some(happened)
        } else {
            None
        }
    }

    /// The guest's frame of an address's page, as the machine finds it for user mode reading.
    pub fn real_frame(&self, va: u32) -> Result<u32, NoPlace>
        requires { StandsFor self.now.machine.memory self.now.shadow self.now.guest }
    {
        let place = real_walk(&self.machine, &self.world(), va, Mode::User, Intent::Read)?;
        Ok((place / 512).wrapping_sub(BASE))
    }

    /// Whether the machine may write an address's page without an exit: its entry is valid and its modify bit set.
    pub fn is_open(&self, va: u32) -> bool
        requires { StandsFor self.now.machine.memory self.now.shadow self.now.guest }
    {
        match real_entry(&self.machine, &self.world(), va) {
            Ok(entry) => entry.valid() && entry.modified(),
            Err(_) => false,
        }
    }
}

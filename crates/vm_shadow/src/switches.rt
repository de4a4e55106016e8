ghost use Rattle.std.specs.Prelude.{◌≡◌, ◌<◌, []};
ghost use Rattle.vm_shadow.specs.Shadowed.{CanBeShadowed, Keeps};
ghost use Rattle.vm_shadow.specs.StandsFor.{Switches, TakesSlot, is_full_for, range_that_goes, staying};
ghost use Rattle.vm_slots.specs.Held.{AreSlots};
ghost use Rattle.vm_state.specs.State.{context_of, tables_of};
ghost use Rattle.vm_state.specs.Touches.{is_remapped};

use crate::Shadow;
use crate::scans::{ALL_ENTRIES, Dropped};
use vax_hw::Hardware;
use vm_slots::{Context, Slots, Taken};
use vm_state::GuestState;

/// The first process entry, and the process entries of a slot.
const FIRST_PROCESS: u32 = 8192;

const SLOT: u32 = 16_384;

/// What a guest's process pages are translated under.
pub fn context_of(g: &GuestState) -> Context
    ensures { result ≡ context_of (tables_of g.now) }
{
    Context {
        mapped: g.mapen,
        p0br: g.p0br,
        p0lr: g.p0lr,
        p1br: g.p1br,
        p1lr: g.p1lr,
    }
}

/// The entries that go, from a number up to another: all where SBR, SLR or mapping changed, else those in the slot of a
/// context that went.
fn entries_that_go(remapped: bool, taken: &Taken) -> (u32, u32)
    requires { taken.now.slot < 4 }
    ensures { result ≡ range_that_goes remapped taken.now.evicted taken.now.slot }
{
    if remapped {
        (0, ALL_ENTRIES)
    } else if taken.evicted {
        let first = FIRST_PROCESS + SLOT * u32::from(taken.slot);
        (first, first + SLOT)
    } else {
        (0, 0)
    }
}

/// No context stays where SBR, SLR or mapping changed.
fn forget(held: &mut Slots, remapped: bool)
    ensures { held.new ≡ staying remapped held.old }
{
    if remapped {
        held.clear();
    }
}

/// Brings a context to the front, of those that stay.
#[tactic(auto, using(crate::proofs::Taking::takes, crate::proofs::Taking::slot_first))]
fn take_slot(held: &mut Slots, remapped: bool, c: &Context) -> Taken
    requires { AreSlots held.old }
    ensures takes { TakesSlot c.now (staying remapped held.old) held.new result.slot }
    ensures evicted { result.evicted ≡ is_full_for c.now (staying remapped held.old) }
    ensures small { result.slot < 4 }
{
    forget(held, remapped);
    held.take(c)
}

impl Shadow {
    /// Whether SBR, SLR or mapping aren't those of the last switch.
    fn is_remapped(&self, g: &GuestState) -> bool
        ensures { result ≡ is_remapped self.now.told (tables_of g.now) }
    {
        self.sbr != g.sbr || self.slr != g.slr || self.context.mapped != g.mapen
    }

    /// Takes the registers of a guest's page tables as they are now. All entries go where SBR, SLR or mapping changed, else
    /// those of a context that lost its slot.
    pub fn switch<H: Hardware>(&mut self, machine: &mut H, g: &GuestState)
        requires keeps { Keeps [] [] (H.machine machine.old).memory self.old }
        requires pages { self.old.pages ≡ g.now.pages }
        requires base { self.old.base ≡ g.now.base }
        requires tables { CanBeShadowed (tables_of g.now) }
        ensures { Switches g.now (H.machine machine.old) self.old (H.machine machine.new) self.new }
    {
        let context = context_of(g);
        let remapped = self.is_remapped(g);
        let taken = take_slot(&mut self.held, remapped, &context);
        let (first, end) = entries_that_go(remapped, &taken);
        self.reads
            .drop_entries(machine, self.at, first, end, Dropped::All);
        self.context = context;
        self.sbr = g.sbr;
        self.slr = g.slr;
        self.slot = taken.slot;
    }
}

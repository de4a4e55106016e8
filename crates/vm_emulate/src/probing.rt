ghost use Rattle.std.specs.Prelude.{◌≡◌, ◌≤◌, ◌<◌, ◌+◌, ◌*◌, ◌%◌, length, true};
ghost use Rattle.vax_arch.specs.Walk.{page_of};
ghost use Rattle.vax_table.specs.Probing.{last_of, probe_mode};
ghost use Rattle.vm_emulate.specs.Emulated.{FillsTwo, Probes, probe_codes};
ghost use Rattle.vm_emulate.specs.Probed.{probed_of};
ghost use Rattle.vm_shadow.specs.StandsFor.{IsPresent, StandsFor};
ghost use Rattle.vm_state.specs.Partition.{guest_of};
ghost use Rattle.vm_state.specs.Probe.{both, by_entry, probe, probed_byte};
ghost use Rattle.vm_state.specs.State.{HasPlace, state_of};
ghost use Rattle.vm_state.specs.Translation.{memory_fault};

use crate::Emulated;
use crate::halts::{go_after, stop_past_memory};
use vax_arch::{Intent, Mode, Psl, Pte, ring_may};
use vax_hw::Hardware;
use vax_table::Trapped;
use vm_shadow::Shadow;
use vm_state::{Exc, GuestState, MemFault};
use vm_walk::{Lookup, look_up};

/// What PROBE finds of a byte, or of both: whether they are accessible, and whether that is plain, since their entries are
/// found, valid and name frames in memory. Or a process entry lies on a system page that isn't valid, or beyond memory.
#[derive(Clone, Copy, Debug, PartialEq, Eq)]
pub enum Probed {
    Answers { is_accessible: bool, is_plain: bool },
    NotValid(MemFault),
    PastMemory,
}

impl Probed {
    /// Of both bytes; the first has its trouble first.
    fn and(self, other: Probed) -> Probed
        ensures { probed_of result ≡ both (probed_of self) (probed_of other) }
    {
        match (self, other) {
            (
                Probed::Answers {
                    is_accessible: a,
                    is_plain: p,
                },
                Probed::Answers {
                    is_accessible: b,
                    is_plain: q,
                },
            ) => Probed::Answers {
                is_accessible: a && b,
                is_plain: p && q,
            },
            (Probed::Answers { .. }, trouble) => trouble,
            (trouble, _) => trouble,
        }
    }
}

/// A byte that isn't accessible, and of which that isn't plain.
const NOT_ACCESSIBLE: Probed = Probed::Answers {
    is_accessible: false,
    is_plain: false,
};

/// The less privileged of the mode that an operand names and the previous one.
fn probe_mode(psl: Psl, named: u32) -> Mode
    ensures { result ≡ probe_mode psl.0 named }
{
    let mode = Mode::from_number(named);
    if psl.previous().number() <= mode.number() {
        mode
    } else {
        psl.previous()
    }
}

/// The last byte of a range; the base, where it has none.
fn last_of(base: u32, bytes: u32) -> u32
    ensures { result ≡ last_of base bytes }
{
    if bytes == 0 {
        base
    } else {
        base.wrapping_add(bytes).wrapping_sub(1)
    }
}

/// What a byte's entry allows: its code alone decides.
fn by_entry(g: &GuestState, entry: Pte, m: Mode, i: Intent) -> Probed
    requires { g.now.pages ≤ 65536 }
    ensures { probed_of result ≡ by_entry (512 * g.now.pages) entry.0 m i }
{
    Probed::Answers {
        is_accessible: ring_may(entry.prot(), m, i),
        is_plain: entry.valid() && entry.frame() < g.pages,
    }
}

/// A fault of a translation that isn't valid, at an address; bit 2 of its parameter says that the byte was to be written.
fn not_valid(va: u32, parameter: u8, i: Intent) -> MemFault
    requires { parameter < 4 }
    ensures { result ≡ memory_fault true va parameter i }
{
    let write = match i {
        Intent::Read => 0,
        Intent::Write => 4,
    };
    MemFault {
        not_valid: true,
        va,
        param: parameter + write,
    }
}

/// What PROBE finds of a byte.
#[tactic(auto, unfolding(vm_state::specs::Probe::probed_byte), using(vm_state::proofs::Parts::part_length, vm_state::proofs::Parts::part_long))]
fn probe_byte<H: Hardware>(machine: &H, g: &GuestState, va: u32, m: Mode, i: Intent) -> Probed
    requires partition { 512 * (g.now.base + g.now.pages) ≤ length (H.machine machine.now).memory }
    ensures { probed_of result ≡ probed_byte (guest_of (H.machine machine.now).memory g.now) va m i }
{
    let _all = machine.pages();
    match look_up(machine, g, va / 512) {
        Lookup::Found { place, .. } => by_entry(
            g,
            Pte(machine.read_long(512 * g.base + place)),
            m,
            i,
        ),
        Lookup::Direct { .. } => Probed::Answers {
            is_accessible: true,
            is_plain: true,
        },
        Lookup::Fails {
            not_valid: true,
            parameter,
        } => Probed::NotValid(not_valid(va, parameter, i)),
        Lookup::Fails {
            not_valid: false,
            ..
        } => NOT_ACCESSIBLE,
        Lookup::Beyond if g.mapen => Probed::PastMemory,
        Lookup::Beyond => NOT_ACCESSIBLE,
    }
}

/// What PROBE finds.
#[tactic(auto, unfolding(vm_state::specs::Probe::probe))]
fn probe_range<H: Hardware>(machine: &H, g: &GuestState, t: &Trapped, i: Intent) -> Probed
    requires partition { 512 * (g.now.base + g.now.pages) ≤ length (H.machine machine.now).memory }
    ensures { probed_of result ≡ probe (guest_of (H.machine machine.now).memory g.now) i t.now.a t.now.b t.now.c }
{
    let m = probe_mode(g.psl, t.a);
    let last = last_of(t.c, t.b % 0x1_0000);
    probe_byte(machine, g, t.c, m, i).and(probe_byte(machine, g, last, m, i))
}

/// Sets the codes of PROBE: Z where the bytes aren't accessible, N and V clear, C as before.
fn set_probed(g: &mut GuestState, is_accessible: bool)
    ensures state { state_of g.new ≡ record (state_of g.old) { psl = probe_codes is_accessible g.old.psl.0 } }
    ensures place { HasPlace g.old.pages g.old.base g.old.start g.new }
{
    let zero = u32::from(!is_accessible);
    g.psl = Psl(g.psl.0 / 16 * 16 + 4 * zero + g.psl.0 % 2);
}

/// Fills the real entries of two pages.
fn fill_both<H: Hardware>(machine: &mut H, s: &mut Shadow, g: &GuestState, first: u32, second: u32)
    requires stands { StandsFor (H.machine machine.old).memory s.old g.now }
    requires first { IsPresent (guest_of (H.machine machine.old).memory g.now) (page_of first) }
    requires second { IsPresent (guest_of (H.machine machine.old).memory g.now) (page_of second) }
    ensures { FillsTwo (page_of first) (page_of second) g.now (H.machine machine.old) s.old (H.machine machine.new) s.new }
{
    s.fill(machine, g, first);
    s.fill(machine, g, second);
}

/// PROBER, or PROBEW for writing. Where it is plain, the real entries of both bytes are filled, so that the machine does it.
pub fn probe<H: Hardware>(
    machine: &mut H,
    s: &mut Shadow,
    g: &mut GuestState,
    t: &Trapped,
    i: Intent,
) -> Emulated
    requires { StandsFor (H.machine machine.old).memory s.old g.old }
    ensures { Probes i t.now (H.machine machine.old) s.old g.old result (H.machine machine.new) s.new g.new }
{
    match probe_range(machine, g, t, i) {
        Probed::Answers { is_plain: true, .. } => {
            fill_both(machine, s, g, t.c, last_of(t.c, t.b % 0x1_0000));
            Emulated::Filled
        }
        Probed::Answers {
            is_accessible,
            is_plain: false,
        } => {
            go_after(g, t);
            set_probed(g, is_accessible);
            Emulated::Done
        }
        Probed::NotValid(fault) => Emulated::Fault(Exc::Memory(fault)),
        Probed::PastMemory => stop_past_memory(g),
    }
}

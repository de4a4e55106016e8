ghost use Rattle.std.specs.Prelude.{◌≡◌, ◌==◌, ◌/◌, ◌%◌, ◌^◌, ◌<◌, option_map};
ghost use Rattle.vm_exception.specs.Sources.{HasLevel, HasRequest, is_due, software_due, source_of};
ghost use Rattle.vm_exception.specs.Initiated.{IsProper};
ghost use Rattle.vm_state.specs.Interrupts.{due, interrupt_of, source_row};
ghost use Rattle.vm_state.specs.State.{HasPlace, state_of};

use vm_state::{Exc, GuestState};

/// What can interrupt a guest: its clock, a transfer that was made, its console's receiver and transmitter, and a software
/// level, 1 to 15.
#[derive(Clone, Copy, Debug, PartialEq, Eq)]
pub enum Source {
    IntervalClock,
    Kcall,
    Receiver,
    Transmitter,
    Software(u8),
}

impl Source {
    /// The interrupt priority level.
    fn level(self) -> u8
        ensures { result ≡ (source_row (source_of self)).level }
    {
        match self {
            Source::IntervalClock => 24,
            Source::Kcall => 21,
            Source::Receiver => 20,
            Source::Transmitter => 20,
            Source::Software(level) => level,
        }
    }

    /// Where the vector is in the system control block, in bytes.
    pub(crate) fn vector(self) -> u32
        ensures { result ≡ (source_row (source_of self)).vector }
    {
        match self {
            Source::IntervalClock => 0xC0,
            Source::Kcall => 0x100,
            Source::Receiver => 0xF8,
            Source::Transmitter => 0xFC,
            Source::Software(level) => 0x80 + 4 * u32::from(level),
        }
    }

    /// The interrupt that it makes.
    pub(crate) fn exception(self) -> Exc
        requires { HasLevel (source_of self) }
        ensures is { result ≡ interrupt_of (source_of self) }
        ensures proper { IsProper result }
    {
        Exc::Interrupt {
            level: self.level(),
            vector: self.vector(),
        }
    }
}

/// Whether the bit of a software level is set.
fn is_bit_set(sisr: u16, level: u8) -> bool
    requires { level < 16 }
    ensures { result ≡ (sisr / 2 ^ level % 2 == 1) }
{
    (sisr >> level) % 2 == 1
}

/// Whether a source requests an interrupt.
fn is_requested(g: &GuestState, source: Source) -> bool
    requires { HasLevel (source_of source) }
    ensures { result ≡ (source_row (source_of source)).requests (state_of g.now) }
{
    match source {
        Source::IntervalClock => g.clock.due(),
        Source::Kcall => g.kcall_due,
        Source::Receiver => g.console.rx_due(),
        Source::Transmitter => g.console.tx_due(),
        Source::Software(level) => is_bit_set(g.sisr, level),
    }
}

/// Whether a source requests an interrupt above the guest's level.
fn is_due(g: &GuestState, source: Source) -> bool
    requires { HasLevel (source_of source) }
    ensures { result ≡ is_due (state_of g.now) (source_of source) }
{
    is_requested(g, source) && g.psl.ipl() < source.level()
}

/// The highest software level that is pending above the guest's level.
fn software_due(g: &GuestState) -> Option<Source>
    ensures { option_map source_of result ≡ software_due (state_of g.now) }
{
    if g.sisr == 0 {
        return None;
    }
    for level in (1..16).rev() {
        let source = Source::Software(level);
        if is_due(g, source) {
            return Some(source);
        }
    }
    None
}

/// The highest interrupt that is pending above the guest's level.
pub fn due(g: &GuestState) -> Option<Source>
    ensures { option_map source_of result ≡ due (state_of g.now) }
{
    if is_due(g, Source::IntervalClock) {
        Some(Source::IntervalClock)
    } else if is_due(g, Source::Kcall) {
        Some(Source::Kcall)
    } else if is_due(g, Source::Receiver) {
        Some(Source::Receiver)
    } else if is_due(g, Source::Transmitter) {
        Some(Source::Transmitter)
    } else {
        software_due(g)
    }
}

/// Ends the request of a source, whose interrupt was taken.
pub fn end_request(g: &mut GuestState, source: Source)
    requires { HasRequest (state_of g.old) (source_of source) }
    ensures state { state_of g.new ≡ (source_row (source_of source)).taken (state_of g.old) }
    ensures place { HasPlace g.old.pages g.old.base g.old.start g.new }
{
    match source {
        Source::IntervalClock => g.clock.taken(),
        Source::Kcall => g.kcall_due = false,
        Source::Receiver => g.console.rx_taken(),
        Source::Transmitter => g.console.tx_taken(),
        Source::Software(level) => g.sisr -= 2u16.pow(u32::from(level)),
    }
}

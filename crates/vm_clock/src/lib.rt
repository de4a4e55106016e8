//! A guest's interval clock: the registers ICCS, NICR and ICR, and its interrupt's request.
#![tactic(auto)]

ghost use Rattle.std.specs.Prelude.{◌≡◌, ◌+◌, ◌-◌, ◌/◌, ◌%◌, ◌<◌, ◌==◌, ◌↔◌, false, IsTrue, IsFalse, IsNone, IfSome, MatchOption};
ghost use Rattle.vm_clock.specs.Clock.{initial_clock, iccs_of, after_count, after_tick, wraps_next, is_at_end, after_step_write, after_iccs_write, after_nicr_write, after_taken};
ghost use Rattle.vm_clock.specs.Parts.{parts_of_clock, clock_of_parts, IsClock};
ghost use Rattle.vm_clock.specs.Ticks.{after_ticks, IsNextWrap, NeverWraps, ticks_to_wrap};

use std::marker::Model;

/// Bit 0 of ICCS: the clock runs.
const RUN: u32 = 0x0000_0001;

/// Bit 4 of a written ICCS: load ICR from NICR.
const TRANSFER: u32 = 0x0000_0010;

/// Bit 5 of a written ICCS: count once.
const SINGLE_STEP: u32 = 0x0000_0020;

/// Bit 6 of ICCS: a wrap requests an interrupt.
const ENABLE: u32 = 0x0000_0040;

/// Bit 7 of ICCS: the counter wrapped. Writing a 1 clears it.
const INTERRUPT: u32 = 0x0000_0080;

/// Bit 31 of ICCS: the counter wrapped while bit 7 was set. Writing a 1 clears it.
const ERROR: u32 = 0x8000_0000;

/// A clock as plain numbers: ICCS as read, NICR, ICR, and whether an interrupt is requested.
#[derive(Clone, Copy, Debug, PartialEq, Eq)]
pub struct ClockParts {
    pub iccs: u32,
    pub nicr: u32,
    pub icr: u32,
    pub request: bool,
}

/// An interval clock, seen as the record of its registers.
#[derive(Drop)]
pub struct Clock {
    run: bool,
    enable: bool,
    interrupt: bool,
    error: bool,
    nicr: u32,
    icr: u32,
    request: bool,
}

impl Model for Clock {
    ghost use Rattle.std.specs.Prelude.{IsTrue};
    ghost use Rattle.vm_clock.specs.Clock.{ClockState};

    ghost Value = { ClockState };

    ghost view = { λ c. record { run = c.run; enable = c.enable; interrupt = c.interrupt; error = c.error; nicr = c.nicr; icr = c.icr; request = c.request } };

    ghost invariant = { λ c. IsTrue c.request → IsTrue c.enable };
}

impl Clock {
    /// A stopped clock with all registers 0.
    pub fn new() -> Self
        ensures { result ≡ initial_clock }
    {
        Clock {
            run: false,
            enable: false,
            interrupt: false,
            error: false,
            nicr: 0,
            icr: 0,
            request: false,
        }
    }

    /// What reading ICCS gives.
    pub fn read_iccs(&self) -> u32
        ensures { result ≡ iccs_of self.now }
    {
        u32::from(self.run) * RUN
            + u32::from(self.enable) * ENABLE
            + u32::from(self.interrupt) * INTERRUPT
            + u32::from(self.error) * ERROR
    }

    /// What reading ICR gives: the count.
    pub fn read_icr(&self) -> u32
        ensures { result ≡ self.now.icr }
    {
        self.icr
    }

    /// Writes ICCS: clears bits, loads or single-steps the counter, sets run and enable, in this order.
    #[tactic(auto, unfolding(crate::specs::Clock::after_iccs_write))]
    pub fn write_iccs(&mut self, v: u32)
        ensures { self.new ≡ after_iccs_write self.old v }
    {
        self.error = self.error && !is_set(v, ERROR);
        self.interrupt = self.interrupt && !is_set(v, INTERRUPT);
        self.transfer_or_step(v);
        self.run = is_set(v, RUN);
        let enable = is_set(v, ENABLE);
        self.request = enable && (self.request || !self.enable && self.interrupt);
        self.enable = enable;
    }

    /// Writes NICR, the count that a wrap loads.
    pub fn write_nicr(&mut self, v: u32)
        ensures { self.new ≡ after_nicr_write self.old v }
    {
        self.nicr = v;
    }

    /// Counts once where the clock runs, and says whether the counter wrapped.
    #[tactic(auto, unfolding(crate::specs::Clock::after_tick))]
    pub fn tick(&mut self) -> bool
        ensures after { self.new ≡ after_tick self.old }
        ensures wrapped { result ≡ wraps_next self.old }
    {
        self.run && self.count()
    }

    /// The number of ticks up to the next wrap, 1 to 2^32; `None` exactly where the clock is stopped.
    pub fn steps_to_event(&self) -> Option<u64>
        ensures stopped { IsNone result ↔ IsFalse self.now.run }
        ensures least { MatchOption result (NeverWraps self.now) (IsNextWrap self.now) }
        ensures count { IfSome result (λ n. n ≡ ticks_to_wrap self.now) }
    {
        if self.run {
            Some(0x1_0000_0000 - u64::from(self.icr))
        } else {
            None
        }
    }

    /// Passes `n` ticks at once, none of which wraps: the clock is stopped, or `n` is below the number that
    /// `steps_to_event` gives.
    pub fn pass(&mut self, n: u32)
        requires { IsTrue self.old.run → n < ticks_to_wrap self.old }
        ensures { self.new ≡ after_ticks n self.old }
    {
        if self.run {
            self.icr += n;
        }
    }

    /// Whether an interrupt is requested.
    pub fn due(&self) -> bool
        ensures { result ≡ self.now.request }
    {
        self.request
    }

    /// Ends the request: its interrupt was taken.
    pub fn taken(&mut self)
        ensures { self.new ≡ after_taken self.old }
    {
        self.request = false;
    }

    /// The clock as plain numbers.
    pub fn parts(&self) -> ClockParts
        ensures value { result ≡ parts_of_clock self.now }
        ensures back { clock_of_parts result ≡ self.now }
        ensures fits { IsClock result }
    {
        ClockParts {
            iccs: self.read_iccs(),
            nicr: self.nicr,
            icr: self.icr,
            request: self.request,
        }
    }

    /// The clock with these parts.
    pub fn of_parts(p: &ClockParts) -> Clock
        requires { IsClock p.now }
        ensures value { result ≡ clock_of_parts p.now }
        ensures back { parts_of_clock result ≡ p.now }
    {
        Clock {
            run: is_set(p.iccs, RUN),
            enable: is_set(p.iccs, ENABLE),
            interrupt: is_set(p.iccs, INTERRUPT),
            error: is_set(p.iccs, ERROR),
            nicr: p.nicr,
            icr: p.icr,
            request: p.request,
        }
    }

    fn transfer_or_step(&mut self, v: u32)
        ensures { self.new ≡ after_step_write self.old v }
    {
        if is_set(v, TRANSFER) {
            self.icr = self.nicr;
        } else if is_set(v, SINGLE_STEP) && !is_set(v, RUN) {
            let _ = self.count();
        }
    }

    /// Counts once, and says whether the counter wrapped.
    fn count(&mut self) -> bool
        ensures after { self.new ≡ after_count self.old }
        ensures wrapped { result ≡ is_at_end self.old }
    {
        match self.icr.checked_add(1) {
            Some(next) => {
                self.icr = next;
                false
            }
            None => {
                self.icr = self.nicr;
                self.error = self.error || self.interrupt;
                self.interrupt = true;
                self.request = self.request || self.enable;
                true
            }
        }
    }
}

/// Whether a bit of a longword is set; `bit` is its weight.
fn is_set(value: u32, bit: u32) -> bool
    requires { 0 < bit }
    ensures { result ≡ (value / bit % 2 == 1) }
{
    value / bit % 2 == 1
}

ghost use Rattle.std.specs.Prelude.{◌≡◌, ◌+◌, ◌<◌, ◌%◌, ◌^◌};
ghost use Rattle.vm_stepping.specs.Made.{no_counts, steps_in};

/// Steps by their kinds, and the trail of the plain ones modulo 2^64.
#[derive(Clone, Copy, Debug, Default, PartialEq, Eq)]
pub struct Counts {
    pub plain: u64,
    pub sensitive: u64,
    pub faults: u64,
    pub interrupts: u64,
    pub modify: u64,
    pub idle: u64,
    pub stopped: u64,
    pub trail: u64,
}

impl Counts {
    /// No steps.
    pub fn none() -> Counts
        ensures { result ≡ no_counts }
    {
        Counts {
            plain: 0,
            sensitive: 0,
            faults: 0,
            interrupts: 0,
            modify: 0,
            idle: 0,
            stopped: 0,
            trail: 0,
        }
    }

    /// Adds `done` plain steps, with the sum of their terms of the trail.
    pub(crate) fn retire(&mut self, done: u32, terms: u64)
        requires { steps_in self.old + done < 2 ^ 64 }
        ensures small { self.old.trail < 2 ^ 64 }
        ensures is { self.new ≡ record self.old { plain = self.old.plain + done; trail = (self.old.trail + terms) % 2 ^ 64 } }
    {
        self.plain += u64::from(done);
        self.trail = self.trail.wrapping_add(terms);
    }
}

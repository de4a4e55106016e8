/// Shows how far a run is. That changes nothing in the run: it answers nothing, and has no part in any contract.
pub trait Progress {
    /// Of a run's `of` rounds, `rounds` were made.
    fn made(&mut self, rounds: u32, of: u32);
}

/// Shows nothing.
#[derive(Clone, Copy, Debug, PartialEq, Eq)]
pub struct NoProgress;

impl Progress for NoProgress {
    fn made(&mut self, _rounds: u32, _of: u32) {}
}

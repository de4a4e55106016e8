use crate::telling::{is_mark, round_note};
use std::rt::Clock;
use std::time::Instant;
use vv_io::{Progress, Sink};

/// A run is reported on after this many seconds.
const PATIENCE: u64 = 2;

/// Shows people at a terminal how many rounds of a run were made, once it takes longer than two seconds: about a hundred times,
/// each time over what was shown before. A fault of the terminal or of the clock changes nothing.
#[derive(Drop)]
pub struct Ticker<'a, O: Sink, C: Clock> {
    out: &'a mut O,
    clock: &'a C,
    /// When it began; none where nothing is shown.
    began: Option<Instant>,
    has_told: bool,
}

impl<'a, O: Sink, C: Clock> Ticker<'a, O, C> {
    /// A ticker that begins now, and shows on `out` where that is a terminal.
    pub fn new(out: &'a mut O, is_terminal: bool, clock: &'a C) -> Self {
        let began = if is_terminal {
            Instant::now(clock).ok()
        } else {
            None
        };
        Ticker {
            out,
            clock,
            began,
            has_told: false,
        }
    }

    /// Whether the run takes longer than people wait without a word.
    fn is_late(&self) -> bool {
        let Some(began) = self.began else {
            return false;
        };
        began
            .elapsed(self.clock)
            .is_ok_and(|taken| taken.as_secs() >= PATIENCE)
    }
}

impl<O: Sink, C: Clock> Progress for Ticker<'_, O, C> {
    fn made(&mut self, rounds: u32, of: u32) {
        if is_mark(rounds, of) && (self.has_told || (rounds < of && self.is_late())) {
            self.has_told = true;
            let _ = self.out.put(round_note(rounds, of).bytes());
        }
    }
}

ghost use Rattle.std.specs.Prelude.{◌≡◌, ◌<◌, ◌≤◌, ◌+◌, ◌-◌, ◌*◌, false, nat_lt, IfOk, length, option_map, position, replicate, slice_index, vec_len};
ghost use Rattle.sys_system.specs.System.{after_slice, all_turns, next_guest, next_slice, slice_of_time};
ghost use Rattle.sys_system.specs.Held.{turns_of};

use std::alloc::Global;
use sys_guests::TimeSlice;
use sys_objects::GuestRow;
use vv_base::NoMemory;

/// The turns of a round.
#[derive(Drop)]
pub struct Turns {
    /// By guest, the steps left in this round.
    pub left: Vec<u32>,
    /// The place at which the next guest is looked for.
    pub from: usize,
    pub is_begun: bool,
}

impl Turns {
    /// No round is begun, and no guest has steps left.
    pub fn none(alloc: Global, guests: usize) -> Result<Turns, NoMemory>
        ensures { IfOk result (λ t. turns_of t ≡ record { left = replicate guests 0; from = 0; is_begun = false }) }
    {
        Ok(Turns {
            left: vec![in alloc; 0; guests]?,
            from: 0,
            is_begun: false,
        })
    }

    /// A round begins: each guest has its quantum.
    pub fn begin(&mut self, rows: &[GuestRow])
        requires { vec_len self.old.left ≡ length rows.now }
        ensures { turns_of self.new ≡ all_turns rows.now }
    {
        for (place, row) in rows.iter().enumerate() {
            self.left[place] = row.quantum;
        }
        self.from = 0;
        self.is_begun = true;
    }

    /// A guest has taken a slice of its turn.
    pub fn take(&mut self, slice: TimeSlice)
        requires there { slice.guest < vec_len self.old.left }
        requires left { slice.steps ≤ slice_index self.old.left.items slice.guest }
        ensures { turns_of self.new ≡ after_slice (turns_of self.old) (slice_of_time slice) }
    {
        let place = slice.guest as usize;
        self.left[place] -= slice.steps;
        self.from = place + 1;
    }

    /// The place of the next guest with steps left, from a place on and round again.
    fn next_guest(&self) -> Option<usize>
        requires { self.now.from ≤ vec_len self.now.left }
        ensures { result ≡ next_guest self.now.from self.now.left.items }
    {
        let from = self.from;
        match first_left(&self.left[from..]) {
            Some(k) => Some(from + k),
            None => first_left(&self.left),
        }
    }

    /// The next slice: at most `slice` steps of the next guest with steps left.
    pub fn next(&self, slice: u32) -> Option<TimeSlice>
        requires from { self.now.from ≤ vec_len self.now.left }
        requires few { vec_len self.now.left ≤ 16 }
        ensures { option_map slice_of_time result ≡ next_slice slice (turns_of self.now) }
    {
        if !self.is_begun {
            return None;
        }
        let guest = self.next_guest()?;
        Some(TimeSlice {
            guest: guest as u8,
            steps: slice.min(self.left[guest]),
        })
    }

    /// No round is begun any more.
    pub fn end(&mut self)
        ensures { self.new ≡ record self.old { is_begun = false } }
    {
        self.is_begun = false;
    }
}

/// The place of the first guest with steps left.
fn first_left(left: &[u32]) -> Option<usize>
    ensures { result ≡ position (λ n. nat_lt 0 n) left.now }
{
    left.iter().position(|n| 0 < *n)
}

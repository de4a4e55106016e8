//! What steps do, counted.

ghost use Rattle.vm_guest.specs.Kept.{IsShadowedIn};

use test_vm_stage::Place::{Mapen, P0br, P0lr, P1br, P1lr, Psl, R, Sbr, Slr};
use test_vm_stage::{Kinds, Place, Stage, sums};

/// How many steps ended in an arithmetic trap, in a fault of a page's protection or valid bit, or in a modify fault. How many
/// went to another mode, loaded another context's tables, or wrote a register of mapping otherwise. And how many changed an
/// entry of a table.
pub type Deeds = [u64; 7];

/// Steps by their kinds, and by what they did where that was looked at.
#[derive(Clone, Copy)]
pub struct Tally {
    pub kinds: Kinds,
    pub deeds: Deeds,
}

/// What of a guest a step is judged by: R0 to R13, where it goes on and in what mode, the registers of mapping, and a sum over its
/// tables.
#[derive(Clone, Copy)]
pub struct Look {
    numbers: [u32; 14],
    pc: u32,
    mode: u32,
    mapping: [u32; 7],
    entries: u64,
}

/// The registers of mapping.
static MAPPING: [Place; 7] = [Mapen, Sbr, Slr, P0br, P0lr, P1br, P1lr];

/// Where the handlers begin of an arithmetic trap, of a page that isn't allowed or valid, and of a modify fault.
const TRAP: u32 = 0x8000_1054;

const PAGE: u32 = 0x8000_1010;

const MODIFY_FAULT: u32 = 0x8000_1050;

/// Tables lie in 400 bytes from each of these on.
static AREAS: [u32; 3] = [0x4000, 0x4600, 0x4A00];

/// A sum over bytes, which another order changes.
fn sum_of(bytes: &[u8], before: u64) -> u64 {
    let mut sum = before;
    for byte in bytes {
        sum = sum
            .wrapping_mul(0x0100_0000_01B3)
            .wrapping_add(u64::from(*byte));
    }
    sum
}

/// A sum over the tables.
fn sum_of_entries(stage: &Stage) -> u64
    requires { IsShadowedIn stage.now.machine.memory stage.now.guest }
{
    let mut sum = 0;
    for area in &AREAS {
        let mut bytes = [0; 0x400];
        let _ = stage.fetch(*area, &mut bytes);
        sum = sum_of(&bytes, sum);
    }
    sum
}

impl Look {
    /// A guest as it is now.
    pub fn at(stage: &Stage) -> Look
        requires { IsShadowedIn stage.now.machine.memory stage.now.guest }
    {
        let state = stage.state();
        let mut numbers = [0; 14];
        for n in 0..14 {
            numbers[n as usize] = R(n).of(state);
        }
        let mut mapping = [0; 7];
        for (k, place) in MAPPING.iter().enumerate() {
            mapping[k] = place.of(state);
        }
        Look {
            numbers,
            pc: R(15).of(state),
            mode: Psl.of(state) / 0x0100_0000 % 4,
            mapping,
            entries: sum_of_entries(stage),
        }
    }

    /// What a step of a kind did that came from here to there.
    pub fn deeds(&self, there: &Look, kinds: &Kinds) -> Deeds {
        let [plain, _, faults, ..] = *kinds;
        let is_plain = plain == 1;
        let is_fault = faults == 1;
        let is_remapped = self.mapping != there.mapping;
        let is_loaded = self.numbers != there.numbers;
        [
            u64::from(is_plain && there.pc == TRAP),
            u64::from(is_fault && there.pc == PAGE),
            u64::from(is_fault && there.pc == MODIFY_FAULT),
            u64::from(self.mode != there.mode),
            u64::from(is_remapped && is_loaded),
            u64::from(is_remapped && !is_loaded),
            u64::from(self.entries != there.entries),
        ]
    }
}

impl Tally {
    /// No steps.
    pub fn none() -> Tally {
        Tally::of([0; 7])
    }

    /// Steps of these kinds, which weren't looked at.
    pub fn of(kinds: Kinds) -> Tally {
        Tally {
            kinds,
            deeds: [0; 7],
        }
    }

    /// Both together.
    pub fn and(&self, other: &Tally) -> Tally {
        Tally {
            kinds: sums(&self.kinds, &other.kinds),
            deeds: sums(&self.deeds, &other.deeds),
        }
    }

    /// Whether each count is at least another's.
    pub fn is_at_least(&self, least: &Tally) -> bool {
        are_at_least(&self.kinds, &least.kinds) && are_at_least(&self.deeds, &least.deeds)
    }
}

/// Whether each number is at least the other.
fn are_at_least(counts: &[u64; 7], least: &[u64; 7]) -> bool {
    counts
        .iter()
        .zip(least.iter())
        .all(|(count, least)| *least <= *count)
}

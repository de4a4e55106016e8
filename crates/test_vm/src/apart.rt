//! Each guest three times: with its steps in one call, one by one, and one by one on a new machine each.

ghost use Rattle.vm_guest.specs.Kept.{IsShadowedIn};

use crate::draw::Draw;
use crate::events::{drawn_event, happen};
use crate::guests::drawn_guest;
use crate::tally::{Look, Tally};
use std::alloc::Global;
use std::process::Abort;
use std::test::Fail;
use test_vm_stage::{Kinds, Quanta, Snapshot, Stage, sums};
use vv_base::NoMemory;

/// How the steps of a round are taken: in one call, one by one, or the first *n* each on a new machine and then the rest.
#[derive(Clone, Copy)]
enum How {
    Together,
    Singly,
    Carried(u32),
}

/// Takes one step on a new machine; what it did.
fn step_apart(alloc: Global, stage: &mut Stage) -> Result<Tally, NoMemory>
    requires { IsShadowedIn stage.old.machine.memory stage.old.guest }
    ensures { IsShadowedIn stage.new.machine.memory stage.new.guest }
{
    let here = Look::at(stage);
    stage.carry(alloc)?;
    let kinds = stage.play(1, Quanta::Cut(0));
    let deeds = here.deeds(&Look::at(stage), &kinds);
    Ok(Tally { kinds, deeds })
}

/// Takes `steps` steps, of which the first `apart` are each taken on a new machine; what they did.
fn play_carried(alloc: Global, stage: &mut Stage, steps: u32, apart: u32) -> Result<Tally, NoMemory>
    requires { IsShadowedIn stage.old.machine.memory stage.old.guest }
    ensures { IsShadowedIn stage.new.machine.memory stage.new.guest }
{
    let mut tally = Tally::none();
    let together = steps.saturating_sub(apart);
    for _ in together..steps {
        tally = tally.and(&step_apart(alloc, stage)?);
    }
    let rest = stage.play(together, Quanta::Cut(0));
    tally.kinds = sums(&tally.kinds, &rest);
    Ok(tally)
}

/// Takes `steps` steps; their kinds, and what those did that were taken on new machines.
fn play(alloc: Global, stage: &mut Stage, steps: u32, how: How) -> Result<Tally, NoMemory>
    requires { IsShadowedIn stage.old.machine.memory stage.old.guest }
    ensures { IsShadowedIn stage.new.machine.memory stage.new.guest }
{
    match how {
        How::Together => Ok(Tally::of(stage.play(steps, Quanta::Cut(0)))),
        How::Singly => Ok(Tally::of(stage.play(steps, Quanta::Single))),
        How::Carried(apart) => play_carried(alloc, stage, steps, apart),
    }
}

/// A guest after a round: the kinds of its steps, what it has, and what it was shown so far.
#[derive(Drop)]
struct Round {
    kinds: Kinds,
    guest: Snapshot,
    shown: Vec<u8>,
}

impl Round {
    fn of(alloc: Global, stage: &Stage, kinds: Kinds) -> Result<Round, NoMemory>
        requires { IsShadowedIn stage.now.machine.memory stage.now.guest }
    {
        let guest = Snapshot::of(alloc, stage)?;
        let shown = stage.port.bytes().to_vec(alloc)?;
        Ok(Round {
            kinds,
            guest,
            shown,
        })
    }

    /// Whether the guest is the same after both.
    fn is_same(&self, other: &Round) -> bool {
        self.kinds == other.kinds
            && self.shown == other.shown
            && self.guest.difference(&other.guest).is_none()
    }
}

/// Some steps, and what happens from outside after them; what the steps did.
fn play_round(
    alloc: Global,
    stage: &mut Stage,
    draw: &mut Draw,
    how: How,
) -> Result<Tally, NoMemory>
    requires { IsShadowedIn stage.old.machine.memory stage.old.guest }
    ensures { IsShadowedIn stage.new.machine.memory stage.new.guest }
{
    let tally = play(alloc, stage, 1 + draw.below(40), how)?;
    let event = drawn_event(draw);
    happen(stage, event, draw.mode());
    Ok(tally)
}

/// The guest of a seed after each of some rounds, and what its steps did. What is drawn doesn't depend on how steps are taken.
fn run(alloc: Global, seed: u32, rounds: usize, how: How) -> Result<(Vec<Round>, Tally), NoMemory> {
    let mut draw = Draw::new(seed.wrapping_mul(0x9E37_79B1));
    let mut stage = drawn_guest(alloc, seed)?;
    let mut found = Vec::new(alloc);
    let mut tally = Tally::none();
    for _ in 0..rounds {
        let own = play_round(alloc, &mut stage, &mut draw, how)?;
        tally = tally.and(&own);
        found.push(Round::of(alloc, &stage, own.kinds)?)?;
    }
    Ok((found, tally))
}

/// The rounds are those of the guest whose steps are taken together; what its steps did.
fn run_again(
    rt: &impl Abort,
    alloc: Global,
    seed: u32,
    wanted: &[Round],
    how: How,
) -> Result<Tally, NoMemory> {
    let (found, tally) = run(alloc, seed, wanted.len(), how)?;
    for (number, (one, other)) in found.iter().zip(wanted.iter()).enumerate() {
        assert!(rt; one.is_same(other), "guest {seed}, round {number}");
    }
    Ok(tally)
}

/// Guests that are drawn from every other seed from one on: for each, the number of rounds of 1 to 40 steps, and how many steps
/// of a round are taken on new machines. Then the least number of steps that each guest takes without being stopped, of steps of
/// each kind, and of steps that do each thing; and the greatest number of steps that are stopped.
#[derive(Clone, Copy)]
struct Plan {
    first: u32,
    guests: u32,
    rounds: usize,
    apart: u32,
    each: u64,
    least: Tally,
    most_stopped: u64,
}

/// How many steps there were that aren't stopped.
fn active(tally: &Tally) -> u64 {
    let [plain, sensitive, faults, interrupts, modify, idle, _] = tally.kinds;
    [sensitive, faults, interrupts, modify, idle]
        .iter()
        .fold(plain, |sum, count| sum.saturating_add(*count))
}

/// A drawn guest, in its rounds.
fn play_guest(rt: &impl Abort, alloc: Global, plan: &Plan, seed: u32) -> Result<Tally, NoMemory> {
    let (rounds, _) = run(alloc, seed, plan.rounds, How::Together)?;
    let _ = run_again(rt, alloc, seed, &rounds, How::Singly)?;
    let tally = run_again(rt, alloc, seed, &rounds, How::Carried(plan.apart))?;
    assert!(rt; plan.each <= active(&tally), "guest {seed}");
    Ok(tally)
}

/// All guests of a plan: enough steps are of each kind and do each thing, and few enough are stopped.
fn play_guests(rt: &impl Abort, alloc: Global, plan: &Plan) -> Result<(), NoMemory> {
    let mut tally = Tally::none();
    for k in 0..plan.guests {
        let seed = plan.first.wrapping_add(k.wrapping_mul(2));
        tally = tally.and(&play_guest(rt, alloc, plan, seed)?);
    }
    let [.., stopped] = tally.kinds;
    assert!(rt; stopped <= plan.most_stopped, "{stopped}");
    assert!(rt; tally.is_at_least(&plan.least), "from {}", plan.first);
    Ok(())
}

/// Many guests, for about a hundred steps each.
static MANY: Plan = Plan {
    first: 1,
    guests: 200,
    rounds: 6,
    apart: 2,
    each: 0,
    least: Tally {
        kinds: [10_000, 5000, 1500, 400, 100, 20, 0],
        deeds: [0; 7],
    },
    most_stopped: 1000,
};

/// A few guests, for about two thousand steps each.
static LONG: Plan = Plan {
    first: 1001,
    guests: 8,
    rounds: 100,
    apart: 1,
    each: 1000,
    least: Tally {
        kinds: [5000, 3000, 500, 300, 10, 0, 0],
        deeds: [0; 7],
    },
    most_stopped: 1000,
};

/// Two guests, one with modify faults, for some two thousand steps each, each of which is taken on a new machine.
fn apart(first: u32) -> Plan {
    Plan {
        first,
        guests: 2,
        rounds: 100,
        apart: 40,
        each: 1000,
        least: Tally {
            kinds: [800, 400, 60, 30, 2, 0, 0],
            deeds: [3, 40, 2, 150, 15, 15, 15],
        },
        most_stopped: 800,
    }
}

#[test]
fn many_guests(rt: HostRuntime) -> Result<(), Fail> {
    Ok(play_guests(&rt, rt.alloc(), &MANY)?)
}

#[test]
fn long_runs(rt: HostRuntime) -> Result<(), Fail> {
    Ok(play_guests(&rt, rt.alloc(), &LONG)?)
}

/// Two such pairs of guests.
fn play_apart(rt: &impl Abort, alloc: Global, first: u32) -> Result<(), NoMemory> {
    play_guests(rt, alloc, &apart(first))?;
    play_guests(rt, alloc, &apart(first.wrapping_add(4)))
}

#[test]
fn each_step_apart_from_2001(rt: HostRuntime) -> Result<(), Fail> {
    Ok(play_apart(&rt, rt.alloc(), 2001)?)
}

#[test]
fn each_step_apart_from_2009(rt: HostRuntime) -> Result<(), Fail> {
    Ok(play_apart(&rt, rt.alloc(), 2009)?)
}

#[test]
fn each_step_apart_from_2017(rt: HostRuntime) -> Result<(), Fail> {
    Ok(play_apart(&rt, rt.alloc(), 2017)?)
}

#[test]
fn each_step_apart_from_2025(rt: HostRuntime) -> Result<(), Fail> {
    Ok(play_apart(&rt, rt.alloc(), 2025)?)
}

#[test]
fn each_step_apart_from_2033(rt: HostRuntime) -> Result<(), Fail> {
    Ok(play_apart(&rt, rt.alloc(), 2033)?)
}

ghost use Rattle.std.specs.Prelude.{◌≡◌, ◌≤◌, ◌+◌, drop, false, length, nat_le, take_while};
ghost use Rattle.sys_runs.specs.Rounds.{MakesRounds};
ghost use Rattle.sys_script.specs.Events.{AreEvents};
ghost use Rattle.sys_system.specs.System.{IsInMachine, IsSystem};

use sys_script::Event;
use sys_system::System;
use vax_hw::Hardware;
use vv_io::{Lines, Progress};

/// How many of the first events are of rounds up to this one.
fn count_up_to(events: &[Event], round: u32) -> usize
    ensures { result ≡ length (take_while (λ e. nat_le e.round round) events.now) }
{
    events
        .iter()
        .take_while(|event| event.round <= round)
        .count()
}

/// The events that come after the first ones of rounds up to this one.
fn later_than(events: &[Event], round: u32) -> &[Event]
    ensures { result.now ≡ drop (length (take_while (λ e. nat_le e.round round) events.now)) events.now }
{
    let past = count_up_to(events, round);
    events.split_at(past).1
}

/// Makes the next `rounds` rounds of a system, the i-th round since power-up with the events of round i. Events of earlier and of
/// later rounds have no effect. After each round `progress` gets the number of rounds made. It takes no memory, and no fault of a
/// line is answered: it is kept as a mark.
pub fn make_rounds<H: Hardware, P: Progress, L: Lines>(
    system: &mut System,
    machine: &mut H,
    lines: &mut L,
    events: &[Event],
    rounds: u32,
    progress: &mut P,
)
    requires rests { system.old.turns.is_begun ≡ false }
    requires few { system.old.rounds + rounds ≤ 2000000 }
    requires ordered { AreEvents events.now }
    requires holds { IsSystem system.old }
    requires stands { IsInMachine (H.machine machine.old).memory system.old }
    ensures makes { MakesRounds rounds events.now (H.machine machine.old) system.old (L.lines lines.old) (H.machine machine.new) system.new (L.lines lines.new) }
    ensures holds { IsSystem system.new }
{
    let before = system.rounds();
    let mut rest = later_than(events, before);
    for made in 0..rounds {
        let own = count_up_to(rest, before + made + 1);
        let (these, later) = rest.split_at(own);
        system.make_round(machine, lines, these);
        rest = later;
        progress.made(made + 1, rounds);
    }
}

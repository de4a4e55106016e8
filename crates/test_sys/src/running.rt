ghost use Rattle.std.specs.Prelude.{◌≡◌, ◌<◌, ◌≤◌, ◌*◌, ◌+◌, All, IfSome, IsTrue, false, length, map, vec_len};
ghost use Rattle.sys_devices.specs.Rows.{FitsDrive};
ghost use Rattle.sys_objects.specs.Condition.{IsConfig};
ghost use Rattle.sys_system.specs.Calls.{AreOf};
ghost use Rattle.sys_system.specs.System.{IsInMachine};
ghost use Rattle.test_sys.specs.Slices.{AreSlices};

use crate::case::Case;
use crate::content::bytes_of;
use crate::outcome::Ending;
use crate::slices::{are_quanta, rotations};
use std::alloc::Global;
use sys_config::read_config;
use sys_objects::Config;
use sys_script::{Event, read_script};
use sys_system::{System, TimeSlice};
use vax_cpu::Cpu;
use vax_hw::Hardware;
use vv_io::{Drive, LineList, Lines, MemLine};

/// The pages of the machine.
pub const PAGES: u32 = 32_768;

/// Whether all are events of a round.
fn are_of(events: &[Event], round: u32) -> bool
    ensures { IsTrue result → AreOf round events.now }
{
    events.iter().all(|event| event.round == round)
}

/// The events of a round, which are together.
fn of_round(events: &[Event], round: u32) -> &[Event]
    ensures { AreOf round result.now }
{
    let first = events
        .iter()
        .take_while(|event| event.round < round)
        .count();
    let later = events.get(first..).unwrap_or(&[]);
    let count = later
        .iter()
        .take_while(|event| event.round == round)
        .count();
    let these = later.get(..count).unwrap_or(&[]);
    if are_of(these, round) { these } else { &[] }
}

/// Whether each guest takes its quantum in these slices.
fn are_slices(slices: &[TimeSlice], config: &Config) -> bool
    ensures { IsTrue result → AreSlices config.now slices.now }
{
    let rows = config.guests.as_slice();
    slices
        .iter()
        .all(|slice| (slice.guest as usize) < rows.len())
        && are_quanta(slices, 0, rows)
}

/// Brings power up.
fn powered<H: Hardware>(
    alloc: Global,
    config: Config,
    images: &[Vec<u8>],
    machine: &mut H,
    drives: &mut Vec<Box<dyn Drive>>,
) -> Option<System>
    requires accepted { IsConfig config }
    requires images { length images.now ≡ length config.guests }
    requires pages { length (H.machine machine.old).memory ≡ 512 * 32768 }
    requires drives { vec_len drives.old ≡ 16 }
    ensures config { IfSome result (λ s. s.config ≡ config) }
    ensures first { IfSome result (λ s. s.rounds ≡ 0) }
    ensures rests { IfSome result (λ s. s.turns.is_begun ≡ false) }
    ensures stands { IfSome result (λ s. IsInMachine (H.machine machine.new).memory s) }
    ensures fit { IfSome result (λ s. All (FitsDrive (map (λ d. kept d) drives.new.items)) s.config.volumes) }
    ensures len { vec_len drives.new ≡ vec_len drives.old }
{
    System::power_up(alloc, config, images, machine, drives).ok()
}

/// Makes a round by slices.
fn take_one<H: Hardware, L: Lines>(
    system: &mut System,
    machine: &mut H,
    lines: &mut L,
    events: &[Event],
    slices: &[TimeSlice],
)
    requires rests { system.old.turns.is_begun ≡ false }
    requires few { system.old.rounds < 4000000000 }
    requires stands { IsInMachine (H.machine machine.old).memory system.old }
    requires events { AreOf (system.old.rounds + 1) events.now }
    requires slices { AreSlices system.old.config slices.now }
    ensures config { system.new.config ≡ system.old.config }
    ensures rounds { system.new.rounds ≡ system.old.rounds + 1 }
    ensures rests { system.new.turns.is_begun ≡ false }
    ensures stands { IsInMachine (H.machine machine.new).memory system.new }
{
    system.take_slices(machine, lines, events, slices);
}

/// Makes a round, by the slices of `next`, or by these.
fn make_one<H: Hardware, L: Lines>(
    system: &mut System,
    machine: &mut H,
    lines: &mut L,
    events: &[Event],
    slices: &Option<Vec<TimeSlice>>,
)
    requires rests { system.old.turns.is_begun ≡ false }
    requires few { system.old.rounds < 4000000000 }
    requires stands { IsInMachine (H.machine machine.old).memory system.old }
    requires events { AreOf (system.old.rounds + 1) events.now }
    requires slices { IfSome slices.now (λ ts. AreSlices system.old.config ts.items) }
    ensures config { system.new.config ≡ system.old.config }
    ensures rounds { system.new.rounds ≡ system.old.rounds + 1 }
    ensures rests { system.new.turns.is_begun ≡ false }
    ensures stands { IsInMachine (H.machine machine.new).memory system.new }
{
    match slices {
        None => system.make_round(machine, lines, events),
        Some(slices) => take_one(system, machine, lines, events, slices.as_slice()),
    }
}

/// Makes `rounds` rounds, with their events, each by the slices of `next`, or by these.
fn make_rounds<H: Hardware, L: Lines>(
    system: &mut System,
    machine: &mut H,
    lines: &mut L,
    events: &[Event],
    rounds: u32,
    slices: &Option<Vec<TimeSlice>>,
)
    requires rests { system.old.turns.is_begun ≡ false }
    requires first { system.old.rounds ≡ 0 }
    requires few { rounds ≤ 1000000 }
    requires stands { IsInMachine (H.machine machine.old).memory system.old }
    requires slices { IfSome slices.now (λ ts. AreSlices system.old.config ts.items) }
    ensures config { system.new.config ≡ system.old.config }
    ensures stands { IsInMachine (H.machine machine.new).memory system.new }
{
    for number in 0..rounds {
        let these = of_round(events, number + 1);
        make_one(system, machine, lines, these, slices);
    }
}

/// The configuration of a case.
fn config_of(alloc: Global, case: &Case) -> Option<Config>
    ensures { IfSome result (λ c. IsConfig c) }
{
    read_config(alloc, case.config.as_bytes()).ok()
}

/// The images of a case.
fn images_of(alloc: Global, case: &Case) -> Option<Vec<Vec<u8>>> {
    let mut images = Vec::new(alloc);
    for content in case.images {
        images.push(bytes_of(alloc, content)?).ok()?;
    }
    Some(images)
}

/// The slices of a round in which guests take turns in an order, each with the most steps that it may take; none, so that the round
/// goes by those of `next`, where there is no order.
fn slices_of(alloc: Global, config: &Config, order: &[(u8, u32)]) -> Option<Option<Vec<TimeSlice>>>
    ensures { IfSome result (λ o. IfSome o (λ ts. AreSlices config.now ts.items)) }
{
    if order.is_empty() {
        return Some(None);
    }
    let slices = rotations(alloc, config.guests.as_slice(), order)?;
    if are_slices(&slices, config) {
        Some(Some(slices))
    } else {
        None
    }
}

/// Plays a case on lines and drives that are given; what they show and keep is to be asked of them.
pub fn run(
    alloc: Global,
    machine: &mut Cpu,
    case: &Case,
    order: &[(u8, u32)],
    lines: &mut LineList<MemLine>,
    drives: &mut Vec<Box<dyn Drive>>,
) -> Option<Ending>
    requires { vec_len drives.old ≡ 16 }
{
    let config = config_of(alloc, case)?;
    let events = read_script(alloc, case.script.as_bytes()).ok()?;
    let images = images_of(alloc, case)?;
    let slices = slices_of(alloc, &config, order)?;
    if machine.pages() != PAGES || images.len() != config.guests.len() || case.rounds > 1_000_000 {
        return None;
    }
    let mut system = powered(alloc, config, &images, machine, drives)?;
    make_rounds(&mut system, machine, lines, &events, case.rounds, &slices);
    system.power_down(machine, lines, drives);
    Some(Ending {
        failed: system.failed(),
        counts: system.counts(),
    })
}

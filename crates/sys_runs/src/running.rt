ghost use Rattle.std.specs.Prelude.{◌≡◌, ◌≤◌, ◌*◌, ◌+◌, All, false, length, map, vec_len};
ghost use Rattle.sys_runs.specs.Besides.{MissesArePaid};
ghost use Rattle.sys_devices.specs.Rows.{FitsDrive};
ghost use Rattle.sys_guests.specs.Layout.{guests_in};
ghost use Rattle.sys_guests.specs.Loads.{MemoryAlone};
ghost use Rattle.sys_guests.specs.Present.{HavePresent};
ghost use Rattle.sys_objects.specs.Condition.{IsConfig};
ghost use Rattle.sys_runs.specs.Ran.{MakesFrom, Runs};
ghost use Rattle.sys_script.specs.Events.{AreEvents};
ghost use Rattle.sys_state.specs.FirstTouches.{none_touched};
ghost use Rattle.sys_state.specs.Run.{Moment};
ghost use Rattle.sys_system.specs.Powers.{IsAt};
ghost use Rattle.sys_system.specs.System.{IsInMachine, IsSystem};
ghost use Rattle.vax_hw.specs.Machine.{Machine};

use crate::rounds::make_rounds;
use std::alloc::Global;
use sys_devices::Device;
use sys_objects::Config;
use sys_script::Event;
use sys_system::{PowerFault, System};
use vax_hw::Hardware;
use vm_guest::Counts;
use vv_io::{Drive, Lines, Progress};

/// What is left of a run that was made: the steps by their kinds, and the first device that failed, if one did.
#[derive(Clone, Copy, Debug, PartialEq, Eq)]
pub struct Ran {
    pub counts: Counts,
    pub failed: Option<Device>,
}

/// Makes the next `rounds` rounds of a system, each with its own events, and brings power down: the dumps are shown, and the
/// volumes' blocks are stored.
pub fn finish<H: Hardware, P: Progress, L: Lines>(
    system: &mut System,
    events: &[Event],
    rounds: u32,
    machine: &mut H,
    lines: &mut L,
    drives: &mut Vec<Box<dyn Drive>>,
    progress: &mut P,
) -> Ran
    requires rests { system.old.turns.is_begun ≡ false }
    requires few { system.old.rounds + rounds ≤ 2000000 }
    requires ordered { AreEvents events.now }
    requires holds { IsSystem system.old }
    requires stands { IsInMachine (H.machine machine.old).memory system.old }
    requires present { HavePresent system.old.guests (map none_touched (guests_in (H.machine machine.old).memory system.old.guests)) }
    requires drives { vec_len drives.old ≡ 16 }
    requires fit { All (FitsDrive (map (λ d. kept d) drives.old.items)) system.old.config.volumes }
    ensures makes { (m : Moment) (before : Machine) → IsAt m (H.machine machine.old) system.old →
        MemoryAlone before (H.machine machine.old) → MakesFrom MissesArePaid m events.now rounds result
        (record {
          machine = before;
          machine' = H.machine machine.new;
          lines = L.lines lines.old;
          lines' = L.lines lines.new;
          drives = map (λ d. kept d) drives.old.items;
          drives' = map (λ d. kept d) drives.new.items;
        }) }
    ensures drives_len { vec_len drives.new ≡ vec_len drives.old }
{
    make_rounds(system, machine, lines, events, rounds, progress);
    system.power_down(machine, lines, drives);
    Ran {
        counts: system.counts(),
        failed: system.failed(),
    }
}

/// Brings power up in a machine of 32,768 pages, with an image for each guest and a drive for each volume. Makes `rounds` rounds,
/// the i-th with the events of round i. Then brings power down: the dumps are shown, and the volumes' blocks are stored. All
/// memory is taken before the first round. A line or a drive that fails is marked and gets no more, and the run goes on. After a
/// fault no line got a put, and no drive a set.
pub fn run<H: Hardware, P: Progress, L: Lines>(
    alloc: Global,
    config: Config,
    images: &[Vec<u8>],
    events: &[Event],
    rounds: u32,
    machine: &mut H,
    lines: &mut L,
    drives: &mut Vec<Box<dyn Drive>>,
    progress: &mut P,
) -> Result<Ran, PowerFault>
    requires accepted { IsConfig config }
    requires images { length images.now ≡ length config.guests }
    requires ordered { AreEvents events.now }
    requires few { rounds ≤ 1000000 }
    requires pages { length (H.machine machine.old).memory ≡ 512 * 32768 }
    requires drives { vec_len drives.old ≡ 16 }
    ensures runs { Runs MissesArePaid config (map (λ b. b.items) images.now) events.now rounds result
        (record {
          machine = H.machine machine.old;
          machine' = H.machine machine.new;
          lines = L.lines lines.old;
          lines' = L.lines lines.new;
          drives = map (λ d. kept d) drives.old.items;
          drives' = map (λ d. kept d) drives.new.items;
        }) }
    ensures drives_len { vec_len drives.new ≡ vec_len drives.old }
{
    let mut system = System::power_up(alloc, config, images, machine, drives)?;
    Ok(finish(
        &mut system,
        events,
        rounds,
        machine,
        lines,
        drives,
        progress,
    ))
}

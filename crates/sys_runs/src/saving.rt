ghost use Rattle.std.specs.Prelude.{◌≡◌, ◌≤◌, ◌*◌, ◌+◌, All, List, Ok, false, length, map, vec_len};
ghost use Rattle.sys_runs.specs.Besides.{MissesArePaid};
ghost use Rattle.sys_config.specs.Config.{config_of};
ghost use Rattle.sys_devices.specs.Rows.{FitsDrive};
ghost use Rattle.sys_guests.specs.Layout.{guests_in};
ghost use Rattle.sys_guests.specs.Loads.{MemoryAlone};
ghost use Rattle.sys_guests.specs.Present.{HavePresent};
ghost use Rattle.sys_moment_laws.specs.ConsistentState.{IsConsistentState};
ghost use Rattle.sys_objects.specs.Condition.{IsConfig};
ghost use Rattle.sys_runs.specs.Saved.{SavesFrom, SavesRun};
ghost use Rattle.sys_script.specs.Events.{AreEvents};
ghost use Rattle.sys_state.specs.FirstTouches.{none_touched};
ghost use Rattle.sys_state.specs.Run.{Moment};
ghost use Rattle.sys_system.specs.Powers.{IsAt};
ghost use Rattle.sys_system.specs.System.{IsInMachine, IsSystem};
ghost use Rattle.vax_hw.specs.Machine.{Machine};
ghost use Rattle.vv_io.specs.Blocks.{SeenDrive};

use crate::rounds::make_rounds;
use std::alloc::Global;
use sys_devices::Device;
use sys_objects::Config;
use sys_script::Event;
use sys_system::{PowerFault, System};
use vax_hw::Hardware;
use vv_io::{Drive, Lines, Progress, Sink};

/// What is left of a run whose last moment was shown: the first line that failed, if one did, and whether `out` failed.
#[derive(Clone, Copy, Debug, PartialEq, Eq)]
pub struct Saved {
    pub failed: Option<Device>,
    pub is_cut: bool,
}

/// Makes the next `rounds` rounds of a system, each with its own events, and shows on `out` what it is after them, as a snapshot
/// with the text of its configuration. No dump is shown.
pub fn keep<H: Hardware, O: Sink, P: Progress, L: Lines>(
    system: &mut System,
    text: &[u8],
    events: &[Event],
    rounds: u32,
    machine: &mut H,
    lines: &mut L,
    out: &mut O,
    progress: &mut P,
) -> Saved
    requires rests { system.old.turns.is_begun ≡ false }
    requires text { config_of text.now ≡ Ok system.old.config }
    requires short { length text.now ≤ 262144 }
    requires few { system.old.rounds + rounds ≤ 1000000 }
    requires ordered { AreEvents events.now }
    requires holds { IsSystem system.old }
    requires stands { IsInMachine (H.machine machine.old).memory system.old }
    requires present { HavePresent system.old.guests (map none_touched (guests_in (H.machine machine.old).memory system.old.guests)) }
    ensures { (m : Moment) (before : Machine) (drives : List SeenDrive) → IsAt m (H.machine machine.old) system.old →
        MemoryAlone before (H.machine machine.old) → IsConsistentState m.config m.state →
        All (FitsDrive drives) m.config.volumes → SavesFrom MissesArePaid m events.now rounds text.now result
        (record {
          machine = before;
          machine' = H.machine machine.new;
          lines = L.lines lines.old;
          lines' = L.lines lines.new;
          drives = drives;
          drives' = drives;
        }) (O.printed out.old) (O.printed out.new) }
{
    make_rounds(system, machine, lines, events, rounds, progress);
    let failed = system.failed();
    let is_cut = system.save(machine, text, out).is_err();
    Saved { failed, is_cut }
}

/// Brings power up as `run` does, and makes `rounds` rounds, the i-th with the events of round i. Then shows on `out` what the
/// system is, as a snapshot with the text of its configuration, of at most 262,144 bytes. No dump is shown, and no volume is
/// stored. All memory is taken before the first round. A line that fails is marked and gets no more, and the run goes on. After a
/// fault no line and no `out` got a put, and no drive a set.
pub fn save<H: Hardware, O: Sink, P: Progress, L: Lines>(
    alloc: Global,
    config: Config,
    text: &[u8],
    images: &[Vec<u8>],
    events: &[Event],
    rounds: u32,
    machine: &mut H,
    lines: &mut L,
    drives: &mut Vec<Box<dyn Drive>>,
    out: &mut O,
    progress: &mut P,
) -> Result<Saved, PowerFault>
    requires accepted { IsConfig config }
    requires text { config_of text.now ≡ Ok config }
    requires short { length text.now ≤ 262144 }
    requires images { length images.now ≡ length config.guests }
    requires ordered { AreEvents events.now }
    requires few { rounds ≤ 1000000 }
    requires pages { length (H.machine machine.old).memory ≡ 512 * 32768 }
    requires drives { vec_len drives.old ≡ 16 }
    ensures saves { SavesRun MissesArePaid config text.now (map (λ b. b.items) images.now) events.now rounds result
        (record {
          machine = H.machine machine.old;
          machine' = H.machine machine.new;
          lines = L.lines lines.old;
          lines' = L.lines lines.new;
          drives = map (λ d. kept d) drives.old.items;
          drives' = map (λ d. kept d) drives.new.items;
        }) (O.printed out.old) (O.printed out.new) }
    ensures drives_len { vec_len drives.new ≡ vec_len drives.old }
{
    let mut system = System::power_up(alloc, config, images, machine, drives)?;
    Ok(keep(
        &mut system,
        text,
        events,
        rounds,
        machine,
        lines,
        out,
        progress,
    ))
}

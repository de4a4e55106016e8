ghost use Rattle.std.specs.Prelude.{◌≡◌, ◌≤◌, ◌*◌, length, map, vec_len};
ghost use Rattle.sys_runs.specs.Besides.{MissesArePaid};
ghost use Rattle.sys_runs.specs.Saved.{ContinuesRun};
ghost use Rattle.sys_script.specs.Events.{AreEvents};
ghost use Rattle.sys_snap.specs.Held.{HoldsMoment, snapshot_moment};
ghost use Rattle.sys_snap.specs.Snap.{IsMoment};

use crate::running::{Ran, finish};
use std::alloc::Global;
use sys_script::Event;
use sys_snap::Snap;
use sys_system::{PowerFault, System};
use vax_hw::Hardware;
use vv_io::{Drive, Lines, Progress};

/// Goes on from a snapshot in a machine of 32,768 pages, with a drive for each volume: makes the next `rounds` rounds, each with
/// its own events, and brings power down as `run` does. The counts are those of these rounds. All memory is taken before the
/// first of them. After a fault no line got a put, and no drive a set.
pub fn resume<H: Hardware, P: Progress, L: Lines>(
    alloc: Global,
    snap: Snap,
    events: &[Event],
    rounds: u32,
    machine: &mut H,
    lines: &mut L,
    drives: &mut Vec<Box<dyn Drive>>,
    progress: &mut P,
) -> Result<Ran, PowerFault>
    requires held { HoldsMoment snap }
    requires moment { IsMoment (snapshot_moment snap) }
    requires ordered { AreEvents events.now }
    requires few { rounds ≤ 1000000 }
    requires pages { length (H.machine machine.old).memory ≡ 512 * 32768 }
    requires drives { vec_len drives.old ≡ 16 }
    ensures goes_on { ContinuesRun MissesArePaid (snapshot_moment snap) events.now rounds result
        (record {
          machine = H.machine machine.old;
          machine' = H.machine machine.new;
          lines = L.lines lines.old;
          lines' = L.lines lines.new;
          drives = map (λ d. kept d) drives.old.items;
          drives' = map (λ d. kept d) drives.new.items;
        }) }
    ensures drives_len { vec_len drives.new ≡ vec_len drives.old }
{
    let mut system = System::resume(alloc, snap, machine, drives)?;
    Ok(finish(
        &mut system,
        events,
        rounds,
        machine,
        lines,
        drives,
        progress,
    ))
}

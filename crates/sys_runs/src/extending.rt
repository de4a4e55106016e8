ghost use Rattle.std.specs.Prelude.{◌≡◌, ◌≤◌, ◌*◌, ◌+◌, Ok, length, map, vec_len};
ghost use Rattle.sys_runs.specs.Besides.{MissesArePaid};
ghost use Rattle.sys_config.specs.Config.{config_of};
ghost use Rattle.sys_runs.specs.Saved.{ExtendsRun};
ghost use Rattle.sys_script.specs.Events.{AreEvents};
ghost use Rattle.sys_snap.specs.Held.{HoldsMoment, snapshot_moment};
ghost use Rattle.sys_snap.specs.Snap.{IsMoment};

use crate::saving::{Saved, keep};
use std::alloc::Global;
use sys_script::Event;
use sys_snap::Snap;
use sys_system::{PowerFault, System};
use vax_hw::Hardware;
use vv_io::{Drive, Lines, Progress, Sink};

/// Goes on from a snapshot as `resume` does, and ends as `save` does: shows on `out` what the system is after the next `rounds`
/// rounds, as a snapshot with the same text. Of rounds since power-up there are at most 1,000,000. The drives are asked for their
/// sizes alone. After a fault no line and no `out` got a put.
pub fn extend<H: Hardware, O: Sink, P: Progress, L: Lines>(
    alloc: Global,
    snap: Snap,
    text: &[u8],
    events: &[Event],
    rounds: u32,
    machine: &mut H,
    lines: &mut L,
    drives: &Vec<Box<dyn Drive>>,
    out: &mut O,
    progress: &mut P,
) -> Result<Saved, PowerFault>
    requires held { HoldsMoment snap }
    requires moment { IsMoment (snapshot_moment snap) }
    requires text { config_of text.now ≡ Ok snap.config }
    requires short { length text.now ≤ 262144 }
    requires ordered { AreEvents events.now }
    requires few { snap.round + rounds ≤ 1000000 }
    requires pages { length (H.machine machine.old).memory ≡ 512 * 32768 }
    requires drives { vec_len drives.now ≡ 16 }
    ensures { ExtendsRun MissesArePaid (snapshot_moment snap) text.now events.now rounds result
        (record {
          machine = H.machine machine.old;
          machine' = H.machine machine.new;
          lines = L.lines lines.old;
          lines' = L.lines lines.new;
          drives = map (λ d. kept d) drives.now.items;
          drives' = map (λ d. kept d) drives.now.items;
        }) (O.printed out.old) (O.printed out.new) }
{
    let mut system = System::resume(alloc, snap, machine, drives)?;
    Ok(keep(
        &mut system,
        text,
        events,
        rounds,
        machine,
        lines,
        out,
        progress,
    ))
}

ghost use Rattle.std.specs.Prelude.{◌≡◌, ◌≤◌, ◌*◌, List, length, map};
ghost use Rattle.sys_runs.specs.Besides.{MissesArePaid};
ghost use Rattle.sys_objects.specs.Condition.{IsConfig};
ghost use Rattle.sys_runs.specs.Given.{RunsWith};
ghost use Rattle.sys_script.specs.Events.{AreEvents};
ghost use Rattle.vv_io.specs.Blocks.{SeenDrive};

use crate::rounds::make_rounds;
use crate::running::Ran;
use std::alloc::Global;
use sys_objects::Config;
use sys_script::Event;
use sys_system::{PowerFault, System};
use vax_hw::Hardware;
use vv_io::{Lines, Progress};

/// Makes a run as `run` does, over given blocks of the volumes, a list for each, in place of those of drives; at its end the
/// dumps are shown, and no volume is stored. A line that fails is marked and gets no more, and the run goes on. After a
/// fault, which is never of a drive, no line got a put.
pub fn run_with<H: Hardware, P: Progress, L: Lines>(
    alloc: Global,
    config: Config,
    images: &[Vec<u8>],
    volumes: &[Vec<[u8; 512]>],
    events: &[Event],
    rounds: u32,
    machine: &mut H,
    lines: &mut L,
    progress: &mut P,
) -> Result<Ran, PowerFault>
    requires accepted { IsConfig config }
    requires images { length images.now ≡ length config.guests }
    requires volumes { length volumes.now ≡ length config.volumes }
    requires ordered { AreEvents events.now }
    requires few { rounds ≤ 1000000 }
    requires pages { length (H.machine machine.old).memory ≡ 512 * 32768 }
    ensures { (drives : List SeenDrive) → RunsWith MissesArePaid config (map (λ b. b.items) images.now)
        (map (λ b. b.items) volumes.now) events.now rounds result
        (record {
          machine = H.machine machine.old;
          machine' = H.machine machine.new;
          lines = L.lines lines.old;
          lines' = L.lines lines.new;
          drives = drives;
          drives' = drives;
        }) }
{
    let mut system = System::power_up_with(alloc, config, images, machine, volumes)?;
    make_rounds(&mut system, machine, lines, events, rounds, progress);
    system.show_dumps(machine, lines);
    Ok(Ran {
        counts: system.counts(),
        failed: system.failed(),
    })
}

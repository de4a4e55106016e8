ghost use Rattle.std.specs.Prelude.{◌≡◌, ◌*◌, List, length};
ghost use Rattle.sys_runs.specs.Besides.{MissesArePaid};
ghost use Rattle.vv_io.specs.Blocks.{SeenDrive};
ghost use Rattle.vvmm_call.specs.Answer.{FollowsLoad};

use crate::playing::answer;
use std::alloc::Global;
use sys_runs::run_with;
use vax_hw::Hardware;
use vv_gen::workload;
use vv_io::{Lines, Progress, Sink};
use vvmm_files::Status;

/// `load`: makes the run of the workload that is drawn from a number, over its own volumes, and puts its summary. Drives stay as
/// they are.
pub fn load<H: Hardware, O: Sink, P: Progress, L: Lines>(
    alloc: Global,
    number: u32,
    machine: &mut H,
    lines: &mut L,
    out: &mut O,
    progress: &mut P,
) -> Status
    requires { length (H.machine machine.old).memory ≡ 512 * 32768 }
    ensures { (drives : List SeenDrive) → FollowsLoad MissesArePaid number result (record { machine = H.machine machine.old; machine' = H.machine machine.new; lines = L.lines lines.old; lines' = L.lines lines.new; drives = drives; drives' = drives }) (O.printed out.old) (O.printed out.new) }
{
    let Ok(work) = workload(alloc, number) else {
        return Status::NoMemory;
    };
    let rounds = work.rounds;
    let ran = run_with(
        alloc,
        work.config,
        work.images.as_slice(),
        work.volumes.as_slice(),
        work.events.as_slice(),
        rounds,
        machine,
        lines,
        progress,
    );
    answer(rounds, ran, out)
}

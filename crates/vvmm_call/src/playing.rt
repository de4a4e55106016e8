ghost use Rattle.std.specs.Prelude.{◌≡◌, ◌≤◌, ◌*◌, length, map, vec_len, IfOk};
ghost use Rattle.sys_runs.specs.Besides.{MissesArePaid};
ghost use Rattle.vm_stepping.specs.Made.{steps_in};
ghost use Rattle.sys_objects.specs.Condition.{IsConfig};
ghost use Rattle.sys_script.specs.Events.{AreEvents};
ghost use Rattle.vvmm_call.specs.Answer.{AnswersRun, EndsWithPut, PlaysConfiguration, status_when_done};

use crate::report::summary;
use crate::stop::power_status;
use std::alloc::Global;
use sys_devices::{Device, put_once};
use sys_runs::{Ran, run};
use sys_system::PowerFault;
use vax_hw::Hardware;
use vv_io::{Drive, Lines, Progress, Sink};
use vvmm_files::{Inputs, Status};

/// The answer where all was done.
pub fn done_status(failed: Option<Device>, is_cut: bool) -> Status
    ensures { result ≡ status_when_done failed is_cut }
{
    match failed {
        Some(device) => Status::DeviceFault(device),
        None if is_cut => Status::OutFault,
        None => Status::Done,
    }
}

/// Puts bytes when all was done, and answers.
pub fn close<O: Sink>(failed: Option<Device>, bytes: &[u8], out: &mut O) -> Status
    ensures { EndsWithPut failed bytes.now result (O.printed out.old) (O.printed out.new) }
{
    let is_cut = put_once(out, bytes).is_err();
    done_status(failed, is_cut)
}

/// Puts the summary of a run, if it was made, and answers.
pub fn answer<O: Sink>(rounds: u32, ran: Result<Ran, PowerFault>, out: &mut O) -> Status
    requires { IfOk ran (λ r. steps_in r.counts ≤ 3200000000000) }
    ensures { AnswersRun rounds ran result (O.printed out.old) (O.printed out.new) }
{
    match ran {
        Ok(ran) => close(ran.failed, summary(rounds, &ran.counts).bytes(), out),
        Err(fault) => power_status(fault),
    }
}

/// Makes a run, puts its summary, and answers.
pub fn play<H: Hardware, O: Sink, P: Progress, L: Lines>(
    alloc: Global,
    inputs: Inputs,
    rounds: u32,
    machine: &mut H,
    lines: &mut L,
    drives: &mut Vec<Box<dyn Drive>>,
    out: &mut O,
    progress: &mut P,
) -> Status
    requires accepted { IsConfig inputs.config }
    requires ordered { AreEvents inputs.events.items }
    requires images { length inputs.images.items ≡ length inputs.config.guests }
    requires few { rounds ≤ 1000000 }
    requires pages { length (H.machine machine.old).memory ≡ 512 * 32768 }
    requires drives { vec_len drives.old ≡ 16 }
    ensures { PlaysConfiguration MissesArePaid inputs.config (map (λ b. b.items) inputs.images.items) inputs.events.items rounds result (record { machine = H.machine machine.old; machine' = H.machine machine.new; lines = L.lines lines.old; lines' = L.lines lines.new; drives = map (λ d. kept d) drives.old.items; drives' = map (λ d. kept d) drives.new.items }) (O.printed out.old) (O.printed out.new) }
{
    let ran = run(
        alloc,
        inputs.config,
        inputs.images.as_slice(),
        inputs.events.as_slice(),
        rounds,
        machine,
        lines,
        drives,
        progress,
    );
    answer(rounds, ran, out)
}

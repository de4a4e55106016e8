ghost use Rattle.std.specs.Prelude.{◌≡◌, ◌≤◌, ◌*◌, length, map, vec_len};
ghost use Rattle.sys_runs.specs.Besides.{MissesArePaid};
ghost use Rattle.vvmm_call.specs.Answer.{AnswersSave, FollowsExtend, FollowsResume, FollowsSave};

use crate::playing::{answer, done_status};
use crate::stop::{fault_status, power_status};
use std::alloc::Global;
use sys_runs::Saved;
use sys_system::PowerFault;
use vax_hw::Hardware;
use vv_io::{Drive, Lines, Progress, Shelf, Sink};
use vvmm_files::{ResumeOrder, RunOrder, Status, fetch_to_extend, fetch_to_resume, fetch_to_save};

/// The answer of a run that was to be saved.
fn saved_status(saved: Result<Saved, PowerFault>) -> Status
    ensures { AnswersSave saved result }
{
    match saved {
        Ok(saved) => done_status(saved.failed, saved.is_cut),
        Err(fault) => power_status(fault),
    }
}

/// `save`: fetches the configuration, the script and the images, makes the rounds, and shows what the system is after them
/// as a snapshot. The drives stay as they are.
pub fn save<H: Hardware, S: Shelf, O: Sink, P: Progress, L: Lines>(
    alloc: Global,
    order: RunOrder,
    shelf: &mut S,
    machine: &mut H,
    lines: &mut L,
    drives: &mut Vec<Box<dyn Drive>>,
    out: &mut O,
    progress: &mut P,
) -> Status
    requires pages { length (H.machine machine.old).memory ≡ 512 * 32768 }
    requires drives { vec_len drives.old ≡ 16 }
    requires few { order.rounds ≤ 1000000 }
    ensures { FollowsSave MissesArePaid (record { config = order.config; script = order.script; rounds = order.rounds }) result (record { files = S.files shelf.old; shelf = S.faults shelf.old; shelf' = S.faults shelf.new; machine = H.machine machine.old; machine' = H.machine machine.new; lines = L.lines lines.old; lines' = L.lines lines.new; drives = map (λ d. kept d) drives.old.items; drives' = map (λ d. kept d) drives.new.items; out = O.printed out.old; out' = O.printed out.new }) }
{
    let to_save = match fetch_to_save(alloc, shelf, &order) {
        Ok(to_save) => to_save,
        Err(stop) => return fault_status(stop),
    };
    let inputs = to_save.inputs;
    let saved = sys_runs::save(
        alloc,
        inputs.config,
        to_save.text.as_slice(),
        inputs.images.as_slice(),
        inputs.events.as_slice(),
        order.rounds,
        machine,
        lines,
        drives,
        out,
        progress,
    );
    saved_status(saved)
}

/// `resume`: fetches a snapshot and the script, goes on with the rounds from there, and puts their summary as `run` does.
pub fn resume<H: Hardware, S: Shelf, O: Sink, P: Progress, L: Lines>(
    alloc: Global,
    order: ResumeOrder,
    shelf: &mut S,
    machine: &mut H,
    lines: &mut L,
    drives: &mut Vec<Box<dyn Drive>>,
    out: &mut O,
    progress: &mut P,
) -> Status
    requires pages { length (H.machine machine.old).memory ≡ 512 * 32768 }
    requires drives { vec_len drives.old ≡ 16 }
    requires few { order.rounds ≤ 1000000 }
    ensures { FollowsResume MissesArePaid (record { snap = order.snap; script = order.script; rounds = order.rounds }) result (record { files = S.files shelf.old; shelf = S.faults shelf.old; shelf' = S.faults shelf.new; machine = H.machine machine.old; machine' = H.machine machine.new; lines = L.lines lines.old; lines' = L.lines lines.new; drives = map (λ d. kept d) drives.old.items; drives' = map (λ d. kept d) drives.new.items; out = O.printed out.old; out' = O.printed out.new }) }
{
    let inputs = match fetch_to_resume(alloc, shelf, &order) {
        Ok(inputs) => inputs,
        Err(stop) => return fault_status(stop),
    };
    let ran = sys_runs::resume(
        alloc,
        inputs.snap,
        inputs.events.as_slice(),
        order.rounds,
        machine,
        lines,
        drives,
        progress,
    );
    answer(order.rounds, ran, out)
}

/// `extend`: fetches what `resume` does, makes the rounds from the snapshot on, and shows what the system is after them as `save`
/// does. The drives stay as they are.
pub fn extend<H: Hardware, S: Shelf, O: Sink, P: Progress, L: Lines>(
    alloc: Global,
    order: ResumeOrder,
    shelf: &mut S,
    machine: &mut H,
    lines: &mut L,
    drives: &Vec<Box<dyn Drive>>,
    out: &mut O,
    progress: &mut P,
) -> Status
    requires pages { length (H.machine machine.old).memory ≡ 512 * 32768 }
    requires drives { vec_len drives.now ≡ 16 }
    ensures { FollowsExtend MissesArePaid (record { snap = order.snap; script = order.script; rounds = order.rounds }) result (record { files = S.files shelf.old; shelf = S.faults shelf.old; shelf' = S.faults shelf.new; machine = H.machine machine.old; machine' = H.machine machine.new; lines = L.lines lines.old; lines' = L.lines lines.new; drives = map (λ d. kept d) drives.now.items; drives' = map (λ d. kept d) drives.now.items; out = O.printed out.old; out' = O.printed out.new }) }
{
    let inputs = match fetch_to_extend(alloc, shelf, &order) {
        Ok(inputs) => inputs,
        Err(stop) => return fault_status(stop),
    };
    let saved = sys_runs::extend(
        alloc,
        inputs.snap,
        inputs.text.as_slice(),
        inputs.events.as_slice(),
        order.rounds,
        machine,
        lines,
        drives,
        out,
        progress,
    );
    saved_status(saved)
}

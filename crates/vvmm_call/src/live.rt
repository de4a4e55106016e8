ghost use Rattle.std.specs.Prelude.{◌≡◌, ◌≤◌, ◌*◌, IfOk, length, map, vec_len};
ghost use Rattle.sys_runs.specs.Besides.{MissesArePaid};
ghost use Rattle.vm_stepping.specs.Made.{steps_in};
ghost use Rattle.vvmm_call.specs.Answer.{AnswersLive, FollowsLive, live_status};

use crate::report::summary;
use crate::stop::{fault_status, power_status};
use std::alloc::Global;
use sys_devices::{Device, put_once};
use sys_live::{Lived, Typing};
use sys_system::PowerFault;
use vax_hw::Hardware;
use vv_io::{Drive, Keyboard, Lines, Shelf, Sink};
use vvmm_files::{LiveOrder, Status, fetch_to_live};

/// The answer where all was done.
fn live_status(failed: Option<Device>, is_cut: bool, typing: Typing) -> Status
    ensures { result ≡ live_status failed is_cut typing }
{
    match (failed, typing) {
        (Some(device), _) => Status::DeviceFault(device),
        (None, _) if is_cut => Status::OutFault,
        (None, Typing::Broken) => Status::KeyFault,
        (None, Typing::Lost) => Status::NoMemory,
        (None, _) => Status::Done,
    }
}

/// Puts the summary of a run that was typed, if it was made and nothing was cut before, and answers.
fn lived_status<O: Sink>(lived: Result<Lived, PowerFault>, out: &mut O) -> Status
    requires { IfOk lived (λ l. steps_in l.ran.counts ≤ 3200000000000) }
    ensures { AnswersLive lived result (O.printed out.old) (O.printed out.new) }
{
    let lived = match lived {
        Ok(lived) => lived,
        Err(fault) => return power_status(fault),
    };
    let summary = summary(lived.rounds, &lived.ran.counts);
    let is_cut = lived.is_cut || put_once(out, summary.bytes()).is_err();
    live_status(lived.ran.failed, is_cut, lived.typing)
}

/// `live`: fetches the configuration and the images, makes rounds as their lines are typed, and shows each one's terminals on
/// `out`; then its summary.
pub fn live<H: Hardware, S: Shelf, O: Sink, K: Keyboard<O>, E: Sink, L: Lines>(
    alloc: Global,
    order: LiveOrder,
    shelf: &mut S,
    machine: &mut H,
    lines: &mut L,
    drives: &mut Vec<Box<dyn Drive>>,
    out: &mut O,
    keyboard: &mut K,
    errors: &mut E,
) -> Status
    requires pages { length (H.machine machine.old).memory ≡ 512 * 32768 }
    requires drives { vec_len drives.old ≡ 16 }
    requires some { 1 ≤ order.rounds }
    requires few { order.rounds ≤ 1000000 }
    ensures { FollowsLive MissesArePaid (record { config = order.config; rounds = order.rounds }) result (record { files = S.files shelf.old; shelf = S.faults shelf.old; shelf' = S.faults shelf.new; machine = H.machine machine.old; machine' = H.machine machine.new; lines = L.lines lines.old; lines' = L.lines lines.new; drives = map (λ d. kept d) drives.old.items; drives' = map (λ d. kept d) drives.new.items; out = O.printed out.old; out' = O.printed out.new }) (record { keys = K.keys keyboard.old; keys' = K.keys keyboard.new; errors = E.printed errors.old; errors' = E.printed errors.new }) }
{
    let inputs = match fetch_to_live(alloc, shelf, &order) {
        Ok(inputs) => inputs,
        Err(stop) => return fault_status(stop),
    };
    let lived = sys_live::live(
        alloc,
        inputs.config,
        inputs.images.as_slice(),
        order.rounds,
        machine,
        lines,
        drives,
        keyboard,
        errors,
        out,
    );
    lived_status(lived, out)
}

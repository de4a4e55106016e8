ghost use Rattle.std.specs.Prelude.{◌≡◌, ◌≤◌, ◌*◌, ◌++◌, List, ℕ, length, map, true, vec_len};
ghost use Rattle.sys_runs.specs.Besides.{MissesArePaid};
ghost use Rattle.sys_devices.specs.ShownSince.{ShownSince};
ghost use Rattle.vm_stepping.specs.Made.{steps_in, tally_of};
ghost use Rattle.vv_base.specs.Names.{is_file_name};
ghost use Rattle.vv_io.specs.Lines.{Seen};
ghost use Rattle.vvmm_call.specs.Answer.{EndsWithPut, FollowsTrace};
ghost use Rattle.vvmm_call.specs.Summary.{summary};

use crate::playing::{close, done_status};
use crate::report::summary;
use crate::stop::{fault_status, power_status};
use std::alloc::Global;
use sys_trace::Traced;
use vax_hw::Hardware;
use vv_io::{Drive, Lines, Shelf, Sink};
use vvmm_files::{Order, Status, solo_inputs};

/// Puts the summary of a run whose trace was put whole, and answers.
fn close_trace<O: Sink>(traced: &Traced, out: &mut O) -> Status
    requires { steps_in traced.now.ran.counts ≤ 3200000000000 }
    ensures { (start : Seen) (trace : List ℕ) → ShownSince traced.now.is_cut start (O.printed out.old) trace → EndsWithPut traced.now.ran.failed (trace ++ summary 1 (tally_of traced.now.ran.counts)) result start (O.printed out.new) }
{
    if traced.is_cut {
        return done_status(traced.ran.failed, true);
    }
    close(
        traced.ran.failed,
        summary(1, &traced.ran.counts).bytes(),
        out,
    )
}

/// `trace`: fetches the image, makes its run, shows the line of each step, and puts the summary as `solo` does.
pub fn trace<H: Hardware, S: Shelf, O: Sink, L: Lines>(
    alloc: Global,
    order: Order,
    shelf: &mut S,
    machine: &mut H,
    lines: &mut L,
    drives: &mut Vec<Box<dyn Drive>>,
    out: &mut O,
) -> Status
    requires pages { length (H.machine machine.old).memory ≡ 512 * 32768 }
    requires drives { vec_len drives.old ≡ 16 }
    requires named { is_file_name order.image ≡ true }
    requires some { 1 ≤ order.steps }
    requires few { order.steps ≤ 100000 }
    ensures { FollowsTrace MissesArePaid (record { image = order.image; steps = order.steps }) result (record { files = S.files shelf.old; shelf = S.faults shelf.old; shelf' = S.faults shelf.new; machine = H.machine machine.old; machine' = H.machine machine.new; lines = L.lines lines.old; lines' = L.lines lines.new; drives = map (λ d. kept d) drives.old.items; drives' = map (λ d. kept d) drives.new.items; out = O.printed out.old; out' = O.printed out.new }) }
{
    let inputs = match solo_inputs(alloc, order, shelf) {
        Ok(inputs) => inputs,
        Err(stop) => return fault_status(stop),
    };
    let traced = sys_trace::trace(
        alloc,
        inputs.config,
        inputs.images.as_slice(),
        machine,
        lines,
        drives,
        out,
    );
    match traced {
        Ok(traced) => close_trace(&traced, out),
        Err(fault) => power_status(fault),
    }
}

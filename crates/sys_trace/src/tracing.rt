ghost use Rattle.std.specs.Prelude.{◌≡◌, ◌≤◌, ◌*◌, ◌++◌, List, ℕ, IfSome, Some, [], ◌∷◌, length, map, slice_get, vec_len};
ghost use Rattle.sys_runs.specs.Besides.{MissesArePaid};
ghost use Rattle.sys_guests.specs.Layout.{guests_in};
ghost use Rattle.sys_guests.specs.Present.{PaysAll};
ghost use Rattle.sys_devices.specs.ShownSince.{ShownSince};
ghost use Rattle.sys_objects.specs.Condition.{IsConfig};
ghost use Rattle.sys_objects.specs.declared.records.GuestRow.{GuestRow};
ghost use Rattle.sys_state.specs.SlicedTouches.{touches_of_slice};
ghost use Rattle.sys_system.specs.Calls.{CanTake, Plays, TakesSlice};
ghost use Rattle.sys_system.specs.System.{IsInMachine, IsSystem};
ghost use Rattle.sys_trace.specs.Trace.{trace_of};
ghost use Rattle.sys_trace.specs.TraceLine.{trace_line};
ghost use Rattle.sys_trace.specs.Traced.{HasOne, TracesRun, single_steps};
ghost use Rattle.vm_state.specs.State.{Guest};
ghost use Rattle.vm_state.specs.Step.{step};
ghost use Rattle.vv_io.specs.Lines.{Seen};

use crate::before::Before;
use crate::step_line::step_line;
use crate::words::StepLine;
use std::alloc::Global;
use sys_objects::{Config, GuestRow};
use sys_runs::Ran;
use sys_system::{PowerFault, System};
use vax_hw::Hardware;
use vv_io::{Drive, Lines, Sink};

/// What is left of a run whose steps were shown: that of the run, and whether `out` failed.
#[derive(Clone, Copy, Debug, PartialEq, Eq)]
pub struct Traced {
    pub ran: Ran,
    pub is_cut: bool,
}

/// Shows bytes after those before, if `out` took all of these. Answers whether it failed, now or before.
fn put_next<O: Sink>(out: &mut O, is_cut: bool, bytes: &[u8]) -> bool
    ensures { (start : Seen) (before : List ℕ) → ShownSince is_cut start (O.printed out.old) before → ShownSince result start (O.printed out.new) (before ++ bytes.now) }
{
    if is_cut {
        return true;
    }
    out.put(bytes).is_err()
}

/// The steps of the turn of the first guest.
fn first_quantum(rows: &[GuestRow]) -> u32
    requires { 1 ≤ length rows.now }
    ensures { IfSome (slice_get rows.now 0) (λ row. result ≡ row.quantum) }
{
    rows[0].quantum
}

/// The first guest takes a step of its turn; the line of that step, which has this number.
fn trace_step<H: Hardware, L: Lines>(
    system: &mut System,
    machine: &mut H,
    lines: &mut L,
    number: u32,
) -> StepLine
    requires number { number ≤ 100000 }
    requires can { CanTake system.old (record { guest = 0; steps = 1 }) }
    requires stands { IsInMachine (H.machine machine.old).memory system.old }
    ensures takes { TakesSlice (record { guest = 0; steps = 1 }) (H.machine machine.old) system.old (L.lines lines.old) (H.machine machine.new) system.new (L.lines lines.new) }
    ensures pays { PaysAll (touches_of_slice (record { guest = 0; steps = 1 }) (guests_in (H.machine machine.old).memory system.old.guests)) (H.machine machine.old) system.old.guests (H.machine machine.new) system.new.guests }
    ensures line { (g : Guest) → slice_get (guests_in (H.machine machine.old).memory system.old.guests) 0 ≡ Some g → result ≡ trace_line number g (step g) }
    ensures holds { IsSystem system.new }
{
    let before = Before::of(machine, system.guest(0));
    let watched = system.step(machine, lines, 0);
    step_line(number, &before, &watched, system.guest(0).state())
}

/// The first guest takes `steps` steps of its turn, and the line of each is shown on `out`, up to the first fault. It takes no
/// memory. Answers whether `out` failed.
fn trace_turn<H: Hardware, O: Sink, L: Lines>(
    system: &mut System,
    machine: &mut H,
    lines: &mut L,
    steps: u32,
    out: &mut O,
) -> bool
    requires few { steps ≤ 100000 }
    requires can { CanTake system.old (record { guest = 0; steps = steps }) }
    requires holds { IsSystem system.old }
    requires stands { IsInMachine (H.machine machine.old).memory system.old }
    ensures plays { Plays (single_steps steps) (H.machine machine.old) system.old (L.lines lines.old) (H.machine machine.new) system.new (L.lines lines.new) }
    ensures shown { (g : Guest) → slice_get (guests_in (H.machine machine.old).memory system.old.guests) 0 ≡ Some g → ShownSince result (O.printed out.old) (O.printed out.new) (trace_of steps g) }
    ensures holds { IsSystem system.new }
{
    let mut is_cut = false;
    for made in 0..steps {
        let line = trace_step(system, machine, lines, made + 1);
        is_cut = put_next(out, is_cut, line.bytes());
    }
    is_cut
}

/// Makes the run of one round of a configuration of one guest without volumes, as `sys_runs::run` does, a step at a time, and
/// shows the line of each step on `out`. All memory is taken before the first step. A line or an `out` that fails gets no more,
/// and the run goes on. After a fault no line and no `out` got a put.
pub fn trace<H: Hardware, O: Sink, L: Lines>(
    alloc: Global,
    config: Config,
    images: &[Vec<u8>],
    machine: &mut H,
    lines: &mut L,
    drives: &mut Vec<Box<dyn Drive>>,
    out: &mut O,
) -> Result<Traced, PowerFault>
    requires accepted { IsConfig config }
    requires one { length config.guests ≡ 1 }
    requires volumes { config.volumes ≡ [] }
    requires images { length images.now ≡ 1 }
    requires pages { length (H.machine machine.old).memory ≡ 512 * 32768 }
    requires drives { vec_len drives.old ≡ 16 }
    ensures traces { (row : GuestRow) (image : List ℕ) → HasOne config row → map (λ b. b.items) images.now ≡ image ∷ [] → TracesRun MissesArePaid config row image result (record { machine = H.machine machine.old; machine' = H.machine machine.new; lines = L.lines lines.old; lines' = L.lines lines.new; drives = map (λ d. kept d) drives.old.items; drives' = map (λ d. kept d) drives.new.items }) (O.printed out.old) (O.printed out.new) }
    ensures drives_len { vec_len drives.new ≡ vec_len drives.old }
{
    let steps = first_quantum(config.guests.as_slice());
    let mut system = System::power_up(alloc, config, images, machine, drives)?;
    system.begin_round(machine, lines, &[]);
    let is_cut = trace_turn(&mut system, machine, lines, steps, out);
    system.end_round(machine, lines);
    system.power_down(machine, lines, drives);
    let ran = Ran {
        counts: system.counts(),
        failed: system.failed(),
    };
    Ok(Traced { ran, is_cut })
}

ghost use Rattle.std.specs.Prelude.{◌≡◌, ◌*◌, length, map, string_bytes, vec_len};
ghost use Rattle.sys_runs.specs.Besides.{MissesArePaid, NothingMore};
ghost use Rattle.sys_system.specs.Devices.{device_of};
ghost use Rattle.vvmm_call.specs.Serves.{ServesCall, lower, synced_status};
ghost use Rattle.vvmm_files.specs.Words.{wanted};

use crate::top::vvmm_run;
use std::alloc::Global;
use sys_devices::{Device, sync_drives, sync_lines};
use vax_hw::Hardware;
use vv_io::{Drive, Keyboard, Lines, Progress, Shelf, Sink};
use vvmm_files::Status;

/// A line, or else a drive.
fn device_of(line: Option<u8>, drive: Option<u8>) -> Option<Device>
    ensures { result ≡ device_of line drive }
{
    match line {
        Some(line) => Some(Device::Line(line)),
        None => match drive {
            Some(drive) => Some(Device::Drive(drive)),
            None => None,
        },
    }
}

/// Which of two devices that failed is answered: a line before a drive, and the lowest number.
fn lower(a: Device, b: Device) -> Device
    ensures { result ≡ lower a b }
{
    match (a, b) {
        (Device::Line(a), Device::Line(b)) => Device::Line(a.min(b)),
        (Device::Line(a), Device::Drive(_)) => Device::Line(a),
        (Device::Drive(_), Device::Line(b)) => Device::Line(b),
        (Device::Drive(a), Device::Drive(b)) => Device::Drive(a.min(b)),
    }
}

/// The answer after the sync, in which a device failed or none did.
fn synced_status(answer: Status, failed: Option<Device>) -> Status
    ensures { result ≡ synced_status answer failed }
{
    match (answer, failed) {
        (Status::Done, Some(device)) => Status::DeviceFault(device),
        (Status::OutFault, Some(device)) => Status::DeviceFault(device),
        (Status::KeyFault, Some(device)) => Status::DeviceFault(device),
        (Status::DeviceFault(first), Some(device)) => Status::DeviceFault(lower(first, device)),
        (answer, _) => answer,
    }
}

/// Does what the words say, and then syncs all lines and drives; a device that fails in that is answered as one that failed.
pub fn serve<H: Hardware, S: Shelf, O: Sink, K: Keyboard<O>, E: Sink, P: Progress, L: Lines>(
    alloc: Global,
    words: &[String],
    shelf: &mut S,
    machine: &mut H,
    lines: &mut L,
    drives: &mut Vec<Box<dyn Drive>>,
    out: &mut O,
    keyboard: &mut K,
    errors: &mut E,
    progress: &mut P,
) -> Status
    requires pages { length (H.machine machine.old).memory ≡ 512 * 32768 }
    requires drives { vec_len drives.old ≡ 16 }
    ensures says { ServesCall NothingMore (wanted (map (λ w. string_bytes w) words.now)) result (record { files = S.files shelf.old; shelf = S.faults shelf.old; shelf' = S.faults shelf.new; machine = H.machine machine.old; machine' = H.machine machine.new; lines = L.lines lines.old; lines' = L.lines lines.new; drives = map (λ d. kept d) drives.old.items; drives' = map (λ d. kept d) drives.new.items; out = O.printed out.old; out' = O.printed out.new }) (record { keys = K.keys keyboard.old; keys' = K.keys keyboard.new; errors = E.printed errors.old; errors' = E.printed errors.new }) }
    ensures pays { ServesCall MissesArePaid (wanted (map (λ w. string_bytes w) words.now)) result (record { files = S.files shelf.old; shelf = S.faults shelf.old; shelf' = S.faults shelf.new; machine = H.machine machine.old; machine' = H.machine machine.new; lines = L.lines lines.old; lines' = L.lines lines.new; drives = map (λ d. kept d) drives.old.items; drives' = map (λ d. kept d) drives.new.items; out = O.printed out.old; out' = O.printed out.new }) (record { keys = K.keys keyboard.old; keys' = K.keys keyboard.new; errors = E.printed errors.old; errors' = E.printed errors.new }) }
{
    let answer = vvmm_run(
        alloc, words, shelf, machine, lines, drives, out, keyboard, errors, progress,
    );
    let line = sync_lines(lines);
    let drive = sync_drives(drives);
    synced_status(answer, device_of(line, drive))
}

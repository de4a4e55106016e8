ghost use Rattle.std.specs.Prelude.{◌≡◌, ◌≤◌, ◌*◌, map, string_bytes, length, true, vec_len};
ghost use Rattle.sys_runs.specs.Besides.{MissesArePaid, NothingMore};
ghost use Rattle.sys_flow.specs.Report.{IsReport};
ghost use Rattle.vv_base.specs.Names.{is_file_name};
ghost use Rattle.vvmm_call.specs.Answer.{AreCounts, FollowsAudit, FollowsConfig, FollowsRun, FollowsSolo, IsDrawing, IsMigrated, Says, status_of};
ghost use Rattle.vvmm_files.specs.Words.{wanted};

use crate::live::live;
use crate::loading::load;
use crate::playing::{close, play};
use crate::report::check_line;
use crate::snaps::{extend, resume, save};
use crate::stop::fault_status;
use crate::traces::trace;
use std::alloc::Global;
use sys_audit_check::check_audit;
use sys_config::migrate_text;
use sys_flow::{drawing, report};
use vax_hw::Hardware;
use vv_base::{FileName, NoMemory};
use vv_io::{Drive, Keyboard, Lines, NoProgress, Progress, Shelf, Sink};
use vvmm_files::{
    Answer, AuditOrder, Order, Request, RunOrder, Status, asm, dis, fetch_audit, fetch_config,
    fetch_run, list, parse, solo_inputs,
};

/// `solo`: fetches the image, makes its run and puts its summary.
fn solo<H: Hardware, S: Shelf, O: Sink, L: Lines>(
    alloc: Global,
    order: Order,
    shelf: &mut S,
    machine: &mut H,
    lines: &mut L,
    drives: &mut Vec<Box<dyn Drive>>,
    out: &mut O,
) -> Status
    requires pages { length (H.machine machine.old).memory ≡ 512 * 32768 }
    requires drives { vec_len drives.old ≡ 16 }
    requires named { is_file_name order.image ≡ true }
    requires some { 1 ≤ order.steps }
    requires few { order.steps ≤ 100000 }
    ensures { FollowsSolo MissesArePaid (record { image = order.image; steps = order.steps }) result (record { files = S.files shelf.old; shelf = S.faults shelf.old; shelf' = S.faults shelf.new; machine = H.machine machine.old; machine' = H.machine machine.new; lines = L.lines lines.old; lines' = L.lines lines.new; drives = map (λ d. kept d) drives.old.items; drives' = map (λ d. kept d) drives.new.items; out = O.printed out.old; out' = O.printed out.new }) }
{
    match solo_inputs(alloc, order, shelf) {
        Ok(inputs) => play(
            alloc,
            inputs,
            1,
            machine,
            lines,
            drives,
            out,
            &mut NoProgress,
        ),
        Err(stop) => fault_status(stop),
    }
}

/// `run`: fetches the configuration, the script and the images, makes their run and puts its summary.
fn run<H: Hardware, S: Shelf, O: Sink, P: Progress, L: Lines>(
    alloc: Global,
    order: RunOrder,
    shelf: &mut S,
    machine: &mut H,
    lines: &mut L,
    drives: &mut Vec<Box<dyn Drive>>,
    out: &mut O,
    progress: &mut P,
) -> Status
    requires pages { length (H.machine machine.old).memory ≡ 512 * 32768 }
    requires drives { vec_len drives.old ≡ 16 }
    requires few { order.rounds ≤ 1000000 }
    ensures { FollowsRun MissesArePaid (record { config = order.config; script = order.script; rounds = order.rounds }) result (record { files = S.files shelf.old; shelf = S.faults shelf.old; shelf' = S.faults shelf.new; machine = H.machine machine.old; machine' = H.machine machine.new; lines = L.lines lines.old; lines' = L.lines lines.new; drives = map (λ d. kept d) drives.old.items; drives' = map (λ d. kept d) drives.new.items; out = O.printed out.old; out' = O.printed out.new }) }
{
    match fetch_run(alloc, shelf, &order) {
        Ok(inputs) => play(
            alloc,
            inputs,
            order.rounds,
            machine,
            lines,
            drives,
            out,
            progress,
        ),
        Err(stop) => fault_status(stop),
    }
}

/// `check`: shows how many terminals, volumes, printers and guests a configuration has.
fn check<S: Shelf, O: Sink>(alloc: Global, name: &FileName, shelf: &mut S, out: &mut O) -> Status
    ensures { FollowsConfig AreCounts name.now result (record { files = S.files shelf.old; shelf = S.faults shelf.old; shelf' = S.faults shelf.new; out = O.printed out.old; out' = O.printed out.new }) }
{
    match fetch_config(alloc, shelf, name) {
        Ok(config) => close(None, check_line(&config).bytes(), out),
        Err(stop) => fault_status(stop),
    }
}

/// `migrate`: shows a text of version 2 that stands for the same configuration.
fn migrate<S: Shelf, O: Sink>(alloc: Global, name: &FileName, shelf: &mut S, out: &mut O) -> Status
    ensures { FollowsConfig IsMigrated name.now result (record { files = S.files shelf.old; shelf = S.faults shelf.old; shelf' = S.faults shelf.new; out = O.printed out.old; out' = O.printed out.new }) }
{
    let config = match fetch_config(alloc, shelf, name) {
        Ok(config) => config,
        Err(stop) => return fault_status(stop),
    };
    match migrate_text(alloc, &config) {
        Ok(text) => close(None, text.as_slice(), out),
        Err(NoMemory) => Status::NoMemory,
    }
}

/// `flow`: shows which object's inputs may reach which object.
fn flow<S: Shelf, O: Sink>(alloc: Global, name: &FileName, shelf: &mut S, out: &mut O) -> Status
    ensures { FollowsConfig IsReport name.now result (record { files = S.files shelf.old; shelf = S.faults shelf.old; shelf' = S.faults shelf.new; out = O.printed out.old; out' = O.printed out.new }) }
{
    let config = match fetch_config(alloc, shelf, name) {
        Ok(config) => config,
        Err(stop) => return fault_status(stop),
    };
    match report(alloc, &config) {
        Ok(lines) => close(None, lines.as_slice(), out),
        Err(NoMemory) => Status::NoMemory,
    }
}

/// `draw`: shows a picture of the configuration.
fn draw<S: Shelf, O: Sink>(alloc: Global, name: &FileName, shelf: &mut S, out: &mut O) -> Status
    ensures { FollowsConfig IsDrawing name.now result (record { files = S.files shelf.old; shelf = S.faults shelf.old; shelf' = S.faults shelf.new; out = O.printed out.old; out' = O.printed out.new }) }
{
    let config = match fetch_config(alloc, shelf, name) {
        Ok(config) => config,
        Err(stop) => return fault_status(stop),
    };
    match drawing(alloc, &config) {
        Ok(picture) => close(None, picture.as_slice(), out),
        Err(NoMemory) => Status::NoMemory,
    }
}

/// `audit`: shows that what was recorded is an audit of the configuration, or answers the first line through which it isn't.
fn audit<S: Shelf, O: Sink>(alloc: Global, order: &AuditOrder, shelf: &mut S, out: &mut O) -> Status
    ensures { FollowsAudit (record { config = order.now.config; recorded = order.now.recorded }) result (record { files = S.files shelf.old; shelf = S.faults shelf.old; shelf' = S.faults shelf.new; out = O.printed out.old; out' = O.printed out.new }) }
{
    let recorded = match fetch_audit(alloc, shelf, order) {
        Ok(recorded) => recorded,
        Err(stop) => return fault_status(stop),
    };
    match check_audit(&recorded.config, recorded.bytes.as_slice()) {
        Ok(()) => close(None, b"accepted\n", out),
        Err(fault) => Status::Audit(fault),
    }
}

/// The answer about a file of this name.
fn status_of(name: FileName, answer: Answer) -> Status
    ensures { result ≡ status_of name answer }
{
    match answer {
        Answer::Done => Status::Done,
        Answer::Missing => Status::Missing(name),
        Answer::TooLong => Status::TooLong(name),
        Answer::ShelfFault => Status::ShelfFault,
        Answer::Asm(fault) => Status::Asm(fault),
        Answer::OutFault => Status::OutFault,
        Answer::NoMemory => Status::NoMemory,
    }
}

/// Does what the words say.
fn perform<H: Hardware, S: Shelf, O: Sink, K: Keyboard<O>, E: Sink, P: Progress, L: Lines>(
    alloc: Global,
    words: &[String],
    shelf: &mut S,
    machine: &mut H,
    lines: &mut L,
    drives: &mut Vec<Box<dyn Drive>>,
    out: &mut O,
    keyboard: &mut K,
    errors: &mut E,
    progress: &mut P,
) -> Status
    requires pages { length (H.machine machine.old).memory ≡ 512 * 32768 }
    requires drives { vec_len drives.old ≡ 16 }
    ensures { Says MissesArePaid (wanted (map (λ w. string_bytes w) words.now)) result (record { files = S.files shelf.old; shelf = S.faults shelf.old; shelf' = S.faults shelf.new; machine = H.machine machine.old; machine' = H.machine machine.new; lines = L.lines lines.old; lines' = L.lines lines.new; drives = map (λ d. kept d) drives.old.items; drives' = map (λ d. kept d) drives.new.items; out = O.printed out.old; out' = O.printed out.new }) (record { keys = K.keys keyboard.old; keys' = K.keys keyboard.new; errors = E.printed errors.old; errors' = E.printed errors.new }) }
{
    match parse(words) {
        None => Status::Words,
        Some(Request::Solo(order)) => solo(alloc, order, shelf, machine, lines, drives, out),
        Some(Request::Trace(order)) => trace(alloc, order, shelf, machine, lines, drives, out),
        Some(Request::Run(order)) => run(
            alloc, order, shelf, machine, lines, drives, out, progress,
        ),
        Some(Request::Save(order)) => save(
            alloc, order, shelf, machine, lines, drives, out, progress,
        ),
        Some(Request::Resume(order)) => resume(
            alloc, order, shelf, machine, lines, drives, out, progress,
        ),
        Some(Request::Extend(order)) => extend(
            alloc, order, shelf, machine, lines, drives, out, progress,
        ),
        Some(Request::Live(order)) => live(
            alloc, order, shelf, machine, lines, drives, out, keyboard, errors,
        ),
        Some(Request::Load(number)) => load(alloc, number, machine, lines, out, progress),
        Some(Request::Check(name)) => check(alloc, &name, shelf, out),
        Some(Request::Migrate(name)) => migrate(alloc, &name, shelf, out),
        Some(Request::Audit(order)) => audit(alloc, &order, shelf, out),
        Some(Request::Flow(name)) => flow(alloc, &name, shelf, out),
        Some(Request::Draw(name)) => draw(alloc, &name, shelf, out),
        Some(Request::Asm(source)) => {
            let answer = asm(alloc, &source, shelf, out);
            status_of(source, answer)
        }
        Some(Request::List(source)) => {
            let answer = list(alloc, &source, shelf, out);
            status_of(source, answer)
        }
        Some(Request::Dis(image)) => {
            let answer = dis(alloc, &image, shelf, out);
            status_of(image, answer)
        }
    }
}

/// Does what the words say, over a shelf of files, a machine of 32,768 pages, 32 lines and 16 drives; the summary, or what a
/// command shows of a file, is put on `out`. The machine's memory and counts may hold anything. Only `live` asks the keyboard for
/// lines, and reports on `errors` which of them say no event. After each round of any other run `progress` gets the number of
/// rounds made.
pub fn vvmm_run<H: Hardware, S: Shelf, O: Sink, K: Keyboard<O>, E: Sink, P: Progress, L: Lines>(
    alloc: Global,
    words: &[String],
    shelf: &mut S,
    machine: &mut H,
    lines: &mut L,
    drives: &mut Vec<Box<dyn Drive>>,
    out: &mut O,
    keyboard: &mut K,
    errors: &mut E,
    progress: &mut P,
) -> Status
    requires pages { length (H.machine machine.old).memory ≡ 512 * 32768 }
    requires drives { vec_len drives.old ≡ 16 }
    ensures says { Says NothingMore (wanted (map (λ w. string_bytes w) words.now)) result (record { files = S.files shelf.old; shelf = S.faults shelf.old; shelf' = S.faults shelf.new; machine = H.machine machine.old; machine' = H.machine machine.new; lines = L.lines lines.old; lines' = L.lines lines.new; drives = map (λ d. kept d) drives.old.items; drives' = map (λ d. kept d) drives.new.items; out = O.printed out.old; out' = O.printed out.new }) (record { keys = K.keys keyboard.old; keys' = K.keys keyboard.new; errors = E.printed errors.old; errors' = E.printed errors.new }) }
    ensures pays { Says MissesArePaid (wanted (map (λ w. string_bytes w) words.now)) result (record { files = S.files shelf.old; shelf = S.faults shelf.old; shelf' = S.faults shelf.new; machine = H.machine machine.old; machine' = H.machine machine.new; lines = L.lines lines.old; lines' = L.lines lines.new; drives = map (λ d. kept d) drives.old.items; drives' = map (λ d. kept d) drives.new.items; out = O.printed out.old; out' = O.printed out.new }) (record { keys = K.keys keyboard.old; keys' = K.keys keyboard.new; errors = E.printed errors.old; errors' = E.printed errors.new }) }
{
    perform(
        alloc, words, shelf, machine, lines, drives, out, keyboard, errors, progress,
    )
}

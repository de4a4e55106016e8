//! The program: guests on one simulated VAX, each as if alone on a private virtual VAX.
#![tactic(auto)]

use std::alloc::Global;
use std::io::Input;
use std::process::ExitCode;
use std::{env, io};
use vax_cpu::Cpu;
use vv_base::{NoMemory, Text};
use vv_edge::{
    FileLine, FileShelf, InputKeys, Opening, Streams, Ticker, Told, audit_line, broken_key,
    conclude, hold_standard, line_notes, refused_column, refused_line, text_asked, told_word,
    wanted_drive, words_status,
};
use vv_io::{Drive, LineList};
pub use vvmm_call::vvmm_run;
use vvmm_call::{Devices, close, devices_of, serve};
use vvmm_files::Status;

/// The machine has 32,768 pages of 512 bytes: 16 megabytes.
const PAGES: u32 = 32_768;

/// The program's words, after its own name.
fn given_words(rt: &HostRuntime) -> io::Result<Vec<String>> {
    let mut words = Vec::new(rt.alloc());
    for word in env::args(rt)?.skip(1) {
        words.push(word)?;
    }
    Ok(words)
}

/// What people at a terminal are shown beside an answer.
fn told_of(
    alloc: Global,
    words: &[String],
    status: &Status,
    shelf: &FileShelf<'_>,
    lines: &LineList<FileLine>,
    opening: &Opening,
) -> Told {
    let file = told_word(status)
        .and_then(|place| words.get(place))
        .and_then(|word| shelf.look_into(alloc, word.as_str()));
    let text = match &file {
        Some(text) => text.as_slice(),
        None => &[],
    };
    Told {
        flawed: opening.flawed,
        wanted: wanted_drive(alloc, text, status).unwrap_or(None),
        lines: line_notes(lines, audit_line(alloc, text, status).unwrap_or(None)),
        drives: opening.failed.get(),
        unread: shelf.unread.copied(),
        key: broken_key(alloc, text, status).unwrap_or(Text::new()),
        line: refused_line(text, status),
        column: refused_column(text, status),
    }
}

/// Runs the call over a machine, files and standard streams.
fn run(
    rt: &HostRuntime,
    words: &[String],
    streams: &mut Streams,
    told: &mut Told,
) -> Result<Status, NoMemory> {
    let alloc = rt.alloc();
    let devices = devices_of(words);
    let has_lines = devices != Devices::Nothing;
    let has_drives = devices == Devices::LinesAndDrives;
    let Some(mut opening) = Opening::begin(rt, words, has_lines, has_drives, streams)? else {
        return Ok(Status::ShelfFault);
    };
    let mut machine = Cpu::new(alloc, PAGES)?;
    let mut lines = opening.lines(rt, words, streams)?;
    let mut drives: Vec<Box<dyn Drive>> = Vec::new(alloc);
    for number in 0..16u8 {
        let drive = opening.drive(rt, number, streams)?;
        drives.push(Box::new(alloc, drive)?)?;
    }
    let mut shelf = FileShelf::new(rt, opening.drives());
    let mut keyboard = InputKeys::new(rt.reader());
    let mut notes = streams.errors;
    let mut ticker = Ticker::new(&mut notes, streams.is_terminal, rt);
    let status = serve(
        alloc,
        words,
        &mut shelf,
        &mut machine,
        &mut lines,
        &mut drives,
        &mut streams.out,
        &mut keyboard,
        &mut streams.errors,
        &mut ticker,
    );
    if streams.is_terminal {
        *told = told_of(alloc, words, &status, &shelf, &lines, &opening);
    }
    Ok(status)
}

/// What the words ask for.
fn answer(rt: &HostRuntime, streams: &mut Streams, told: &mut Told) -> Status {
    let words = match given_words(rt) {
        Ok(words) => words,
        Err(error) => return words_status(error.kind()),
    };
    if let Some(text) = text_asked(&words) {
        return close(None, text.as_bytes(), &mut streams.out);
    }
    match run(rt, &words, streams, told) {
        Ok(status) => status,
        Err(fault) => Status::from(fault),
    }
}

fn main(rt: HostRuntime) -> ExitCode {
    let held = hold_standard(&rt);
    let mut streams = Streams::new(&rt);
    let mut told = Told::new();
    let status = match &held {
        Ok(_) => answer(&rt, &mut streams, &mut told),
        Err(_) => Status::ShelfFault,
    };
    ExitCode::from(conclude(&status, &told, streams.is_terminal, &mut streams.errors))
}

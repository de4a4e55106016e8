//! Worked cases of the program's call, written as data: each argument names a case file, which says what calls are given and
//! their outcome. A case that holds is reported by its title, and a line that doesn't hold, or can't be read, by its number.
//!
//! A case file is read line by line; an empty line, and one that begins with `;`, is passed over. A line that begins with a
//! mark (`content.rt`) puts bytes for the statement above it; each other line is a statement (`play.rt`), of which some make
//! a call with each of many texts (`each.rt`).
#![tactic(auto)]

mod checks;
mod content;
mod each;
mod given;
mod play;
mod told;
mod work;

use given::PAGES;
use play::Play;
use std::alloc::Global;
use std::process::ExitCode;
use std::{env, fs, io};
use vax_cpu::Cpu;
use vv_base::NoMemory;

/// The lines from a `case` to the next one, and the number of the line in front of them.
#[derive(Drop)]
struct Block<'t> {
    before: usize,
    lines: Vec<&'t str>,
}

/// What is in front of the first case, and each case.
fn blocks_of(alloc: Global, text: &str) -> Result<Vec<Block<'_>>, NoMemory> {
    let mut blocks = Vec::new(alloc);
    let mut lines = Vec::new(alloc);
    let mut before = 0;
    for (place, line) in text.lines().enumerate() {
        if line.starts_with("case ") {
            blocks.push(Block { before, lines })?;
            before = place;
            lines = Vec::new(alloc);
        }
        lines.push(line)?;
    }
    blocks.push(Block { before, lines })?;
    Ok(blocks)
}

/// The values for which a case is made: those of its line `with`, or one without a text.
fn values_of<'t>(alloc: Global, lines: &[&'t str]) -> Result<Vec<&'t str>, NoMemory> {
    let mut values = Vec::new(alloc);
    if let Some(line) = lines.get(1) {
        if let Some(words) = line.strip_prefix("with ") {
            for word in words.split(' ') {
                values.push(word)?;
            }
            return Ok(values);
        }
    }
    values.push("")?;
    Ok(values)
}

/// Makes the case of a block for one value; whether all holds.
fn holds_for<'t>(
    rt: &HostRuntime,
    play: &mut Play<'t>,
    block: &Block<'t>,
    value: &'t str,
) -> Result<bool, NoMemory> {
    play.begin(value);
    for (place, line) in block.lines.iter().enumerate() {
        let number = block.before.saturating_add(place).saturating_add(1);
        play.take(rt, line, number)?;
    }
    play.end(rt)?;
    Ok(play.holds)
}

/// Makes the case of a block for each of its values, and reports its title and whether all holds.
fn make<'t>(rt: &HostRuntime, play: &mut Play<'t>, block: &Block<'t>) -> Result<(), NoMemory> {
    let mut holds = true;
    for value in &values_of(rt.alloc(), &block.lines)? {
        holds = holds_for(rt, play, block, value)? && holds;
    }
    let title = block
        .lines
        .first()
        .and_then(|line| line.strip_prefix("case "));
    if let Some(title) = title {
        let word = if holds { "ok" } else { "NO" };
        let _ = println!(rt; "{word} {title}");
    }
    Ok(())
}

/// Makes the cases of these blocks.
fn make_each<'t>(
    rt: &HostRuntime,
    play: &mut Play<'t>,
    blocks: &[Block<'t>],
) -> Result<(), NoMemory> {
    for block in blocks {
        make(rt, play, block)?;
    }
    Ok(())
}

/// Makes all cases of a file.
fn make_all(rt: &HostRuntime, text: &str) -> Result<(), NoMemory> {
    let blocks = blocks_of(rt.alloc(), text)?;
    let mut play = Play::new(rt.alloc(), Cpu::new(rt.alloc(), PAGES)?);
    make_each(rt, &mut play, blocks.as_slice())
}

/// Makes all cases of the files that the arguments name.
fn run(rt: &HostRuntime) -> io::Result<()> {
    for name in env::args(rt)?.skip(1) {
        println!(rt; "== {name}")?;
        let text = fs::read_to_string(rt, name.as_str())?;
        if make_all(rt, text.as_str()).is_err() {
            println!(rt; "no memory")?;
        }
    }
    Ok(())
}

fn main(rt: HostRuntime) -> ExitCode {
    match run(&rt) {
        Ok(()) => ExitCode::SUCCESS,
        Err(_) => ExitCode::FAILURE,
    }
}

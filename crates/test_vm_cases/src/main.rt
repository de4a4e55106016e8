//! Worked cases of one guest, and of the machine alone, written as data: each argument names a case file, and docs/CASES.md has
//! its language. A case that holds is reported by its title; one that doesn't by what differs, and a line that can't be read by
//! its number.
#![tactic(auto)]

mod case;
mod guest;
mod machine;

use case::{Case, Difference, Ground};
use std::alloc::Global;
use std::process::ExitCode;
use std::{env, fs, io};
use test_vm_stage::Quanta;
use vv_base::NoMemory;

/// A line of a case file, with its number.
type Line<'t> = (usize, &'t str);

/// The play of a case file.
#[derive(Drop)]
struct Play<'t> {
    alloc: Global,
    /// What is said of each case of the group.
    group: Vec<Line<'t>>,
    /// The title of the case that is read, if there is one, and what is said of it.
    title: Option<Line<'t>>,
    lines: Vec<Line<'t>>,
    /// The words of its line `with`.
    with: Option<&'t str>,
}

/// A case of many steps is cut in two at this many places.
const CUTS: u32 = 100;

/// What differs from a case of a guest, if anything, where the steps are taken one by one, in one call, or in two; and how they
/// were taken.
fn compare_guest(alloc: Global, case: &Case) -> Result<Option<(Quanta, Difference)>, NoMemory> {
    if let Some(found) = guest::compare(alloc, case, Quanta::Single)? {
        return Ok(Some((Quanta::Single, found)));
    }
    for place in 0..case.steps().min(CUTS) {
        let quanta = Quanta::Cut(place);
        if let Some(found) = guest::compare(alloc, case, quanta)? {
            return Ok(Some((quanta, found)));
        }
    }
    Ok(None)
}

/// What differs from a case, if anything, and how the steps were taken.
fn compare(alloc: Global, case: &Case) -> Result<Option<(Quanta, Difference)>, NoMemory> {
    if case.ground == Ground::Machine {
        Ok(machine::compare(alloc, case)?.map(|found| (Quanta::Cut(0), found)))
    } else {
        compare_guest(alloc, case)
    }
}

/// Takes lines into a case, and reports those that can't be read; whether all can be read.
fn take_all<'t>(
    rt: &HostRuntime,
    case: &mut Case<'t>,
    lines: &[Line<'t>],
) -> Result<bool, NoMemory> {
    let mut fits = true;
    for (number, line) in lines {
        if !case.take(line)? {
            let _ = println!(rt; "line {number} can't be read");
            fits = false;
        }
    }
    Ok(fits)
}

impl<'t> Play<'t> {
    fn new(alloc: Global) -> Play<'t> {
        Play {
            alloc,
            group: Vec::new(alloc),
            title: None,
            lines: Vec::new(alloc),
            with: None,
        }
    }

    /// Takes a line.
    fn take(&mut self, rt: &HostRuntime, number: usize, line: &'t str) -> Result<(), NoMemory> {
        let line = line
            .split_once(" ;")
            .map_or(line, |(front, _)| front)
            .trim_end();
        let (word, rest) = line.split_once(' ').unwrap_or((line, ""));
        match word {
            "" | ";" => {}
            "group" => {
                self.end_case(rt)?;
                self.group = Vec::new(self.alloc);
                let _ = println!(rt; "{line}");
            }
            "case" => {
                self.end_case(rt)?;
                self.title = Some((number, rest));
            }
            "with" => self.with = Some(rest),
            _ if self.title.is_some() => self.lines.push((number, line))?,
            _ => self.group.push((number, line))?,
        }
        Ok(())
    }

    /// Whether the case holds, with values of places that a word of `with` names.
    fn holds_with(&self, rt: &HostRuntime, word: &str) -> Result<bool, NoMemory> {
        let mut case = Case::new(self.alloc);
        let fits = take_all(rt, &mut case, &self.group)? && take_all(rt, &mut case, &self.lines)?;
        if !fits || !word.is_empty() && !case.take_with(word)? {
            let _ = println!(rt; "the case can't be read, with \"{word}\"");
            return Ok(false);
        }
        let found = compare(self.alloc, &case)?;
        if let Some((quanta, difference)) = found {
            let _ = println!(rt; "{difference:?}, {quanta:?}, with \"{word}\"");
        }
        Ok(found.is_none())
    }

    /// Plays the case that was read, if there is one, and reports whether it holds.
    fn end_case(&mut self, rt: &HostRuntime) -> Result<(), NoMemory> {
        if let Some((number, title)) = self.title {
            let mut holds = true;
            for word in self.with.unwrap_or("").split(' ') {
                holds = self.holds_with(rt, word)? && holds;
            }
            let _ = if holds {
                println!(rt; "ok {title}")
            } else {
                println!(rt; "NO {title}, line {number}")
            };
        }
        self.title = None;
        self.with = None;
        self.lines = Vec::new(self.alloc);
        Ok(())
    }
}

/// Plays all cases of a file.
fn play_all(rt: &HostRuntime, text: &str) -> Result<(), NoMemory> {
    let mut play = Play::new(rt.alloc());
    for (place, line) in text.lines().enumerate() {
        play.take(rt, place.saturating_add(1), line)?;
    }
    play.end_case(rt)
}

/// Plays all cases of the files that the arguments name.
fn run(rt: &HostRuntime) -> io::Result<()> {
    for name in env::args(rt)?.skip(1) {
        println!(rt; "== {name}")?;
        let text = fs::read_to_string(rt, name.as_str())?;
        if play_all(rt, text.as_str()).is_err() {
            println!(rt; "no memory")?;
        }
    }
    Ok(())
}

fn main(rt: HostRuntime) -> ExitCode {
    match run(&rt) {
        Ok(()) => ExitCode::SUCCESS,
        Err(_) => ExitCode::FAILURE,
    }
}

//! A case as its lines say it.

use std::alloc::Global;
use test_vm_stage::{Kinds, Place};
use vax_hw::Exit;
use vv_base::NoMemory;

/// Where a case is played.
#[derive(Clone, Copy, PartialEq, Eq)]
pub enum Ground {
    /// A guest whose mapping is off.
    Unmapped,
    /// A guest whose mapping is on.
    Mapped,
    /// A guest that starts.
    Starting,
    /// The machine alone.
    Machine,
}

/// What differs from a case: that it can't be set up; the kinds of its steps; a place with what is found there and what is
/// expected; or the bytes that are shown. Of the machine alone: how many instructions retired, why it ended, or how many entries
/// it missed.
#[derive(Clone, Copy, Debug)]
pub enum Difference {
    SetUp,
    Kinds(Kinds),
    At {
        place: Place,
        found: u32,
        wanted: u32,
    },
    Shown,
    Retired(u64),
    Ended(Exit),
    Missed(u64),
}

/// What a case is, as far as its lines have been read.
#[derive(Drop)]
pub struct Case<'t> {
    alloc: Global,
    pub ground: Ground,
    pub code: Vec<u8>,
    pub before: Vec<(Place, u32)>,
    /// How many steps there are of each kind.
    pub kinds: Kinds,
    pub after: Vec<(Place, u32)>,
    pub shown: Vec<u8>,
    /// The virtual machine's PSL, why the machine ends, and how many entries it misses.
    pub vmpsl: u32,
    pub ends: &'t str,
    pub misses: u64,
}

/// The kinds of steps, in the order of `Kinds`.
const KINDS: [&str; 7] = [
    "plain",
    "sensitive",
    "fault",
    "interrupt",
    "modify",
    "idle",
    "stopped",
];

/// A place and its value in hex, as `R14=2FF8`.
fn value_in(word: &str) -> Option<(Place, u32)> {
    let (name, value) = word.split_once('=')?;
    let value = u32::from_str_radix(value, 16).ok()?;
    Some((Place::named(name)?, value))
}

/// Adds the values of some places; whether they can be read.
fn add_values(values: &mut Vec<(Place, u32)>, text: &str) -> Result<bool, NoMemory> {
    for word in text.split(' ') {
        match value_in(word) {
            Some(value) => values.push(value)?,
            None => {
                return Ok(false);
            }
        }
    }
    Ok(true)
}

/// Adds bytes in hex; whether they can be read.
fn add_bytes(bytes: &mut Vec<u8>, text: &str) -> Result<bool, NoMemory> {
    for word in text.split(' ') {
        match u8::from_str_radix(word, 16) {
            Ok(byte) => bytes.push(byte)?,
            Err(_) => {
                return Ok(false);
            }
        }
    }
    Ok(true)
}

/// The counts of steps: each kind, and where there are several of it their number after it.
fn kinds_in(text: &str) -> Option<Kinds> {
    let mut kinds = [0; 7];
    let mut last = 7;
    for word in text.split(' ') {
        match KINDS.iter().position(|kind| *kind == word) {
            Some(kind) if kind < 7 => {
                last = kind;
                kinds[last] = 1;
            }
            _ if last < 7 => kinds[last] = word.parse().ok()?,
            _ => {
                return None;
            }
        }
    }
    Some(kinds)
}

impl<'t> Case<'t> {
    /// One plain step of nothing.
    pub fn new(alloc: Global) -> Case<'t> {
        Case {
            alloc,
            ground: Ground::Unmapped,
            code: Vec::new(alloc),
            before: Vec::new(alloc),
            kinds: [1, 0, 0, 0, 0, 0, 0],
            after: Vec::new(alloc),
            shown: Vec::new(alloc),
            vmpsl: 0x03C0_0000,
            ends: "budget",
            misses: 0,
        }
    }

    /// How many steps it takes.
    pub fn steps(&self) -> u32 {
        let mut steps = 0u64;
        for count in &self.kinds {
            steps = steps.saturating_add(*count);
        }
        steps.min(0xFFFF) as u32
    }

    /// Takes where it is played.
    fn take_ground(&mut self, text: &str) -> bool {
        self.ground = match text {
            "unmapped" => Ground::Unmapped,
            "mapped" => Ground::Mapped,
            "starting" => Ground::Starting,
            "machine" => Ground::Machine,
            _ => {
                return false;
            }
        };
        true
    }

    /// Takes the kinds of its steps.
    fn take_kinds(&mut self, text: &str) -> bool {
        match kinds_in(text) {
            Some(kinds) => {
                self.kinds = kinds;
                true
            }
            None => false,
        }
    }

    /// Takes what the console is shown, by the mark of a line of content.
    fn take_shown(&mut self, text: &str) -> Result<bool, NoMemory> {
        let (mark, text) = text.split_once(' ').unwrap_or((text, ""));
        match mark {
            "=" => self.shown.extend_from_slice(text.as_bytes())?,
            "/" => {
                self.shown.extend_from_slice(text.as_bytes())?;
                self.shown.extend_from_slice(b"\r\n")?;
            }
            "#" => {
                return add_bytes(&mut self.shown, text);
            }
            _ => {
                return Ok(false);
            }
        }
        Ok(true)
    }

    /// Takes what is said of the machine alone.
    fn take_of_machine(&mut self, word: &str, text: &'t str) -> bool {
        match word {
            "vmpsl" => match u32::from_str_radix(text, 16) {
                Ok(vmpsl) => self.vmpsl = vmpsl,
                Err(_) => {
                    return false;
                }
            },
            "misses" => match text.parse() {
                Ok(misses) => self.misses = misses,
                Err(_) => {
                    return false;
                }
            },
            "ends" => self.ends = text,
            _ => {
                return false;
            }
        }
        true
    }

    /// Takes a statement; whether it can be read.
    pub fn take(&mut self, line: &'t str) -> Result<bool, NoMemory> {
        let (word, rest) = line.split_once(' ').unwrap_or((line, ""));
        match word {
            "on" => Ok(self.take_ground(rest)),
            "code" => add_bytes(&mut self.code, rest),
            "before" => add_values(&mut self.before, rest),
            "steps" => Ok(self.take_kinds(rest)),
            "after" => add_values(&mut self.after, rest),
            "shown" => self.take_shown(rest),
            _ => Ok(self.take_of_machine(word, rest)),
        }
    }

    /// Takes a word of `with`: values of places, parted by commas, that are there before.
    pub fn take_with(&mut self, word: &str) -> Result<bool, NoMemory> {
        for value in word.split(',') {
            if !add_values(&mut self.before, value)? {
                return Ok(false);
            }
        }
        Ok(true)
    }
}

use std::alloc::Global;
use sys_devices::Device;
use vm_guest::Counts;
use vv_io::{Drive, Line, MemLine};

/// What the system answers.
#[derive(Drop)]
pub struct Ending {
    pub failed: Option<Device>,
    pub counts: Counts,
}

/// The outcome of a run.
#[derive(Drop)]
pub struct Outcome {
    pub ending: Ending,
    /// By line the bytes shown.
    pub shown: Vec<Vec<u8>>,
    /// By drive its blocks.
    pub kept: Vec<Vec<[u8; 512]>>,
}

/// The bytes that lines show.
pub fn shown_by(alloc: Global, lines: &[MemLine]) -> Option<Vec<Vec<u8>>> {
    let mut shown = Vec::new(alloc);
    for line in lines {
        shown
            .push(line.told().unwrap_or(b"").to_vec(alloc).ok()?)
            .ok()?;
    }
    Some(shown)
}

/// A block of a drive.
fn block_in(drive: &mut Box<dyn Drive>, number: u32) -> Option<[u8; 512]> {
    let mut block = [0; 512];
    if number < drive.blocks() && drive.get(number, &mut block).is_ok() {
        return Some(block);
    }
    None
}

/// The blocks of a drive; one that can't be read is left out.
fn blocks_in(alloc: Global, drive: &mut Box<dyn Drive>) -> Option<Vec<[u8; 512]>> {
    let mut blocks = Vec::new(alloc);
    for number in 0..drive.blocks() {
        if let Some(block) = block_in(drive, number) {
            blocks.push(block).ok()?;
        }
    }
    Some(blocks)
}

/// The blocks of all drives.
pub fn kept_by(alloc: Global, drives: &mut Vec<Box<dyn Drive>>) -> Option<Vec<Vec<[u8; 512]>>> {
    let mut kept = Vec::new(alloc);
    for drive in drives.iter_mut() {
        kept.push(blocks_in(alloc, drive)?).ok()?;
    }
    Some(kept)
}

impl Outcome {
    /// The bytes that a line shows.
    pub fn on(&self, line: u8) -> &[u8] {
        match self.shown.get(line as usize) {
            Some(bytes) => bytes.as_slice(),
            None => b"",
        }
    }

    /// The blocks of a drive.
    pub fn blocks_of(&self, drive: u8) -> &[[u8; 512]] {
        match self.kept.get(drive as usize) {
            Some(blocks) => blocks.as_slice(),
            None => &[],
        }
    }

    /// Whether no device failed, and all lines, drives and counts are those of another run.
    pub fn is_same(&self, other: &Outcome) -> bool {
        self.ending.failed.is_none()
            && (0..32u8).all(|line| self.on(line) == other.on(line))
            && (0..16u8).all(|drive| self.blocks_of(drive) == other.blocks_of(drive))
            && self.ending.counts == other.ending.counts
    }
}

//! What a call told.

use std::alloc::Global;
use vv_base::NoMemory;
use vv_io::{Drive, Line, MemLine};

/// What a call answered, and what lines, drives and the sink hold after it.
#[derive(Drop)]
pub struct Told {
    pub code: u8,
    pub text: Vec<u8>,
    pub lines: Vec<Vec<u8>>,
    pub drives: Vec<Vec<u8>>,
    pub out: Vec<u8>,
    /// What was reported of lines that say no event.
    pub errors: Vec<u8>,
}

impl Told {
    /// What a line shows.
    pub fn line(&self, number: usize) -> &[u8] {
        match self.lines.get(number) {
            Some(bytes) => bytes.as_slice(),
            None => &[],
        }
    }

    /// What a drive holds.
    pub fn drive(&self, number: usize) -> &[u8] {
        match self.drives.get(number) {
            Some(bytes) => bytes.as_slice(),
            None => &[],
        }
    }
}

/// What each line has shown.
pub fn shown_on(alloc: Global, lines: &[MemLine]) -> Result<Vec<Vec<u8>>, NoMemory> {
    let mut shown = Vec::new(alloc);
    for line in lines {
        shown.push(line.told().unwrap_or(b"").to_vec(alloc)?)?;
    }
    Ok(shown)
}

/// The blocks of a drive, one after the other.
fn content(alloc: Global, drive: &mut Box<dyn Drive>) -> Result<Vec<u8>, NoMemory> {
    let mut bytes = Vec::new(alloc);
    for block in 0..drive.blocks() {
        let mut held = [0; 512];
        if block < drive.blocks() {
            let _ = drive.get(block, &mut held);
        }
        bytes.extend_from_slice(&held)?;
    }
    Ok(bytes)
}

/// What all drives hold.
pub fn held_on(alloc: Global, drives: &mut Vec<Box<dyn Drive>>) -> Result<Vec<Vec<u8>>, NoMemory> {
    let mut all = Vec::new(alloc);
    for drive in drives.iter_mut() {
        all.push(content(alloc, drive)?)?;
    }
    Ok(all)
}

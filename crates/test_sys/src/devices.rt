ghost use Rattle.std.specs.Prelude.{◌≡◌, IfSome, vec_len};

use crate::case::{Case, beside};
use crate::content::{Content, block_of};
use crate::outcome::{Outcome, kept_by, shown_by};
use crate::running::run;
use std::alloc::Global;
use vax_cpu::Cpu;
use vv_io::{Drive, EmptyDrive, LineList, MemDrive, MemLine};

/// Bytes for which a line has room.
const ROOM: u32 = 60_000;

/// A drive of these blocks.
fn drive_of(alloc: Global, blocks: &[Content]) -> Option<MemDrive> {
    let mut list = Vec::new(alloc);
    for content in blocks {
        list.push(block_of(content)).ok()?;
    }
    if list.len() > 2048 {
        list.clear();
    }
    Some(MemDrive::new(list, Vec::new(alloc)))
}

/// The lines.
fn lines(alloc: Global) -> Option<LineList<MemLine>> {
    let mut list = Vec::new(alloc);
    for _number in 0..32u8 {
        list.push(MemLine::new(alloc, ROOM, Vec::new(alloc)).ok()?)
            .ok()?;
    }
    Some(LineList::new(list))
}

/// The drives of a case.
fn drives_of(alloc: Global, case: &Case) -> Option<Vec<Box<dyn Drive>>>
    ensures { IfSome result (λ drives. vec_len drives ≡ 16) }
{
    let mut drives: Vec<Box<dyn Drive>> = Vec::new(alloc);
    for number in 0..16u8 {
        match beside(case.drives, number) {
            Some(blocks) => {
                drives
                    .push(Box::new(alloc, drive_of(alloc, blocks)?).ok()?)
                    .ok()?;
            }
            None => drives.push(Box::new(alloc, EmptyDrive).ok()?).ok()?,
        }
    }
    Some(drives)
}

/// Plays a case on lines and drives in memory, by slices in an order. Nothing is promised of what it answers; there is no outcome
/// where memory runs out, or where the case can't be played.
pub fn play(alloc: Global, machine: &mut Cpu, case: &Case, order: &[(u8, u32)]) -> Option<Outcome> {
    let mut lines = lines(alloc)?;
    let mut drives = drives_of(alloc, case)?;
    let ending = run(alloc, machine, case, order, &mut lines, &mut drives)?;
    Some(Outcome {
        ending,
        shown: shown_by(alloc, lines.as_slice())?,
        kept: kept_by(alloc, &mut drives)?,
    })
}

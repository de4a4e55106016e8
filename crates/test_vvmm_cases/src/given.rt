//! What a call is given, and the call over objects in memory.
ghost use Rattle.std.specs.Prelude.{◌≡◌, ◌*◌, IfOk, length, vec_len};

use crate::told::{Told, held_on, shown_on};
use std::alloc::Global;
use vax_cpu::Cpu;
use vax_hw::Hardware;
use vv_base::{FileName, NoMemory, file_name};
use vv_io::{
    Cut, Drive, EmptyDrive, LineList, MemDrive, MemKeyboard, MemLine, MemShelf, NoProgress,
};
use vvmm_call::vvmm_run;
use vvmm_files::{Status, status_code, status_text};

/// The machine has 32,768 pages of 512 bytes.
pub const PAGES: u32 = 32_768;

/// How many bytes a line takes where nothing is said.
const ROOM: u32 = 100_000;

/// A drive: its number, how many blocks it has, the byte that each is full of, and the call that fails.
#[derive(Clone, Copy)]
pub struct Disk {
    pub number: u8,
    pub blocks: u32,
    pub byte: u8,
    pub failing: Option<u32>,
}

/// What a call is given: files of the shelf, drives, and what fails.
#[derive(Drop)]
pub struct Given<'t> {
    pub files: Vec<(&'t str, Vec<u8>)>,
    pub volumes: Vec<(u8, Vec<[u8; 512]>)>,
    pub spoiled: Vec<(u8, u32)>,
    pub disks: Vec<Disk>,
    pub cuts: Vec<(u8, Cut)>,
    pub out: Option<Cut>,
    pub failing: Option<u32>,
    pub room: u32,
    pub keys: Vec<u8>,
    pub broken: Option<u32>,
    pub errors: Option<Cut>,
}

/// Other bytes of a file, for one call.
#[derive(Clone, Copy)]
pub struct Variant<'v> {
    pub file: &'v str,
    pub bytes: &'v [u8],
}

/// Bytes in blocks; what is after the last whole one is left.
pub fn blocks_of(alloc: Global, bytes: &[u8]) -> Result<Vec<[u8; 512]>, NoMemory> {
    let mut blocks = Vec::new(alloc);
    for bytes in bytes.chunks_exact(512) {
        let mut block = [0; 512];
        for (into, byte) in block.iter_mut().zip(bytes.iter()) {
            *into = *byte;
        }
        blocks.push(block)?;
    }
    Ok(blocks)
}

/// At most one of something.
fn at_most_one<T: Copy>(alloc: Global, one: Option<T>) -> Result<Vec<T>, NoMemory> {
    let mut all = Vec::new(alloc);
    if let Some(one) = one {
        all.push(one)?;
    }
    Ok(all)
}

/// What is beside a number, in order.
fn beside<T: Copy>(alloc: Global, pairs: &[(u8, T)], number: u8) -> Result<Vec<T>, NoMemory> {
    let mut own = Vec::new(alloc);
    for (other, one) in pairs {
        if *other == number {
            own.push(*one)?;
        }
    }
    Ok(own)
}

/// A line without the carriage return at its end.
fn without_return(line: &[u8]) -> &[u8] {
    match line {
        [line @ .., b'\r'] => line,
        _ => line,
    }
}

/// The lines of what is typed, as standard input has them: each ends with a line feed, or with a carriage return and one; the last
/// may lack its end.
fn key_lines(alloc: Global, text: &[u8]) -> Result<Vec<Vec<u8>>, NoMemory> {
    let mut lines = Vec::new(alloc);
    let mut line_begins = 0;
    for (place, byte) in text.iter().enumerate() {
        if *byte == b'\n' {
            lines.push(without_return(text.get(line_begins..place).unwrap_or(&[])).to_vec(alloc)?)?;
            line_begins = place.saturating_add(1);
        }
    }
    let rest = text.get(line_begins..).unwrap_or(&[]);
    if !rest.is_empty() {
        lines.push(rest.to_vec(alloc)?)?;
    }
    Ok(lines)
}

/// The words of a command line.
fn words_of(alloc: Global, text: &str) -> Result<Vec<String>, NoMemory> {
    let mut words = Vec::new(alloc);
    for word in text.split(' ') {
        words.push(word.to_string(alloc)?)?;
    }
    Ok(words)
}

/// A drive in memory.
fn disk_drive(alloc: Global, disk: Disk) -> Result<MemDrive, NoMemory> {
    let blocks = vec![in alloc; [disk.byte; 512]; disk.blocks as usize]?;
    Ok(MemDrive::new(blocks, at_most_one(alloc, disk.failing)?))
}

/// A drive of these blocks; one of more than may be on it has none.
fn volume_drive(
    alloc: Global,
    blocks: &[[u8; 512]],
    failing: Vec<u32>,
) -> Result<MemDrive, NoMemory> {
    let few = if blocks.len() <= 2048 { blocks } else { &[] };
    Ok(MemDrive::new(Vec::from_slice(alloc, few)?, failing))
}

/// The outside of a call, in memory.
#[derive(Drop)]
struct Outside {
    shelf: MemShelf,
    lines: LineList<MemLine>,
    out: MemLine,
    keyboard: MemKeyboard<MemLine>,
    errors: MemLine,
}

impl Outside {
    /// Makes the call with these words.
    fn call<H: Hardware>(
        &mut self,
        alloc: Global,
        machine: &mut H,
        words: &[String],
        drives: &mut Vec<Box<dyn Drive>>,
    ) -> Status
        requires pages { length (H.machine machine.old).memory ≡ 512 * 32768 }
        requires drives { vec_len drives.old ≡ 16 }
    {
        vvmm_run(
            alloc,
            words,
            &mut self.shelf,
            machine,
            &mut self.lines,
            drives,
            &mut self.out,
            &mut self.keyboard,
            &mut self.errors,
            &mut NoProgress,
        )
    }

    /// What the call told.
    fn told(
        &self,
        alloc: Global,
        status: &Status,
        drives: &mut Vec<Box<dyn Drive>>,
    ) -> Result<Told, NoMemory> {
        Ok(Told {
            code: status_code(status),
            text: status_text(status).bytes().to_vec(alloc)?,
            lines: shown_on(alloc, self.lines.as_slice())?,
            drives: held_on(alloc, drives)?,
            out: self.out.shown().to_vec(alloc)?,
            errors: self.errors.shown().to_vec(alloc)?,
        })
    }
}

impl<'t> Given<'t> {
    /// Nothing.
    pub fn new(alloc: Global) -> Given<'t> {
        Given {
            files: Vec::new(alloc),
            volumes: Vec::new(alloc),
            spoiled: Vec::new(alloc),
            disks: Vec::new(alloc),
            cuts: Vec::new(alloc),
            out: None,
            failing: None,
            room: ROOM,
            keys: Vec::new(alloc),
            broken: None,
            errors: None,
        }
    }

    /// The bytes of the first file of a name.
    pub fn file(&self, name: &str) -> Option<&[u8]> {
        self.files
            .iter()
            .find(|file| file.0 == name)
            .map(|file| file.1.as_slice())
    }

    /// The shelf; of a file that has a variant, with the bytes of that.
    fn shelf(&self, alloc: Global, variant: Option<Variant>) -> Result<MemShelf, NoMemory> {
        let mut files = Vec::new(alloc);
        for (name, bytes) in &self.files {
            let bytes = match variant {
                Some(variant) if variant.file == *name => variant.bytes,
                _ => bytes.as_slice(),
            };
            let name = file_name(name.as_bytes()).unwrap_or(FileName::new());
            files.push((name, bytes.to_vec(alloc)?))?;
        }
        Ok(MemShelf::new(files, at_most_one(alloc, self.failing)?))
    }

    /// The keyboard.
    fn keyboard(&self, alloc: Global) -> Result<MemKeyboard<MemLine>, NoMemory> {
        let lines = key_lines(alloc, self.keys.as_slice())?;
        Ok(MemKeyboard::new(lines, at_most_one(alloc, self.broken)?))
    }

    /// The lines.
    fn lines(&self, alloc: Global) -> Result<LineList<MemLine>, NoMemory> {
        let mut list = Vec::new(alloc);
        for number in 0..32u8 {
            let cuts = beside(alloc, self.cuts.as_slice(), number)?;
            list.push(MemLine::new(alloc, self.room, cuts)?)?;
        }
        Ok(LineList::new(list))
    }

    /// A sink, and where it is cut.
    fn sink(&self, alloc: Global, cut: Option<Cut>) -> Result<MemLine, NoMemory> {
        MemLine::new(alloc, self.room, at_most_one(alloc, cut)?)
    }

    /// The drive in memory of a number, if there is one.
    fn memory_drive(&self, alloc: Global, number: u8) -> Result<Option<MemDrive>, NoMemory> {
        if let Some(disk) = self.disks.iter().find(|disk| disk.number == number) {
            return Ok(Some(disk_drive(alloc, *disk)?));
        }
        match self.volumes.iter().find(|volume| volume.0 == number) {
            Some(volume) => {
                let failing = beside(alloc, self.spoiled.as_slice(), number)?;
                Ok(Some(volume_drive(alloc, volume.1.as_slice(), failing)?))
            }
            None => Ok(None),
        }
    }

    /// Calls the program with these words over objects in memory, where a file may have a variant, and answers what they hold after
    /// it. It fails where memory runs out, and where the machine hasn't 32,768 pages.
    pub fn call(
        &self,
        alloc: Global,
        machine: &mut Cpu,
        words: &str,
        variant: Option<Variant>,
    ) -> Result<Told, NoMemory> {
        if machine.pages() != PAGES {
            return Err(NoMemory);
        }
        let words = words_of(alloc, words)?;
        let mut drives: Vec<Box<dyn Drive>> = Vec::new(alloc);
        for number in 0..16u8 {
            match self.memory_drive(alloc, number)? {
                Some(drive) => drives.push(Box::new(alloc, drive)?)?,
                None => drives.push(Box::new(alloc, EmptyDrive)?)?,
            }
        }
        let mut outside = Outside {
            shelf: self.shelf(alloc, variant)?,
            lines: self.lines(alloc)?,
            out: self.sink(alloc, self.out)?,
            keyboard: self.keyboard(alloc)?,
            errors: self.sink(alloc, self.errors)?,
        };
        let status = outside.call(alloc, machine, words.as_slice(), &mut drives);
        outside.told(alloc, &status, &mut drives)
    }
}

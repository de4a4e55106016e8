//! Objects that note their calls, and calls of the program over them.
ghost use Rattle.std.specs.Prelude.{◌≡◌, ◌*◌, IfSome, None, Some, length, vec_len};

use std::alloc::Global;
use std::cell::RefCell;
use std::rc::Rc;
use vax_hw::Hardware;
use vv_base::{FileName, file_name};
use vv_io::{
    Drive, EmptyDrive, KeyFault, KeyLine, Keyboard, Line, LineFault, LineList, MemKeyboard,
    MemLine, MemShelf, NoProgress, Shelf, ShelfFault, Sink, SinkFault,
};
use vvmm_call::vvmm_run;
use vvmm_files::status_code;

/// The pages of the machine.
pub const PAGES: u32 = 32_768;

/// How many calls are noted.
const NOTES: usize = 200;

/// The keyboard's number among the notes.
pub const KEYS: u8 = 90;

/// The number of the sink for reports on typed lines.
pub const ERRORS: u8 = 98;

/// The sink's number.
pub const OUT: u8 = 99;

/// A line's length that is asked for is noted as the line's number plus this.
pub const LENGTH: u8 = 100;

/// What is read back of a line is noted as the line's number and so much.
pub const READ: u8 = 150;

/// A file that is fetched is noted as its name's first letter and so much.
pub const FETCH: u8 = 100;

/// The numbers of what was called, in order.
type Notes = Rc<RefCell<Vec<u8>>>;

/// Files by their names.
pub type Files<'a> = &'a [(&'static str, &'a [u8])];

/// A number under which calls are noted.
#[derive(Drop)]
struct Noting {
    number: u8,
    notes: Notes,
}

impl Noting {
    fn new(number: u8, notes: &Notes) -> Option<Noting> {
        let notes = notes.clone().ok()?;
        Some(Noting { number, notes })
    }

    /// Notes a call as the number and so much.
    fn note(&self, more: u8) {
        if let Ok(mut notes) = self.notes.try_borrow_mut() {
            if notes.len() < NOTES {
                let _ = notes.push(self.number.saturating_add(more));
            }
        }
    }
}

impl Sink for Noting {
    ghost printed = { λ l. record { shown = None; faults = 0 } };

    fn put(&mut self, _bytes: &[u8]) -> Result<(), SinkFault> {
        self.note(0);
        Ok(())
    }
}

/// A line in memory that notes each call, but whose bytes aren't known.
#[derive(Drop)]
struct Kept {
    line: MemLine,
    noting: Noting,
}

impl Line for Kept {
    ghost seen = { λ l. record { shown = None; faults = 0 } };

    fn put(&mut self, bytes: &[u8]) -> Result<(), LineFault> {
        self.noting.note(0);
        let _ = Line::put(&mut self.line, bytes);
        Ok(())
    }

    fn told(&self) -> Option<&[u8]> {
        None
    }

    fn shown_len(&self) -> u64 {
        self.noting.note(LENGTH);
        self.line.shown_len()
    }

    fn read_back(&mut self, place: u64, into: &mut [u8; 512]) -> usize {
        self.noting.note(READ);
        self.line.read_back(place, into)
    }
}

/// A keyboard in memory that notes each call, but whose lines aren't known.
#[derive(Drop)]
struct Keys {
    keyboard: MemKeyboard<Noting>,
    noting: Noting,
}

impl Keyboard<Noting> for Keys {
    ghost keys = { λ k. record { coming = None; faults = 0; outputs = k.keyboard.outputs } };

    fn next(&mut self, out: &Noting) -> Result<Option<KeyLine>, KeyFault> {
        self.noting.note(0);
        match self.keyboard.next(out) {
            Ok(line) => Ok(line),
            Err(KeyFault) => Ok(None),
        }
    }
}

/// A shelf that notes the first letter of each name that is fetched.
#[derive(Drop)]
struct NotingShelf {
    shelf: MemShelf,
    noting: Noting,
}

impl Shelf for NotingShelf {
    ghost use Rattle.std.specs.Prelude.{Some};

    ghost files = { λ s. Some s.shelf.files };

    ghost faults = { λ s. s.shelf.faults };

    fn fetch(&mut self, alloc: Global, name: &FileName) -> Result<Vec<u8>, ShelfFault> {
        if let Some(letter) = name.bytes().first() {
            self.noting.note(*letter);
        }
        self.shelf.fetch(alloc, name)
    }
}

/// The lines.
fn lines(alloc: Global, notes: &Notes) -> Option<LineList<Kept>> {
    let mut list = Vec::new(alloc);
    for number in 0..32u8 {
        let line = MemLine::new(alloc, 2000, Vec::new(alloc)).ok()?;
        let noting = Noting::new(number, notes)?;
        list.push(Kept { line, noting }).ok()?;
    }
    Some(LineList::new(list))
}

/// Drives without blocks.
fn empty_drives(alloc: Global) -> Option<Vec<Box<dyn Drive>>>
    ensures { IfSome result (λ drives. vec_len drives ≡ 16) }
{
    let mut drives: Vec<Box<dyn Drive>> = Vec::new(alloc);
    for _number in 0..16u8 {
        drives.push(Box::new(alloc, EmptyDrive).ok()?).ok()?;
    }
    Some(drives)
}

/// A keyboard at which these lines are typed.
fn keyboard(alloc: Global, typed: &[&[u8]], notes: &Notes) -> Option<Keys> {
    let mut lines = Vec::new(alloc);
    for line in typed {
        lines.push(line.to_vec(alloc).ok()?).ok()?;
    }
    Some(Keys {
        keyboard: MemKeyboard::new(lines, Vec::new(alloc)),
        noting: Noting::new(KEYS, notes)?,
    })
}

/// A shelf of these files.
fn shelf(alloc: Global, files: Files, notes: &Notes) -> Option<NotingShelf> {
    let mut list = Vec::new(alloc);
    for (name, bytes) in files {
        let name = file_name(name.as_bytes())?;
        list.push((name, bytes.to_vec(alloc).ok()?)).ok()?;
    }
    Some(NotingShelf {
        shelf: MemShelf::new(list, Vec::new(alloc)),
        noting: Noting::new(FETCH, notes)?,
    })
}

fn words_of(alloc: Global, text: &str) -> Option<Vec<String>> {
    let mut words = Vec::new(alloc);
    for word in text.split(' ') {
        words.push(word.to_string(alloc).ok()?).ok()?;
    }
    Some(words)
}

/// Makes a call over such objects, and gives its code.
fn call<H: Hardware>(
    alloc: Global,
    machine: &mut H,
    words: &str,
    files: Files,
    typed: &[&[u8]],
    notes: &Notes,
) -> Option<u8> {
    if machine.pages() != PAGES {
        return None;
    }
    let words = words_of(alloc, words)?;
    let mut lines = lines(alloc, notes)?;
    let mut drives = empty_drives(alloc)?;
    let status = vvmm_run(
        alloc,
        &words,
        &mut shelf(alloc, files, notes)?,
        machine,
        &mut lines,
        &mut drives,
        &mut Noting::new(OUT, notes)?,
        &mut keyboard(alloc, typed, notes)?,
        &mut Noting::new(ERRORS, notes)?,
        &mut NoProgress,
    );
    Some(status_code(&status))
}

/// The code of a call with these words over objects that note their calls, and the notes: the shelf has these files, and these lines
/// are typed.
pub fn noted<H: Hardware>(
    alloc: Global,
    machine: &mut H,
    words: &str,
    files: Files,
    typed: &[&[u8]],
) -> Option<(u8, Vec<u8>)> {
    let notes: Notes = Rc::new(alloc, RefCell::new(Vec::with_capacity(alloc, NOTES).ok()?)).ok()?;
    let code = call(alloc, machine, words, files, typed, &notes)?;
    let noted = notes.try_borrow().ok()?;
    Some((code, noted.as_slice().to_vec(alloc).ok()?))
}

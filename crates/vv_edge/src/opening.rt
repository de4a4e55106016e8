ghost use Rattle.std.specs.Prelude.{◌<◌};

use crate::asked::files_named;
use crate::file_drive::FileDrive;
use crate::file_line::FileLine;
use crate::found::{identity_of, look, target_of};
use crate::out_sink::OutSink;
use crate::standard::{hold_folder, hold_places};
use crate::stat::{Identity, Look, drive_under, is_removable, whole_blocks};
use crate::telling::{DriveNotes, LineNotes, Note, Stored, line_note, note_if};
use std::cell::Cell;
use std::fs;
use std::fs::File;
use std::io::IsTerminal;
use std::rc::Rc;
use std::rt::{Stderr, Stdout};
use vv_base::NoMemory;
use vv_io::{LineList, Sink};

/// Standard output and standard error.
#[derive(Drop)]
pub struct Streams {
    pub out: OutSink<Stdout>,
    pub errors: OutSink<Stderr>,
    /// Whether people read standard error.
    pub is_terminal: bool,
}

impl Streams {
    /// Those of the program, and which files they are.
    pub fn new(rt: &HostRuntime) -> Self {
        Streams {
            out: OutSink::new(rt.stdout(), identity_of(rt, "/dev/fd/1")),
            errors: OutSink::new(rt.stderr(), identity_of(rt, "/dev/fd/2")),
            is_terminal: rt.stderr().is_terminal(),
        }
    }

    /// Shows people at a terminal something before the answer.
    fn note(&mut self, note: Note) {
        if self.is_terminal {
            let _ = self.errors.put(note_if(&Some(note)).bytes());
        }
    }

    /// One that is this device's file takes nothing from now on.
    fn keep_from(&mut self, device: Option<Identity>) {
        self.out.keep_from(device);
        self.errors.keep_from(device);
    }
}

/// What lines and drives are given as they are opened.
#[derive(Drop)]
pub struct Opening {
    has_lines: bool,
    has_drives: bool,
    /// The folder, which no other program may use meanwhile.
    folder: Option<File>,
    /// Files that no other line and no other drive may be.
    taken: Vec<Identity>,
    /// How many of these are not drives.
    others: usize,
    /// Descriptors that are held for the files of lines and drives.
    places: Vec<File>,
    /// Drives that can't be used.
    pub flawed: DriveNotes,
    /// Drives that failed.
    pub failed: Rc<Cell<DriveNotes>>,
}

impl Opening {
    /// Holds the folder and a place for each line and drive, where the words' command has them. None where another program has
    /// the folder, or the system refuses a place; people at a terminal are shown why.
    pub fn begin(
        rt: &HostRuntime,
        words: &[String],
        has_lines: bool,
        has_drives: bool,
        streams: &mut Streams,
    ) -> Result<Option<Opening>, NoMemory> {
        let mut folder = None;
        if has_lines {
            match hold_folder(rt) {
                Ok(held) => folder = Some(held),
                Err(note) => {
                    streams.note(note);
                    if note == Note::Busy {
                        return Ok(None);
                    }
                }
            }
        }
        let taken = taken_at_first(rt, words)?;
        let failed = Rc::new(rt.alloc(), Cell::new([None; 16]))?;
        let Some(places) = hold_places(rt, 32 * u8::from(has_lines) + 16 * u8::from(has_drives))?
        else {
            streams.note(Note::FewPlaces);
            return Ok(None);
        };
        Ok(Some(Opening {
            has_lines,
            has_drives,
            folder,
            others: taken.len(),
            taken,
            places,
            flawed: [None; 16],
            failed,
        }))
    }

    /// The files of drives.
    pub fn drives(&self) -> &[Identity] {
        self.taken.get(self.others..).unwrap_or(&[])
    }

    /// The 32 lines. Where the command has them and its files are there, the lines' files of an earlier run go.
    pub fn lines(
        &mut self,
        rt: &HostRuntime,
        words: &[String],
        streams: &mut Streams,
    ) -> Result<LineList<FileLine>, NoMemory> {
        let are_shown_on = self.has_lines
            && files_named(words)
                .iter()
                .all(|name| target_of(rt, name.as_str()).is_some());
        let mut list = Vec::new(rt.alloc());
        for number in 0..32u8 {
            let path = format!(in rt.alloc(); "line{number:02}.out")?;
            let mut is_free = true;
            if are_shown_on {
                streams.keep_from(identity_of(rt, path.as_str()));
                is_free = clear(rt, path.as_str(), &self.taken);
            }
            let place = self.places.pop();
            list.push(FileLine::new(rt.clone()?, path, is_free, place))?;
        }
        Ok(LineList::new(list))
    }

    /// The drive of a number. What is under its name is taken then, or flawed.
    pub fn drive(
        &mut self,
        rt: &HostRuntime,
        number: u8,
        streams: &mut Streams,
    ) -> Result<FileDrive, NoMemory>
        requires { number < 16 }
    {
        let path = format!(in rt.alloc(); "drive{number:02}.vol")?;
        let mut target = None;
        let mut found = None;
        if self.has_drives {
            target = target_of(rt, path.as_str());
            streams.keep_from(target.map(|target| target.identity));
            found = drive_under(&look(rt, path.as_str()), &self.taken);
        }
        match found {
            Some(Ok(found)) => self.taken.push(found.identity)?,
            Some(Err(flaw)) => self.flawed[usize::from(number)] = Some(Note::Flawed(number, flaw)),
            None => {}
        }
        let stored = Stored {
            drive: number,
            stored: 0,
            blocks: whole_blocks(&target),
        };
        let found = found.and_then(|found| found.ok());
        let place = self.places.pop();
        let failed = self.failed.clone()?;
        Ok(FileDrive::new(rt.clone()?, path, found, place, stored, failed))
    }
}

/// Whether nothing is under a line's name, or what was there is removed.
fn clear(rt: &HostRuntime, path: &str, taken: &[Identity]) -> bool {
    match look(rt, path) {
        Look::Nothing => true,
        Look::There(found) => is_removable(&found, taken) && fs::remove_file(rt, path).is_ok(),
        Look::Untold => false,
    }
}

/// Files that no line and no drive may be: those of the standard streams, and of the words.
fn taken_at_first(rt: &HostRuntime, words: &[String]) -> Result<Vec<Identity>, NoMemory> {
    let mut taken = Vec::new(rt.alloc());
    for name in ["/dev/fd/0", "/dev/fd/1", "/dev/fd/2"] {
        if let Some(identity) = identity_of(rt, name) {
            taken.push(identity)?;
        }
    }
    for word in words {
        if let Some(identity) = identity_of(rt, word.as_str()) {
            taken.push(identity)?;
        }
    }
    Ok(taken)
}

/// Notes on the lines that failed.
pub fn line_notes(lines: &LineList<FileLine>, audit: Option<u8>) -> LineNotes {
    let mut notes = [None; 32];
    for number in 0..32u8 {
        if let Some(line) = lines.as_slice().get(usize::from(number)) {
            notes[usize::from(number)] = line_note(number, line.has_failed(), audit);
        }
    }
    notes
}

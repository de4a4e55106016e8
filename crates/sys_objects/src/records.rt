ghost use Rattle.std.specs.Prelude.{◌≡◌, length};

use std::marker::Model;
use vv_base::{FileName, Name};
use vv_class::AccessClass;

/// Objects of one kind, by their places; seen as their list.
#[derive(Drop)]
pub struct Rows<T> {
    rows: Vec<T>,
}

impl<T> Model for Rows<T> {
    ghost use Rattle.std.specs.Prelude.{List};

    ghost Value = { List T };

    ghost view = { λ r. r.rows.items };
}

impl<T> Rows<T> {
    /// The objects of a vector. It takes no memory.
    pub fn new(rows: Vec<T>) -> Self
        ensures { result ≡ rows.items }
    {
        Rows { rows }
    }

    /// The objects.
    pub fn as_slice(&self) -> &[T]
        ensures { result.now ≡ self.now }
    {
        self.rows.as_slice()
    }

    /// How many there are.
    pub fn len(&self) -> usize
        ensures { result ≡ length self.now }
    {
        self.rows.len()
    }

    /// The vector of the objects. It takes no memory.
    pub fn into_vec(self) -> Vec<T>
        ensures { result.items ≡ self }
    {
        let Rows { rows } = self;
        rows
    }
}

/// A terminal: its line, 0 to 31, and its class.
#[derive(Drop)]
pub struct Terminal {
    pub name: Name,
    pub line: u8,
    pub class: AccessClass,
}

/// A volume: its drive, 0 to 15, its size in blocks of 512 bytes, and its class.
#[derive(Drop)]
pub struct VolumeRow {
    pub name: Name,
    pub drive: u8,
    pub blocks: u32,
    pub class: AccessClass,
}

/// A printer: its line, 0 to 31, and its class.
#[derive(Drop)]
pub struct PrinterRow {
    pub name: Name,
    pub line: u8,
    pub class: AccessClass,
}

/// The line on which commands are audited, and the class of what it may show.
#[derive(Clone, Copy, Debug, PartialEq, Eq)]
pub struct Audit {
    pub line: u8,
    pub class: AccessClass,
}

/// A volume, by its place among the volumes, and whether it may be written.
#[derive(Clone, Copy, Debug, PartialEq, Eq)]
pub struct Mount {
    pub volume: u8,
    pub write: bool,
}

/// A guest. A console is a place among the terminals, a printer one among the printers, a dump a line; a mount is
/// at its unit.
#[derive(Drop)]
pub struct GuestRow {
    pub name: Name,
    pub class: AccessClass,
    pub pages: u32,
    pub image: FileName,
    pub load: u32,
    pub start: u32,
    pub autostart: bool,
    pub console: Option<u8>,
    pub printer: Option<u8>,
    pub dump: Option<u8>,
    pub mounts: [Option<Mount>; 4],
    pub modify_faults: bool,
    /// Steps in a round.
    pub quantum: u32,
}

/// A configuration, with its objects in the order of the text.
#[derive(Drop)]
pub struct Config {
    /// Steps in a slice.
    pub slice: u32,
    pub audit: Option<Audit>,
    pub terminals: Rows<Terminal>,
    pub volumes: Rows<VolumeRow>,
    pub printers: Rows<PrinterRow>,
    pub guests: Rows<GuestRow>,
}

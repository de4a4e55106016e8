ghost use Rattle.std.specs.Prelude.{◌≤◌, IfOk};

use crate::found::{found_of, unfit};
use crate::stat::{Identity, is_as_found};
use std::fs::{File, OpenOptions};
use std::io::{Read, Seek, SeekFrom, Write};
use std::os::unix::fs::OpenOptionsExt;
use std::{fs, io};

/// The file of a line or of a drive, opened when it is first needed. A call fails where the file isn't what it was.
#[derive(Drop)]
pub struct DeviceFile {
    pub rt: HostRuntime,
    pub path: String,
    /// Whether it may be opened.
    pub is_usable: bool,
    /// Whether it is made when it is opened, for its owner alone.
    pub is_new: bool,
    /// A descriptor that is held for the file, and given up for it.
    pub place: Option<File>,
    pub file: Option<File>,
    /// Which file it must be, where that is known.
    pub identity: Option<Identity>,
    /// How many bytes it must have.
    pub length: u64,
}

impl DeviceFile {
    /// The open file, at a place.
    fn at(&mut self, place: u64) -> io::Result<&mut File> {
        if self.is_usable && self.file.is_none() {
            let mut options = OpenOptions::new();
            options.read(true).write(true).create_new(self.is_new);
            options.mode(0o600);
            self.place = None;
            self.file = Some(options.open(&self.rt, self.path.as_str())?);
        }
        let Some(file) = &mut self.file else {
            return Err(unfit());
        };
        let found = found_of(&file.metadata()?);
        if !is_as_found(&found, self.identity, self.length) {
            return Err(unfit());
        }
        self.identity = Some(found.identity);
        file.seek(SeekFrom::Start(place))?;
        Ok(file)
    }

    /// Writes all of the bytes after those of before.
    pub fn append(&mut self, bytes: &[u8]) -> io::Result<()> {
        self.at(self.length)?.write_all(bytes)?;
        self.length = self.length.saturating_add(bytes.len() as u64);
        Ok(())
    }

    /// Reads what an open file has from a place on; how many bytes.
    pub fn read_back(&mut self, place: u64, into: &mut [u8; 512]) -> io::Result<usize>
        ensures { IfOk result (λ n. n ≤ 512) }
    {
        if self.file.is_none() {
            return Ok(0);
        }
        self.at(place)?.read(into)
    }

    /// Reads a block.
    pub fn read_block(&mut self, block: u32) -> io::Result<[u8; 512]> {
        let mut bytes = [0; 512];
        self.at(512 * u64::from(block))?.read_exact(&mut bytes)?;
        Ok(bytes)
    }

    /// Writes a block.
    pub fn write_block(&mut self, block: u32, bytes: &[u8; 512]) -> io::Result<()> {
        self.at(512 * u64::from(block))?.write_all(bytes)
    }

    /// An open file is on the disk, and still under its name.
    pub fn settle(&self) -> io::Result<()> {
        let Some(file) = &self.file else {
            return Ok(());
        };
        file.sync_all()?;
        let named = found_of(&fs::symlink_metadata(&self.rt, self.path.as_str())?);
        if is_as_found(&named, self.identity, self.length) {
            Ok(())
        } else {
            Err(unfit())
        }
    }

    /// The folder of an open file is on the disk.
    pub fn settle_folder(&self) -> io::Result<()> {
        match &self.file {
            Some(_) => fs::open(&self.rt, ".")?.sync_all(),
            None => Ok(()),
        }
    }
}

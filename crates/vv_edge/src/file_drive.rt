ghost use Rattle.std.specs.Prelude.{◌≡◌, None};
ghost use Rattle.vv_io.specs.Causes.{HasCause};

use crate::device_file::DeviceFile;
use crate::faults::counted;
use crate::stat::Found;
use crate::telling::{DriveNotes, Stored, with_failed};
use std::cell::Cell;
use std::fs::File;
use std::io;
use std::rc::Rc;
use vv_io::{Drive, DriveFault};

/// A drive over a file, of as many blocks of 512 bytes as the file has whole ones.
#[derive(Drop)]
pub struct FileDrive {
    file: DeviceFile,
    stored: Stored,
    /// Where it is noted that it failed.
    failed: Rc<Cell<DriveNotes>>,
    faults: u64,
}

impl FileDrive {
    /// A drive over the file that was found under a name; none where it can't be a drive.
    pub fn new(
        rt: HostRuntime,
        path: String,
        found: Option<Found>,
        place: Option<File>,
        stored: Stored,
        failed: Rc<Cell<DriveNotes>>,
    ) -> Self {
        let file = DeviceFile {
            rt,
            path,
            is_usable: found.is_some(),
            is_new: false,
            place,
            file: None,
            identity: found.map(|found| found.identity),
            length: found.map_or(0, |found| found.length),
        };
        FileDrive {
            file,
            stored,
            failed,
            faults: 0,
        }
    }

    /// Counts a fault where a call failed, and notes how many blocks were stored before.
    fn told<T>(&mut self, done: io::Result<T>) -> Result<T, DriveFault>
        ensures stored { self.new.stored ≡ self.old.stored }
        ensures cause { HasCause self.old.faults self.new.faults result }
    {
        if done.is_err() {
            self.failed.set(with_failed(self.failed.get(), self.stored));
        }
        counted(&mut self.faults, done, DriveFault)
    }
}

impl Drive for FileDrive {
    ghost kept = { λ d. record { size = d.stored.blocks; blocks = None; faults = d.faults } };

    fn blocks(&self) -> u32 {
        self.stored.blocks
    }

    fn get(&mut self, block: u32, into: &mut [u8; 512]) -> Result<(), DriveFault> {
        let done = self.file.read_block(block);
        *into = self.told(done)?;
        Ok(())
    }

    fn set(&mut self, block: u32, from: &[u8; 512]) -> Result<(), DriveFault> {
        let done = self.file.write_block(block, from);
        self.told(done)?;
        self.stored.stored = self.stored.stored.saturating_add(1);
        Ok(())
    }

    fn sync(&mut self) -> Result<(), DriveFault> {
        let done = self.file.settle();
        self.told(done)
    }
}

ghost use Rattle.std.specs.Prelude.{None};

use crate::device_file::DeviceFile;
use crate::faults::counted;
use crate::found::unfit;
use std::fs::File;
use std::io;
use vv_io::{Line, LineFault};

/// A line into a file of its own, which is made at the first put, for its owner alone.
#[derive(Drop)]
pub struct FileLine {
    file: DeviceFile,
    faults: u64,
}

impl FileLine {
    /// A line that has shown nothing. Where its name isn't free, it fails.
    pub fn new(rt: HostRuntime, path: String, is_free: bool, place: Option<File>) -> Self {
        let file = DeviceFile {
            rt,
            path,
            is_usable: is_free,
            is_new: true,
            place,
            file: None,
            identity: None,
            length: 0,
        };
        FileLine { file, faults: 0 }
    }

    /// Whether it has failed.
    pub fn has_failed(&self) -> bool {
        self.faults > 0
    }

    /// What was shown is on the disk, under its name.
    fn settle(&self) -> io::Result<()> {
        if !self.file.is_usable {
            return Err(unfit());
        }
        self.file.settle()?;
        self.file.settle_folder()
    }
}

impl Line for FileLine {
    ghost seen = { λ l. record { shown = None; faults = l.faults } };

    fn put(&mut self, bytes: &[u8]) -> Result<(), LineFault> {
        let done = self.file.append(bytes);
        counted(&mut self.faults, done, LineFault)
    }

    fn told(&self) -> Option<&[u8]> {
        None
    }

    fn shown_len(&self) -> u64 {
        self.file.length
    }

    fn read_back(&mut self, place: u64, into: &mut [u8; 512]) -> usize {
        self.file.read_back(place, into).unwrap_or(0)
    }

    fn sync(&mut self) -> Result<(), LineFault> {
        let done = self.settle();
        counted(&mut self.faults, done, LineFault)
    }
}

ghost use Rattle.std.specs.Prelude.{◌≤◌, IfOk, None, length};

use crate::faults::shelf_fault;
use crate::found::{found_of, target_of};
use crate::stat::{Identity, Kind, is_among};
use std::alloc::Global;
use std::fs;
use std::fs::File;
use std::io::Read;
use vv_base::{FileName, file_name};
use vv_io::{Shelf, ShelfFault};

/// The most bytes of a file.
const FILE_LIMIT: usize = 16_777_216;

/// Files under the names that are asked for, but for the drives.
#[derive(Drop)]
pub struct FileShelf<'a> {
    rt: &'a HostRuntime,
    drives: &'a [Identity],
    /// The last file that failed; an empty name where none has.
    pub unread: FileName,
    faults: u64,
}

impl<'a> FileShelf<'a> {
    /// A shelf that has not failed.
    pub fn new(rt: &'a HostRuntime, drives: &'a [Identity]) -> Self {
        FileShelf {
            rt,
            drives,
            unread: FileName::new(),
            faults: 0,
        }
    }

    /// The bytes of a plain file, for a hint about it.
    pub fn look_into(&self, alloc: Global, path: &str) -> Option<Vec<u8>> {
        if !matches!(target_of(self.rt, path)?.kind, Kind::File) {
            return None;
        }
        self.read(alloc, &file_name(path.as_bytes())?).ok()
    }

    /// Whether an open file is a drive's, by whatever name.
    fn is_drive(&self, file: &File) -> bool {
        file.metadata().is_ok_and(|metadata| is_among(&found_of(&metadata).identity, self.drives))
    }

    /// The bytes of a file, of which one more than the limit is read at most.
    fn read(&self, alloc: Global, name: &FileName) -> Result<Vec<u8>, ShelfFault>
        ensures { IfOk result (λ bytes. length bytes.items ≤ 16777216) }
    {
        let Ok(path) = str::from_utf8(name.bytes()) else {
            return Err(ShelfFault::Missing);
        };
        let file = fs::open(self.rt, path).map_err(|error| shelf_fault(error.kind()))?;
        if self.is_drive(&file) {
            return Err(ShelfFault::Failed);
        }
        let mut bytes = Vec::new(alloc);
        let read = file.take(FILE_LIMIT as u64 + 1).read_to_end(&mut bytes);
        read.map_err(|error| shelf_fault(error.kind()))?;
        if bytes.len() > FILE_LIMIT {
            return Err(ShelfFault::TooLong);
        }
        Ok(bytes)
    }
}

impl Shelf for FileShelf<'_> {
    ghost files = { λ _. None };

    ghost faults = { λ s. s.faults };

    fn fetch(&mut self, alloc: Global, name: &FileName) -> Result<Vec<u8>, ShelfFault> {
        match self.read(alloc, name) {
            Ok(bytes) => Ok(bytes),
            Err(fault) => {
                self.unread = name.copied();
                self.faults = self.faults.saturating_add(1);
                Err(fault)
            }
        }
    }
}

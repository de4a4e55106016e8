ghost use Rattle.std.specs.Prelude.{◌≡◌, ◌<◌, ◌^◌, length, is_err, vec_len};
ghost use Rattle.vv_io.specs.Blocks.{Gets, Sets};
ghost use Rattle.vv_io.specs.Memory.{MemoryDrive, after_call, after_set, is_next_named, kept_of};

use crate::calls::{counted, is_named};
use crate::{Drive, DriveFault};
use std::marker::Model;

/// A drive in memory, whose calls fail as a list of their numbers says.
#[derive(Drop)]
pub struct MemDrive {
    list: Vec<[u8; 512]>,
    failing: Vec<u32>,
    calls: u64,
    faults: u64,
}

impl Model for MemDrive {
    ghost use Rattle.std.specs.Prelude.{◌<◌, ◌^◌, length, vec_len};
    ghost use Rattle.vv_io.specs.Memory.{MemoryDrive};

    ghost Value = { MemoryDrive };

    ghost view = { λ m. record { blocks = m.list.items; failing = m.failing.items; calls = m.calls; faults = m.faults } };

    ghost invariant = { λ m. vec_len m.list < 2 ^ 32 };
}

impl MemDrive {
    /// A drive of these blocks, of which there are fewer than 4,294,967,296. A call whose number, from 1,
    /// is in `failing` fails.
    pub fn new(list: Vec<[u8; 512]>, failing: Vec<u32>) -> MemDrive
        requires { vec_len list < 2 ^ 32 }
        ensures { result ≡ record { blocks = list.items; failing = failing.items; calls = 0; faults = 0 } }
    {
        MemDrive {
            list,
            failing,
            calls: 0,
            faults: 0,
        }
    }

    /// The blocks.
    pub fn content(&self) -> &[[u8; 512]]
        ensures { result.now ≡ self.now.blocks }
    {
        &self.list
    }
}

impl Drive for MemDrive {
    ghost kept = { kept_of };

    fn blocks(&self) -> u32 {
        self.list.len() as u32
    }

    fn get(&mut self, block: u32, into: &mut [u8; 512]) -> Result<(), DriveFault>
        requires { block < length self.old.blocks }
        ensures gets { Gets (kept_of self.old) (kept_of self.new) block into.old into.new result }
        ensures exact { self.new ≡ after_call self.old }
        ensures fails { is_err result ≡ is_next_named self.old.failing self.old.calls }
    {
        self.calls = counted(self.calls);
        if is_named(&self.failing, self.calls) {
            self.faults = counted(self.faults);
            return Err(DriveFault);
        }
        *into = self.list[block as usize];
        Ok(())
    }

    fn set(&mut self, block: u32, from: &[u8; 512]) -> Result<(), DriveFault>
        requires { block < length self.old.blocks }
        ensures sets { Sets (kept_of self.old) (kept_of self.new) block from.now result }
        ensures exact { self.new ≡ after_set self.old block from.now }
        ensures fails { is_err result ≡ is_next_named self.old.failing self.old.calls }
    {
        self.calls = counted(self.calls);
        if is_named(&self.failing, self.calls) {
            self.faults = counted(self.faults);
            return Err(DriveFault);
        }
        self.list[block as usize] = *from;
        Ok(())
    }
}

ghost use Rattle.std.specs.Prelude.{◌≡◌, ◌<◌, map, vec_len, slice_index_or};
ghost use Rattle.vv_io.specs.Blocks.{SeenDrive, unkept, IsSized, Gets, Sets, GetsFrom, SetsOn, SyncsDrive, SyncsDriveOn};

/// A drive failed.
#[derive(Clone, Copy, Debug, PartialEq, Eq)]
pub struct DriveFault;

/// A drive of blocks of 512 bytes.
pub trait Drive: Drop {
    /// Its number of blocks, which never changes, the blocks, where they are known, and how often it has failed.
    ghost kept: { Self → SeenDrive };

    /// The number of blocks.
    fn blocks(&self) -> u32
        ensures size { result ≡ (kept self.now).size }
        ensures sized { IsSized (kept self.now) };

    /// Reads a block. After a fault nothing has changed, and `into` is as before.
    fn get(&mut self, block: u32, into: &mut [u8; 512]) -> Result<(), DriveFault>
        requires { block < (kept self.old).size }
        ensures { Gets (kept self.old) (kept self.new) block into.old into.new result };

    /// Writes a block. After a fault that block may hold any bytes, as many as before; the others are as before.
    fn set(&mut self, block: u32, from: &[u8; 512]) -> Result<(), DriveFault>
        requires { block < (kept self.old).size }
        ensures { Sets (kept self.old) (kept self.new) block from.now result };

    /// What was written is kept for good, as a file's bytes on its disk; or it is a fault. No block changes.
    fn sync(&mut self) -> Result<(), DriveFault>
        ensures { SyncsDrive (kept self.old) (kept self.new) result }
    {
        Ok(())
    }
}

/// Reads a block of one drive; all other drives stay.
pub fn get_from(
    drives: &mut Vec<Box<dyn Drive>>,
    k: usize,
    block: u32,
    into: &mut [u8; 512],
) -> Result<(), DriveFault>
    requires drive { k < vec_len drives.old }
    requires block { block < (slice_index_or (map (λ d. kept d) drives.old.items) k unkept).size }
    ensures gets { GetsFrom k (map (λ d. kept d) drives.old.items) (map (λ d. kept d) drives.new.items) block into.old into.new result }
    ensures len { vec_len drives.new ≡ vec_len drives.old }
{
    let drive = &mut drives[k];
    get_block(drive, block, into)
}

fn get_block(drive: &mut Box<dyn Drive>, block: u32, into: &mut [u8; 512]) -> Result<(), DriveFault>
    requires { block < (kept drive.old).size }
    ensures { Gets (kept drive.old) (kept drive.new) block into.old into.new result }
{
    drive.get(block, into)
}

/// Writes a block of one drive; all other drives stay.
pub fn set_on(
    drives: &mut Vec<Box<dyn Drive>>,
    k: usize,
    block: u32,
    from: &[u8; 512],
) -> Result<(), DriveFault>
    requires drive { k < vec_len drives.old }
    requires block { block < (slice_index_or (map (λ d. kept d) drives.old.items) k unkept).size }
    ensures sets { SetsOn k (map (λ d. kept d) drives.old.items) (map (λ d. kept d) drives.new.items) block from.now result }
    ensures len { vec_len drives.new ≡ vec_len drives.old }
{
    let drive = &mut drives[k];
    set_block(drive, block, from)
}

fn set_block(drive: &mut Box<dyn Drive>, block: u32, from: &[u8; 512]) -> Result<(), DriveFault>
    requires { block < (kept drive.old).size }
    ensures { Sets (kept drive.old) (kept drive.new) block from.now result }
{
    drive.set(block, from)
}

/// Syncs one drive; all others stay.
pub fn sync_drive(drives: &mut Vec<Box<dyn Drive>>, k: usize) -> Result<(), DriveFault>
    requires { k < vec_len drives.old }
    ensures syncs { SyncsDriveOn k (map (λ d. kept d) drives.old.items) (map (λ d. kept d) drives.new.items) result }
    ensures len { vec_len drives.new ≡ vec_len drives.old }
{
    let drive = &mut drives[k];
    sync_one(drive)
}

fn sync_one(drive: &mut Box<dyn Drive>) -> Result<(), DriveFault>
    ensures { SyncsDrive (kept drive.old) (kept drive.new) result }
{
    drive.sync()
}

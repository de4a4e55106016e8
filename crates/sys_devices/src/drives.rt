ghost use Rattle.std.specs.Prelude.{◌≡◌, ◌<◌, map, vec_len};
ghost use Rattle.sys_devices.specs.Rows.{drive_at};
ghost use Rattle.vv_io.specs.Blocks.{IsSized};

use vv_io::Drive;

/// The number of blocks of one drive.
pub fn blocks_on(drives: &Vec<Box<dyn Drive>>, k: usize) -> u32
    requires { k < vec_len drives.now }
    ensures size { result ≡ (drive_at (map (λ d. kept d) drives.now.items) k).size }
    ensures sized { IsSized (drive_at (map (λ d. kept d) drives.now.items) k) }
{
    let drive = &drives[k];
    count_blocks(drive)
}

fn count_blocks(drive: &Box<dyn Drive>) -> u32
    ensures size { result ≡ (kept drive.now).size }
    ensures sized { IsSized (kept drive.now) }
{
    drive.blocks()
}

/// Room for the bytes of a block.
pub fn room() -> [u8; 512] {
    [0; 512]
}

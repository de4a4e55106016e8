ghost use Rattle.std.specs.Prelude.{◌≡◌, ◌≤◌, ◌<◌, All, IfOk, flat_map, is_err, length, map};
ghost use Rattle.sys_devices.specs.ShownSince.{ShownSince};
ghost use Rattle.sys_output.specs.Parts.{volume_bytes};
ghost use Rattle.sys_store.specs.Blocks.{blocks_of};

use crate::head::put;
use sys_objects::VolumeRow;
use sys_store::Volumes;
use vv_io::{Sink, SinkFault};

/// Shows the `count` blocks of the volume at a place.
fn put_blocks<O: Sink>(out: &mut O, volumes: &Volumes, v: u8, count: u32) -> Result<(), SinkFault>
    requires volume { v < length volumes.now }
    requires count { length (blocks_of volumes.now v) ≡ count }
    ensures shown { ShownSince (is_err result) (O.printed out.old) (O.printed out.new) (volume_bytes (blocks_of volumes.now v)) }
    ensures long { IfOk result (λ _. All (λ b. length b ≡ 512) (blocks_of volumes.now v)) }
{
    let mut bytes = [0; 512];
    for block in 0..count {
        let _ = volumes.read_block(v, block, &mut bytes);
        put(out, &bytes)?;
    }
    Ok(())
}

/// Shows the blocks of each volume, of which its row says how many it has. Where all were shown, each block is known to have
/// 512 bytes.
pub fn put_volumes<O: Sink>(
    out: &mut O,
    rows: &[VolumeRow],
    volumes: &Volumes,
) -> Result<(), SinkFault>
    requires few { length rows.now ≤ 16 }
    requires sizes { map length volumes.now ≡ map (λ row. row.blocks) rows.now }
    ensures shown { ShownSince (is_err result) (O.printed out.old) (O.printed out.new) (flat_map volume_bytes volumes.now) }
    ensures long { IfOk result (λ _. All (λ blocks. All (λ b. length b ≡ 512) blocks) volumes.now) }
{
    for (place, row) in rows.iter().enumerate() {
        put_blocks(out, volumes, place as u8, row.blocks)?;
    }
    Ok(())
}

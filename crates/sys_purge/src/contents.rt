ghost use Rattle.std.specs.Prelude.{◌≡◌, ◌≤◌, ◌⊎◌, IfOk, map};
ghost use Rattle.sys_purge.specs.Input.{purge_images, purge_volumes};

use std::alloc::Global;
use sys_objects::Config;
use vv_base::NoMemory;
use vv_class::{AccessClass, flows};

/// As many as there are of both.
fn fewer(m: usize, n: usize) -> usize
    ensures left { result ≤ m }
    ensures right { result ≤ n }
    ensures one { (result ≡ m) ⊎ (result ≡ n) }
{
    if m <= n { m } else { n }
}

fn copied_bytes(alloc: Global, bytes: &[u8]) -> Result<Vec<u8>, NoMemory>
    ensures { IfOk result (λ copy. copy.items ≡ bytes.now) }
{
    let mut copy = Vec::new(alloc);
    for byte in bytes {
        copy.push(*byte)?;
    }
    Ok(copy)
}

fn copied_blocks(alloc: Global, blocks: &[[u8; 512]]) -> Result<Vec<[u8; 512]>, NoMemory>
    ensures { IfOk result (λ copy. copy.items ≡ blocks.now) }
{
    let mut copy = Vec::new(alloc);
    for block in blocks {
        copy.push(*block)?;
    }
    Ok(copy)
}

/// Of the guests' images, by their places, those of the guests that flow into a class, in their order.
pub fn purge_images(
    alloc: Global,
    c: &Config,
    images: &[Vec<u8>],
    to: &AccessClass,
) -> Result<Vec<Vec<u8>>, NoMemory>
    ensures { IfOk result (λ kept. map (λ image. image.items) kept.items ≡ purge_images c.now.guests (map (λ image. image.items) images.now) to.now) }
{
    let guests = c.guests.as_slice();
    let mut kept = Vec::new(alloc);
    for k in 0..fewer(guests.len(), images.len()) {
        if flows(&guests[k].class, to) {
            kept.push(copied_bytes(alloc, images[k].as_slice())?)?;
        }
    }
    Ok(kept)
}

/// Of the volumes' blocks, by their places, those of the volumes that flow into a class, in their order.
pub fn purge_volumes(
    alloc: Global,
    c: &Config,
    volumes: &[Vec<[u8; 512]>],
    to: &AccessClass,
) -> Result<Vec<Vec<[u8; 512]>>, NoMemory>
    ensures { IfOk result (λ kept. map (λ blocks. blocks.items) kept.items ≡ purge_volumes c.now.volumes (map (λ blocks. blocks.items) volumes.now) to.now) }
{
    let rows = c.volumes.as_slice();
    let mut kept = Vec::new(alloc);
    for k in 0..fewer(rows.len(), volumes.len()) {
        if flows(&rows[k].class, to) {
            kept.push(copied_blocks(alloc, volumes[k].as_slice())?)?;
        }
    }
    Ok(kept)
}

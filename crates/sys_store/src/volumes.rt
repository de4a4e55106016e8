ghost use Rattle.std.specs.Prelude.{◌≡◌, ◌<◌, ◌≤◌, IfOk, OnOk, OnErr, length, slice_set};
ghost use Rattle.sys_store.specs.Blocks.{zero_block, zero_volume};

use std::alloc::Global;
use std::marker::Model;
use vv_base::NoMemory;

/// The volume has no such block.
#[derive(Clone, Copy, Debug, PartialEq, Eq)]
pub struct NoBlock;

/// Volumes by their places, each with its blocks of 512 bytes; seen as the list of the volumes' lists of blocks.
#[derive(Drop)]
pub struct Volumes {
    volumes: Vec<Vec<[u8; 512]>>,
}

impl Model for Volumes {
    ghost use Rattle.std.specs.Prelude.{List, ℕ, map};

    ghost Value = { List (List (List ℕ)) };

    ghost view = { λ v. map (λ blocks. blocks.items) v.volumes.items };
}

impl Volumes {
    ghost use Rattle.std.specs.Prelude.{◌≡◌, ◌<◌, IfOk, OnOk, OnErr, length, map, nat_lt};
    ghost use Rattle.sys_store.specs.Blocks.{zero_volume, HasBlock, LacksBlock, blocks_of, with_block};

    /// Volumes of these sizes in blocks, all bytes zero.
    pub fn new(alloc: Global, sizes: &[u32]) -> Result<Volumes, NoMemory>
        ensures zero { IfOk result (λ v. v ≡ map zero_volume sizes.now) }
        ensures sizes { IfOk result (λ v. map length v ≡ sizes.now) }
    {
        let mut volumes = Vec::new(alloc);
        for size in sizes {
            volumes.push(zero_volume(alloc, *size)?)?;
        }
        Ok(Volumes { volumes })
    }

    /// Whether the volume has a block of this number.
    pub fn has_block(&self, v: u8, block: u32) -> bool
        requires { v < length self.now }
        ensures { result ≡ nat_lt block (length (blocks_of self.now v)) }
    {
        (block as usize) < self.volumes[usize::from(v)].len()
    }

    /// The bytes of a block. `NoBlock` exactly where the volume has no such block; then `into` stays.
    pub fn read_block(&self, v: u8, block: u32, into: &mut [u8; 512]) -> Result<(), NoBlock>
        requires { v < length self.now }
        ensures ok { OnOk result (HasBlock self.now v block into.new) }
        ensures err { OnErr result (LacksBlock self.now v block × (into.new ≡ into.old)) }
    {
        let blocks = &self.volumes[usize::from(v)];
        match blocks.get(block as usize) {
            Some(bytes) => {
                *into = *bytes;
                Ok(())
            }
            None => Err(NoBlock),
        }
    }

    /// Changes the bytes of a block. `NoBlock` exactly where the volume has no such block; then nothing changes.
    pub fn write_block(&mut self, v: u8, block: u32, from: &[u8; 512]) -> Result<(), NoBlock>
        requires { v < length self.old }
        ensures ok { OnOk result (self.new ≡ with_block self.old v block from.now) }
        ensures held { OnOk result (block < length (blocks_of self.old v)) }
        ensures err { OnErr result (LacksBlock self.old v block × (self.new ≡ self.old)) }
    {
        write_in(&mut self.volumes[usize::from(v)], block, from)
    }
}

fn write_in(blocks: &mut Vec<[u8; 512]>, block: u32, from: &[u8; 512]) -> Result<(), NoBlock>
    ensures held { OnOk result (block < length blocks.old.items) }
    ensures ok { OnOk result (blocks.new.items ≡ slice_set blocks.old.items block from.now) }
    ensures err { OnErr result ((length blocks.old.items ≤ block) × (blocks.new.items ≡ blocks.old.items)) }
{
    match blocks.get_mut(block as usize) {
        Some(bytes) => {
            *bytes = *from;
            Ok(())
        }
        None => Err(NoBlock),
    }
}

#[tactic(auto, unfolding(crate::specs::Blocks::zero_block))]
fn zero_block() -> [u8; 512]
    ensures { result ≡ zero_block }
{
    [0; 512]
}

/// A volume of `size` blocks, all bytes zero.
#[tactic(auto, using(crate::proofs::Zero::no_blocks, crate::proofs::Zero::one_block_more, crate::proofs::Zero::length_zero_volume))]
fn zero_volume(alloc: Global, size: u32) -> Result<Vec<[u8; 512]>, NoMemory>
    ensures zero { IfOk result (λ blocks. blocks.items ≡ zero_volume size) }
    ensures size { IfOk result (λ blocks. length blocks.items ≡ size) }
{
    let mut blocks = Vec::new(alloc);
    for _ in 0..size {
        blocks.push(zero_block())?;
    }
    Ok(blocks)
}

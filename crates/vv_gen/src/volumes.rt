ghost use Rattle.std.specs.List.{range_with_len};
ghost use Rattle.std.specs.Prelude.{◌≡◌, ◌%◌, IfOk, OnOk, length, map};
ghost use Rattle.sys_store.specs.Blocks.{zero_block, zero_volume};
ghost use Rattle.vv_gen.specs.Draws.{after_draws, draw};
ghost use Rattle.vv_gen.specs.Volumes.{block_of, blocks_drawn, volumes_of};

use crate::config::{BLOCKS, GUESTS};
use crate::draws::{Draws, drawn};
use std::alloc::Global;
use vv_base::NoMemory;

/// Draws each byte in order.
#[tactic(auto, using(crate::proofs::Drawing::after_none))]
fn fill(block: &mut [u8], draws: &mut Draws)
    ensures block { block.new ≡ map (λ i. draw draws.old.state i % 256) (range_with_len 0 (length block.old)) }
    ensures goes { draws.new.state ≡ after_draws draws.old.state (length block.old) }
{
    for byte in block.iter_mut() {
        *byte = (drawn(draws) % 256) as u8;
    }
}

/// A block whose bytes are drawn in order.
#[tactic(auto, using(crate::proofs::Making::block_made))]
fn drawn_block(draws: &mut Draws) -> [u8; 512]
    ensures block { result ≡ block_of (draw draws.old.state) }
    ensures goes { draws.new.state ≡ after_draws draws.old.state 512 }
{
    let mut block = [0; 512];
    fill(&mut block, draws);
    block
}

/// A volume whose bytes are drawn in order.
#[tactic(auto, using(crate::proofs::Drawing::after_none))]
fn drawn_blocks(alloc: Global, draws: &mut Draws) -> Result<Vec<[u8; 512]>, NoMemory>
    ensures blocks { IfOk result (λ blocks. blocks.items ≡ blocks_drawn (draw draws.old.state)) }
    ensures goes { OnOk result (draws.new.state ≡ after_draws draws.old.state 4096) }
{
    let mut blocks = Vec::new(alloc);
    for _ in 0..BLOCKS {
        blocks.push(drawn_block(draws))?;
    }
    Ok(blocks)
}

#[tactic(auto, unfolding(sys_store::specs::Blocks::zero_block))]
fn zero_block() -> [u8; 512]
    ensures { result ≡ zero_block }
{
    [0; 512]
}

#[tactic(auto, using(sys_store::proofs::Zero::no_blocks, sys_store::proofs::Zero::one_block_more))]
fn zero_blocks(alloc: Global) -> Result<Vec<[u8; 512]>, NoMemory>
    ensures { IfOk result (λ blocks. blocks.items ≡ zero_volume 8) }
{
    let mut blocks = Vec::new(alloc);
    for _ in 0..BLOCKS {
        blocks.push(zero_block())?;
    }
    Ok(blocks)
}

/// The volume whose bytes are drawn, and after it one of zeros for each guest.
pub fn drawn_volumes(alloc: Global, draws: &mut Draws) -> Result<Vec<Vec<[u8; 512]>>, NoMemory>
    ensures volumes { IfOk result (λ v. map (λ blocks. blocks.items) v.items ≡ volumes_of (draw draws.old.state)) }
    ensures goes { OnOk result (draws.new.state ≡ after_draws draws.old.state 4096) }
{
    let mut volumes = Vec::new(alloc);
    volumes.push(drawn_blocks(alloc, draws)?)?;
    for _ in 0..GUESTS {
        volumes.push(zero_blocks(alloc)?)?;
    }
    Ok(volumes)
}

ghost use Rattle.std.specs.Prelude.{◌≡◌, ◌≤◌, IfOk};
ghost use Rattle.vv_gen.specs.Image.{image_of};

use crate::program::{PERIOD_AT, PROGRAM};
use std::alloc::Global;
use vv_base::{NoMemory, put_u16};

/// The image of a guest whose clock has this period.
#[tactic(auto, unfolding(crate::specs::Image::image_of))]
pub fn image(alloc: Global, period: u32) -> Result<Vec<u8>, NoMemory>
    requires some { 1 ≤ period }
    requires few { period ≤ 65536 }
    ensures { IfOk result (λ b. b.items ≡ image_of period) }
{
    let mut bytes = Vec::from_slice(alloc, &PROGRAM)?;
    put_u16(bytes.as_mut_slice(), PERIOD_AT, (65_536 - period) as u16);
    Ok(bytes)
}

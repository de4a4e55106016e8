ghost use Rattle.std.specs.Prelude.{◌≡◌, IfOk, OnOk, map};
ghost use Rattle.vv_gen.specs.Accepted.{IsAccepted};
ghost use Rattle.vv_gen.specs.Draws.{after_draws, draw};
ghost use Rattle.vv_gen.specs.Image.{images_of};
ghost use Rattle.vv_gen.specs.Workload.{generated, workload_of};

use crate::Workload;
use crate::config::{GUESTS, configuration};
use crate::draws::{Draws, drawn};
use crate::events::{ROUNDS, drawn_events};
use crate::image::image;
use crate::volumes::drawn_volumes;
use std::alloc::Global;
use vv_base::NoMemory;

/// An image for each guest, with a period that is drawn.
#[tactic(auto, using(crate::proofs::Drawing::after_none))]
fn drawn_images(alloc: Global, draws: &mut Draws) -> Result<Vec<Vec<u8>>, NoMemory>
    ensures images { IfOk result (λ v. map (λ b. b.items) v.items ≡ images_of (draw draws.old.state)) }
    ensures goes { OnOk result (draws.new.state ≡ after_draws draws.old.state 8) }
{
    let mut images = Vec::new(alloc);
    for _ in 0..GUESTS {
        let period = 600 + drawn(draws) % 1_000;
        images.push(image(alloc, period)?)?;
    }
    Ok(images)
}

/// The workload that is drawn from a number. It fails where memory runs out.
pub fn workload(alloc: Global, number: u32) -> Result<Workload, NoMemory>
    ensures exact { IfOk result (λ w. generated w ≡ workload_of number) }
    ensures accepted { IfOk result (λ w. IsAccepted (generated w)) }
{
    let mut draws = Draws { state: number };
    let config = configuration(alloc, 1 + drawn(&mut draws) % 1_000)?;
    let images = drawn_images(alloc, &mut draws)?;
    let volumes = drawn_volumes(alloc, &mut draws)?;
    let events = drawn_events(alloc, &mut draws)?;
    Ok(Workload {
        config,
        images,
        volumes,
        events,
        rounds: ROUNDS,
    })
}

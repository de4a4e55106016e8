ghost use Rattle.std.specs.Prelude.{◌≡◌, ◌<◌, ◌^◌};
ghost use Rattle.vv_gen.specs.Draws.{draw, next};

/// The generator of numbers: each draw replaces its state.
#[derive(Drop)]
pub struct Draws {
    pub state: u32,
}

fn next(state: u32) -> u32
    ensures { result ≡ next state }
{
    state.wrapping_mul(1_664_525).wrapping_add(1_013_904_223)
}

/// The next draw: the upper 16 bits of the new state.
#[tactic(auto, using(crate::proofs::Drawing::first_draw))]
pub fn drawn(draws: &mut Draws) -> u32
    ensures value { result ≡ draw draws.old.state 0 }
    ensures small { result < 2 ^ 16 }
    ensures goes { draws.new.state ≡ next draws.old.state }
{
    draws.state = next(draws.state);
    draws.state / 65_536
}

//! A guest on the simulated machine, for worked examples: a stage whose calls keep that the guest is in the machine, and
//! its registers and memory by their places.
#![tactic(auto)]

mod allowed;
mod place;
mod snapshot;
mod stage;

use allowed::is_allowed;
pub use place::{Place, REGISTERS};
pub use snapshot::Snapshot;
pub use stage::{Kinds, Quanta, Stage, sums};

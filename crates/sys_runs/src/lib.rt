//! Whole runs, saved and resumed ones too: power comes up, rounds are made, power goes down.
#![tactic(auto)]

mod extending;
mod given;
mod laws;
mod resuming;
mod rounds;
mod running;
mod saving;

pub use extending::extend;
pub use given::run_with;
pub use laws::no_volumes_touch_no_drive;
pub use resuming::resume;
pub use rounds::make_rounds;
pub use running::{Ran, run};
pub use saving::{Saved, save};

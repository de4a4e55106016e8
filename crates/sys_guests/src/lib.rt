//! Several guests, laid out in one machine's memory; one of them started, stepped or stopped.
#![tactic(auto)]

mod image;
mod kernel;
mod laws;
mod loading;
mod placing;
mod turns;

pub use kernel::{Kernel, MOST_SHOWN};
pub use laws::guests_lie_apart;
pub use loading::{first_misfit, load_guests};
pub use placing::place_guests;
pub use turns::{TimeSlice, advance_at, start_at, step_at, stop_at, type_at};

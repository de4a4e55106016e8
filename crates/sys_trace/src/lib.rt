//! The run of one guest with a line for each of its steps.
#![tactic(auto)]

mod before;
mod reading;
mod step_line;
mod tracing;
mod words;

pub use tracing::{Traced, trace};

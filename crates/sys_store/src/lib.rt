//! The blocks of volumes, and the text of a print job.
#![tactic(auto)]

mod job;
mod volumes;

pub use job::print_job;
pub use volumes::{NoBlock, Volumes};

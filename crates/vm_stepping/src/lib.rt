//! A guest's steps: the machine's runs over its shadow tables, and the kernel's work between.
#![tactic(auto)]

mod bursts;
mod counts;
mod guarded;
mod made;
mod met;
mod missing;
mod sensing;
mod turns;

pub use counts::Counts;
pub use turns::{Once, advance, advance_once};
pub use vm_exception::Note;

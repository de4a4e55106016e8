//! The real machine's interface, and as a definition what it does over its own page tables.
#![tactic(auto)]

mod hardware;
mod laws;
mod world;

pub use hardware::Hardware;
pub use laws::{movpsl_shows_the_real_status_word, runs_go_on};
pub use vax_arch::{Mode, Psl};
pub use vax_table::{Dest, Refusal, Sens, Trapped};
pub use world::{Exit, World};

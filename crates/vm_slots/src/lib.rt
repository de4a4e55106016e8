//! Which contexts of a guest have one of its four process slots.
#![tactic(auto)]

mod context;
mod slots;

pub use context::{Context, Taken};
pub use slots::Slots;

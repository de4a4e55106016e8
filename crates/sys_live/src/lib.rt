//! A run whose events are typed while it goes on: rounds are made one by one, each as its lines end.
#![tactic(auto)]

mod session;
mod typing;

pub use session::{Lived, live};
pub use typing::Typing;

//! A guest on its private virtual VAX, in a machine with real page tables.
#![tactic(auto)]

mod bytes;
mod changes;
mod guest;
mod laws;
mod typing;

pub use guest::Guest;
pub use laws::guests_stand_by_themselves;
pub use vm_stepping::{Counts, Note, Once};

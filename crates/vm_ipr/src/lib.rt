//! A guest's processor registers: what MTPR writes and MFPR reads.
#![tactic(auto)]

mod read;
mod write;

pub use read::{is_readable, mfpr};
pub use vm_state::{RegisterEffect, ReservedOperand};
pub use write::mtpr;

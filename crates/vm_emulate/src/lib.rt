//! Emulation of a guest's sensitive instructions, and of a PROBE that the machine leaves, over its shadow page tables.
#![tactic(auto)]

mod changes;
mod emulated;
mod emulating;
mod fetches;
mod halts;
mod loads;
mod moves;
mod probing;
mod reading;
mod returns;
mod saves;

pub use emulated::Emulated;
pub use emulating::emulate;

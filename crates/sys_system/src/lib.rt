//! One round of all guests: its events, slices and transfers; power-up, power-down, and the snapshot's moment.
#![tactic(auto)]

mod assembling;
mod consoles;
mod counting;
mod given;
mod parts;
mod power;
mod resuming;
mod rounds;
mod saving;
mod system;
mod turns;
mod watching;

pub use power::PowerFault;
pub use sys_guests::TimeSlice;
pub use system::System;
pub use watching::Watched;

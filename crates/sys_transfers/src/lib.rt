//! The transfers that guests ask for by packets: blocks of volumes read and written, texts printed.
#![tactic(auto)]

mod guests;
mod moves;
mod packets;
mod printing;
mod serving;
mod transferring;

pub use serving::serve;
pub use transferring::transfer;

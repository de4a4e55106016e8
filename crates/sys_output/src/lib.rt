//! Dumps of guests, and the parts of a snapshot, shown line by line.
#![tactic(auto)]

mod all;
mod blocks;
mod dumps;
mod guests;
mod head;
mod server;
mod texts;

pub use all::dump_all;
pub use blocks::put_volumes;
pub use guests::put_guests;
pub use head::put_head;
pub use server::{put_mounts, put_seats};

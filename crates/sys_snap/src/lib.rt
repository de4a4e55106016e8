//! Snapshots: what a system is between two rounds, as bytes.
#![tactic(auto)]

mod cursor;
mod devices;
mod fault;
mod guests;
mod laws;
mod mounts;
mod reading;
mod record;
mod registers;
mod seats;
mod snap;

pub use fault::{SnapError, SnapFault};
pub use laws::{a_snapshot_is_of_one_moment, only_snapshots_are_read, snapshots_are_read_exactly};
pub use reading::read_snap;
pub use record::guest_record;
pub use snap::{GuestSnap, Snap};

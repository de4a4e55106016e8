//! The lines and drives: marks of failed ones, volumes, the operator's screen, the sync. There are 32 lines and 16 drives.
//! Volumes are loaded from drives and stored to them; the operator's screen shows what lines got.
#![tactic(auto)]

mod device;
mod drives;
mod lines;
mod loading;
mod piece;
mod screen;
mod sink;
mod storing;
mod syncing;

pub use device::Device;
pub use lines::{Marks, first_marked, show_each, show_whole};
pub use loading::{LoadFault, first_of_another_size, load_volumes};
pub use piece::pieces_law;
pub use screen::{Screen, echo, screens_of};
pub use sink::put_once;
pub use storing::store_volumes;
pub use syncing::{sync_drives, sync_lines};

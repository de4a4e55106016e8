//! The public call `vvmm_run`, which does what the words say, and the sync of its devices. It serves any machine, files, lines
//! and drives.
#![tactic(auto)]

mod devices;
mod live;
mod loading;
mod playing;
mod report;
mod serving;
mod snaps;
mod stop;
mod top;
mod traces;

pub use devices::{Devices, devices_of};
pub use playing::close;
pub use serving::serve;
pub use top::vvmm_run;

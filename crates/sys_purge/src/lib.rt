//! What of a run's input may flow to an observer, and that nothing else matters: non-interference.
#![tactic(auto)]

mod contents;
mod events;
mod laws;
mod purge;

pub use contents::{purge_images, purge_volumes};
pub use events::purge_events;
pub use laws::{
    a_device_keeps_its_bytes, a_device_keeps_what_it_is_shown, a_guest_more_adds_no_blocks,
    a_guest_more_adds_nothing, a_purge_keeps_drives, a_purge_keeps_lines, a_purge_keeps_verdicts,
    a_purged_run_begins_with_a_purged_moment, a_volume_keeps_its_blocks,
    devices_depend_on_what_flows, purged_is_accepted, volumes_depend_on_what_flows,
};
pub use purge::purge_config;

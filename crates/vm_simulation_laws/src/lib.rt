//! Laws that the machine over shadow tables does the guest's steps, and misses only first touches. One instruction of the machine
//! is one step of the guest on its private virtual VAX.
#![tactic(auto)]

mod laws;
mod misses;
mod payments;
mod touches;

pub use laws::{
    claimed_frames_are_written, exits_meet_the_guest, instructions_retire_as_the_guests,
    runs_go_as_the_guest,
};
pub use misses::{
    a_filled_page_is_one_less, a_miss_is_counted, entries_are_valid, filled_entries_stay,
    fills_keep_filled, found_pages_have_entries, marks_are_dropped, new_tables_have_present,
    one_frame_is_dropped, resets_keep_present, retired_steps_are_counted, steps_keep_present,
    switches_retell, touches_are_counted, writes_are_moves, writes_keep_present,
};
pub use payments::{
    fills_are_tries, nothing_is_owed, nothing_is_paid, nothing_is_tried, payments_follow,
    runs_are_paid, steps_are_paid, steps_settle, touches_follow, tries_are_owed, tries_follow,
};
pub use touches::{misses_are_touched, retired_pages_are_filled, stopped_pages_are_filled};

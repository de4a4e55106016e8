//! Laws that nothing uses: which answers must come, what reaches what, what instructions depend on. Others speak of accepted
//! audits, and of what the lines of one guest get.
#![tactic(auto)]

mod accepted;
mod laws;
mod live;
mod machine;
mod others;
mod reach;
mod snaps;
mod traces;

pub use accepted::the_audit_line_of_a_run_is_an_audit;
pub use laws::{
    a_broken_rule_is_told, a_configuration_is_shown, a_failed_line_is_told, a_file_is_shown,
    a_guest_runs_alone, a_load_names_a_failed_line, a_missing_configuration_is_told,
    a_missing_file_is_told, a_missing_image_is_told, a_refused_configuration_is_told,
    a_refused_line_is_told, a_refused_script_is_told, a_run_names_a_failed_drive,
    a_run_names_a_failed_line, a_too_long_configuration_is_told, a_too_long_file_is_told,
    a_too_long_image_is_told, load_has_few_answers, load_is_complete, run_is_complete,
    solo_is_complete, the_first_missing_file_is_told, the_first_too_long_file_is_told,
};
pub use live::{
    a_line_more_is_alike, a_live_run_names_a_failed_drive, a_live_run_names_a_failed_line,
    a_refused_configuration_to_live_is_told, live_is_complete, live_runs_agree,
    the_first_image_to_live_that_does_not_fit_is_told, the_first_missing_file_to_live_is_told,
    the_first_too_long_file_to_live_is_told, the_first_volume_to_live_of_another_size_is_told,
    typing_keeps_drives, typing_keeps_lines,
};
pub use machine::{
    instructions_change_what_they_read, instructions_depend_on_what_they_read,
    reads_are_at_the_same_places,
};
pub use others::other_devices_are_left;
pub use reach::{
    closed_sets_are_apart, devices_depend_on_what_reaches, what_reach_does_not_name_is_apart,
};
pub use snaps::{
    a_refused_configuration_to_save_is_told, a_refused_script_to_resume_is_told,
    a_refused_script_to_save_is_told, a_refused_snapshot_is_told, a_resume_names_a_failed_drive,
    a_resume_names_a_failed_line, a_save_names_a_failed_line, a_too_large_snapshot_is_told,
    extend_is_complete, parts_of_a_run_are_one_run, resume_is_complete, save_is_complete,
    the_first_image_to_save_that_does_not_fit_is_told, the_first_missing_file_to_resume_is_told,
    the_first_missing_file_to_save_is_told, the_first_too_long_file_to_resume_is_told,
    the_first_too_long_file_to_save_is_told, the_first_volume_to_resume_of_another_size_is_told,
    the_first_volume_to_save_of_another_size_is_told,
};
pub use traces::{a_trace_is_the_run_of_solo, trace_is_complete};

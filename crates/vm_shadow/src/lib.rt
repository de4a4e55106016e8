//! Shadow page tables of a guest, filled on demand, kept across steps, and never stale. Four slots keep the tables of processes.
#![tactic(auto)]

mod fills;
mod flags;
mod guards;
mod laws;
mod made;
mod marks;
mod notes;
mod records;
mod scans;
mod shadow;
mod source;
mod stores;
mod switches;

pub use laws::{
    filled_entries_are_found, misses_are_of_empty_entries, modify_bits_are_the_guests,
    probes_agree, probes_find_filled_entries, the_machine_hears_the_guest,
    the_tables_mirror_the_guests,
};
pub use shadow::Shadow;
pub use source::Source;

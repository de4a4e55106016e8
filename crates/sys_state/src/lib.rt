//! A run of several guests, as definitions: events, turns, transfers, what lines and drives get. Each guest is alone on its
//! private virtual VAX. The laws of these definitions are here too.
#![tactic(auto)]

mod laws;

pub use laws::{a_run_is_cut_anywhere, any_round, any_schedule, same_counts, same_touches};

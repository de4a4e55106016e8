//! The secure server: what a line asks for, its verdict, what a granted command does.
#![tactic(auto)]

mod command;
mod granting;
mod judging;
mod line;

pub use command::{Command, NamedCommand, Rule, ServerState, Verdict};
pub use granting::apply;
pub use judging::{reply, verdict};
pub use line::{asked_in, lines_law};

//! The workload of `load`, drawn from one number: eight guests, their volumes, and what is typed. Each guest has a terminal, a
//! printer and a volume; all read one more volume. Lines are typed in twenty rounds.
#![tactic(auto)]

mod config;
mod draws;
mod events;
mod generate;
mod image;
mod load;
mod program;
mod volumes;

pub use generate::workload;
pub use load::Workload;

//! What happens at terminals: breaks, typed lines, and commands at the secure server.
#![tactic(auto)]

mod answering;
mod commands;
mod consoles;
mod events;
mod guests;
mod shows;
mod texts;

pub use consoles::{console_of, is_at};
pub use events::happen;

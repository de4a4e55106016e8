//! The objects of a configuration, and the rules 11 to 18, which speak of several.
#![tactic(auto)]

mod errors;
mod judging;
mod records;
mod rules;

pub use errors::{ConfigError, ConfigFault, fault};
pub use judging::judge;
pub use records::{Audit, Config, GuestRow, Mount, PrinterRow, Rows, Terminal, VolumeRow};
pub use rules::same_class;

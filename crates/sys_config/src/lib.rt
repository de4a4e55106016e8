//! Reads a configuration's text by the rules 0 to 10, and writes it in version 2.
#![tactic(auto)]

mod config;
mod entries;
mod guests;
mod lists;
mod mounts;
mod named;
mod numbers;
mod reads;
mod top;
mod write;

pub use config::{config_laws, document, read_config};
pub use sys_objects::{
    Audit, Config, ConfigError, ConfigFault, GuestRow, Mount, PrinterRow, Rows, Terminal, VolumeRow,
};
pub use write::migrate_text;

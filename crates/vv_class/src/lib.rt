//! Access classes: which flows into which, and their texts.
#![tactic(auto)]

mod class;
mod scan;
mod text;

pub use class::{AccessClass, flows, join, order_laws};
pub use text::{ClassFault, read_class, text_laws, write_class};

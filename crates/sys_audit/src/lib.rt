//! The text of an audit record.
#![tactic(auto)]

mod audit;

pub use audit::audit_text;

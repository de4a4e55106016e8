//! Whether bytes are what an audit line can have been shown under a configuration.
#![tactic(auto)]

mod checking;
mod fault;
mod laws;
mod reading;
mod replay;

pub use checking::check_audit;
pub use fault::AuditFault;
pub use laws::{
    a_record_has_one_reading, mounts_alone_tell, the_first_lines_of_an_audit_are_an_audit,
    what_says_ok_is_granted,
};

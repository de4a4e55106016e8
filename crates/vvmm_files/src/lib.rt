//! What words ask for, the files that a command needs, the answers' texts and codes. Files are fetched, and read in their order;
//! one is assembled, listed or disassembled.
#![tactic(auto)]

mod answer;
mod commands;
mod fetching;
mod solo;
mod status;
mod stop;
mod words;

pub use answer::{Answer, fault_text};
pub use commands::{asm, dis, list};
pub use fetching::{
    Inputs, InputsToLive, InputsToResume, InputsToSave, Recorded, fetch_audit, fetch_config,
    fetch_run, fetch_to_extend, fetch_to_live, fetch_to_resume, fetch_to_save,
};
pub use solo::solo_inputs;
pub use status::{Status, status_code, status_text};
pub use stop::CommandFault;
pub use words::{AuditOrder, LiveOrder, Order, Request, ResumeOrder, RunOrder, parse};

//! A guest's state, and what a guest does on its private virtual VAX, as definitions: translation over its own tables,
//! exceptions and interrupts, processor registers, process contexts, and a step.
#![tactic(auto)]

mod exception;
mod guest_state;
mod laws;
mod register;
mod stacks;
mod stops;
mod transfer;
mod walk;

pub use exception::Exc;
pub use guest_state::GuestState;
pub use laws::{
    steps_are_counted, steps_keep_allowed_registers, steps_show_few, stopped_guests_stay,
    walks_find_one_entry,
};
pub use register::{Register, RegisterEffect, ReservedOperand};
pub use stacks::{pointer, set_pointer, stack_in};
pub use stops::{StopCode, StopReason};
pub use transfer::Accept;
pub use walk::{MemFault, Walk};

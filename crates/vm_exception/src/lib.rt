//! Pending interrupts, and how an exception or interrupt is initiated; the text of a stop. The kernel does this between a guest's
//! instructions, over its shadow page tables.
#![tactic(auto)]

mod attempts;
mod beginning;
mod entry;
mod initiated;
mod initiating;
mod note;
mod pending;
mod pushes;
mod stop;
mod writes;

pub use beginning::{begin, interrupt};
pub use entry::vector_offset;
pub use initiated::Initiated;
pub use initiating::initiate;
pub use note::Note;
pub use pending::{Source, due};
pub use pushes::{Home, Walked, walk_pushes};
pub use stop::show_stop;
pub use vm_state::Exc;
pub use writes::{push, put_homes};

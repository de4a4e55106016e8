//! Translation over a guest's own page tables, which lie in its part of a machine's memory.
#![tactic(auto)]

mod lookup;
mod partition;
mod translate;

pub use lookup::look_up;
pub use translate::{walk, walk_found};
pub use vax_arch::Lookup;
pub use vm_state::{MemFault, Walk};

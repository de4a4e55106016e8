//! The assembler's language as definitions, and the instructions' names.
#![tactic(auto)]

mod fault;
mod laws;
mod lookup;
mod table;

pub use fault::{AsmError, AsmFault, AsmKind};
pub use laws::names_are_apart;
pub use lookup::{mnemonic, opcode};

//! Evaluates operands in each addressing mode, with their side effects, or finds the first trouble.
#![tactic(auto)]

mod address;
mod instruction;
mod kind;
mod operand;
mod prepared;
mod space;
mod values;

pub use instruction::{evaluate, evaluate_into, evaluate_trap};
pub use kind::{Base, Kind};
pub use prepared::{Operand, Prepared, forms};
pub use space::Space;
pub use values::Values;
pub use vax_table::Dest;
pub use vax_table::evaluation::{Operands, Trouble};

//! The integer arithmetic and logic of the instructions: values, condition codes and traps.
#![tactic(auto)]

mod compute;
mod exact;

pub use compute::alu;
pub use vax_table::{Alu, AluOp};

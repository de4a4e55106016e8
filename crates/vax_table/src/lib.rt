//! The table of the instructions, and what bytes spell an instruction.
#![tactic(auto)]

mod act;
mod answer;
mod decoded;
pub mod effect;
pub mod evaluation;
mod forms;
mod laws;
mod lookup;
mod meaning;
mod meanings;
mod packed_rows;
mod plan_laws;
mod sizes;

pub use act::{Dest, Refusal, Sens, Trapped};
pub use answer::{Alu, AluOp};
pub use decoded::{Decoded, Spec};
pub use forms::{Access, Form, Row};
pub use laws::{no_spelling_begins_another, one_spelling, reading_is_exact, spellings_are_short};
pub use lookup::{operation, row};
pub use meaning::{Condition, Inputs, Operation, Target};
pub use plan_laws::{
    claims_are_kept, claims_are_stores, instructions_are_local, instructions_claim_their_stores,
    only_movpsl_depends_on_more, plan_troubles_are_reached, plans_are_local, plans_claim_exactly,
    registers_are_kept, stores_are_claimed, stores_are_few, tries_are_local, tries_look_at_stores,
    troubles_are_reached,
};
pub use sizes::{displacement_width, value_size};

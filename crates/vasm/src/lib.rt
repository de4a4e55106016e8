//! The assembler: reads a text line by line, and gives its bytes, or its listing.
#![tactic(auto)]

mod cutting;
mod labels;
mod line;
mod listing;
mod numbers;
mod operand;
mod parse_operand;
mod parse_statement;
mod put;
mod reach;
mod size;
mod specifier;
mod statement;
mod text;

pub use line::{Line, line_in};
pub use listing::list;
pub use parse_statement::{Statement, forms_of};
pub use specifier::operand_in;
pub use text::assemble;

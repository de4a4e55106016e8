//! The disassembler: the text of an image's bytes.
#![tactic(auto)]

mod image;
mod laws;
mod operand;
mod put;

pub use image::{disassemble, front};
pub use laws::{assembling_undoes_disassembling, reading_undoes_printing};
pub use put::Line;

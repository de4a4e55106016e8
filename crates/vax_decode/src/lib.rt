//! Decodes an instruction from its bytes, and encodes it.
#![tactic(auto)]

mod laws;
mod outcome;
mod read;
mod scan;
mod write;

pub use laws::{beginnings_need_more, decoding_undoes_encoding};
pub use outcome::{Decode, DecodeFault, Front};
pub use scan::{decode, decode_into};
pub use vax_table::{Decoded, Spec};
pub use write::encode;

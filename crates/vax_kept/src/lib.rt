//! Decoded instructions that are kept, and found again while memory has the bytes that spell them. Each is decoded and prepared
//! once, and found by its address.
#![tactic(auto)]

mod changed;
mod code;
mod fault;
mod fetching;
mod kept;

pub use changed::sum_after;
pub use code::Code;
pub use fault::Fault;
pub use fetching::{fetch, has_at, has_known, has_known_in_page, has_short, renew};
pub use kept::Kept;

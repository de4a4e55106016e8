//! Access modes, the PSL, page table entries, protection codes, ring compression, REI's tests, and the walk.
#![tactic(auto)]

mod mode;
mod protection;
mod psl;
mod pte;
mod walk;
mod walk_laws;

pub use mode::{Intent, Mode};
pub use protection::{Prot, compress, compression_law, may, ring_may};
pub use psl::{Psl, rei_allowed};
pub use pte::Pte;
pub use walk::{Grant, Lookup, REGION};
pub use walk_laws::{lookups_are_aligned, lookups_are_inside, lookups_read_one_longword};

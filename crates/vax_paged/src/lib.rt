//! The machine's memory as its page tables show it, and what is known of its pages.
#![tactic(auto)]

mod entries;
mod known;
mod memory;
mod modes;
mod pages;
mod space;
mod stores;

pub use entries::{Entry, Paged};
pub use known::{Known, Learned, Mapped};
pub use memory::{byte_in, number_in, number_inside};
pub use modes::KnownPages;
pub use pages::ModePages;
pub use stores::{store_all, store_at};

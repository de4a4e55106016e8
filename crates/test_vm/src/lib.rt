//! Worked examples of one guest over the simulated machine: the kernel's calls, and what its work costs in longwords of a machine
//! that counts them. Guests whose code and tables are drawn at random: the outcome doesn't depend on how their steps are cut, nor
//! on the machine on which each step is taken. And the shadow page tables, by a driver whose calls keep that they stand for the
//! guest's, and a slow walk of the machine's that is compared with the guest's.
#![tactic(auto)]

#[cfg(test)]
mod compare;
#[cfg(test)]
mod counted;
#[cfg(test)]
mod driver;
#[cfg(test)]
mod machine_walks;
#[cfg(test)]
mod registers;
#[cfg(test)]
mod scenes;

#[cfg(test)]
pub use counted::{Cost, Counted};
#[cfg(test)]
pub use driver::{BASE, Bench, Event, PAGES};
#[cfg(test)]
pub use machine_walks::{NoPlace, real_entry, real_walk};
#[cfg(test)]
pub use registers::{MAPPED, Registers};
#[cfg(test)]
pub use scenes::{Line, play};

#[cfg(test)]
mod apart;
#[cfg(test)]
mod calls;
#[cfg(test)]
mod code;
#[cfg(test)]
mod contexts;
#[cfg(test)]
mod costs;
#[cfg(test)]
mod draw;
#[cfg(test)]
mod events;
#[cfg(test)]
mod forms;
#[cfg(test)]
mod guests;
#[cfg(test)]
mod looks;
#[cfg(test)]
mod loops;
#[cfg(test)]
mod machine_rows;
#[cfg(test)]
mod misses;
#[cfg(test)]
mod modified;
#[cfg(test)]
mod ports;
#[cfg(test)]
mod slots;
#[cfg(test)]
mod tables;
#[cfg(test)]
mod tally;
#[cfg(test)]
mod written;

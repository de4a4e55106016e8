//! Plain instructions in a normal form, by which they are done at once.
#![tactic(auto)]

mod bit_test;
mod carry_out;
mod in_memory;
mod indexed;
mod make;
mod number;
mod probe;
mod push;
mod quad;
mod rarer;
mod rarer_shape;
mod reach;
mod shape;
mod status;
mod subroutine;
mod total;
mod touches;

pub use bit_test::BitTest;
pub use carry_out::{After, go_on};
pub use in_memory::Found;
pub use make::normal_of;
pub use rarer::{Rarer, rarer_of};
pub use rarer_shape::{Indexed, IndexedReach, ProbeTest, StatusMove};
pub use shape::{
    Computation, Countdown, InMemory, Normal, Number, QuadMove, QuadSource, Reach, RegisterPair,
    Shape, Source,
};
pub use subroutine::{Call, return_address, return_to};
pub use total::sum_of;
pub use touches::in_memory_of;

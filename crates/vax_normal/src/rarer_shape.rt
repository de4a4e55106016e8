ghost use Rattle.std.specs.Prelude.{◌<◌, ◌≢◌};
ghost use Rattle.vv_base.specs.declared.width.Width.TheVariants.{Quad};

use crate::shape::{Number, Source};
use vax_arch::Intent;
use vax_table::AluOp;
use vv_base::Width;

/// MOVPSL to a register.
#[derive(Clone, Copy)]
pub struct StatusMove {
    pub register: u8,
    pub length: u32,
    ghost there: { register < 15 },
}

/// PROBER or PROBEW of numbers that are had at once: a mode, how many bytes, and the address of the first.
#[derive(Clone, Copy)]
pub struct ProbeTest {
    pub intent: Intent,
    pub mode: Number,
    pub bytes: Number,
    pub base: Number,
    pub length: u32,
}

/// A reference to memory with an index: its address is a register and an offset, and the index register as many times as the
/// number there has bytes, modulo 2^32.
#[derive(Clone, Copy)]
pub struct IndexedReach {
    pub base: u8,
    pub index: u8,
    pub width: Width,
    pub offset: u32,
    ghost there: { base < 15 },
    ghost indexed: { index < 15 },
}

/// An operation of the arithmetic in normal form that refers to memory once, with an index: it reads a number there, or claims
/// the place for its result.
#[derive(Clone, Copy)]
pub struct Indexed {
    pub op: AluOp,
    pub width: Width,
    pub first: Source,
    pub second: Source,
    /// The register that gets the result, or 15, where none does.
    pub register: u8,
    pub intent: Intent,
    pub reach: IndexedReach,
    pub length: u32,
    ghost narrow: { width ≢ Quad },
}

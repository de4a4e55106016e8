ghost use Rattle.std.specs.Prelude.{◌≡◌, ◌≢◌, ◌<◌, IfSome};
ghost use Rattle.vv_base.specs.declared.width.Width.TheVariants.{Quad};
ghost use Rattle.vax_normal.specs.Widths.{width-prop};

use vax_table::{AluOp, Condition};
use vv_base::Width;

/// A number that is had at once: the bits of a register that a mask has, and an offset, modulo 2^32. A constant has a mask of
/// none. The registers are those before the instruction, so PC is its own address.
#[derive(Clone, Copy)]
pub struct Number {
    pub register: u8,
    pub mask: u32,
    pub offset: u32,
    ghost there: { register < 16 },
}

/// An operation of the arithmetic on numbers that are had at once, whose result goes to a register or nowhere.
#[derive(Clone, Copy)]
pub struct Computation {
    pub op: AluOp,
    pub width: Width,
    pub first: Number,
    pub second: Number,
    /// The register that gets the result, or 15, where none does.
    pub register: u8,
    ghost narrow: { width ≢ Quad },
}

/// SOBGEQ where it branches at zero too, else SOBGTR, of a register.
#[derive(Clone, Copy)]
pub struct Countdown {
    pub at_zero: bool,
    pub register: u8,
    ghost there: { register < 15 },
}

/// What an instruction does at once. A branch goes on by a number of bytes from its own address.
#[derive(Clone, Copy)]
pub enum Shape {
    Computes(Computation),
    /// A branch by the condition codes, and NOP, which always goes on by its own bytes.
    Branches(Condition, u32),
    /// BLBS or BLBC of a number, and BBS or BBC of a register: branches where any of these bits is set, or where none is.
    BranchesOnBits(bool, Number, u32, u32),
    CountsDown(Countdown, u32),
}

/// An instruction in normal form, with its length.
#[derive(Clone, Copy)]
pub struct Normal {
    pub shape: Shape,
    pub length: u32,
}

/// A reference to memory by a register: its address is that and an offset, modulo 2^32. Then the register goes on by a step,
/// where that isn't 0.
#[derive(Clone, Copy)]
pub struct Reach {
    pub offset: u32,
    pub step: u32,
    pub register: u8,
    pub width: Width,
    ghost there: { register < 15 },
}

/// A number that is had at once, or bits of one that is read or claimed in memory.
#[derive(Clone, Copy)]
pub struct Source {
    pub number: Number,
    pub read: u32,
    pub claimed: u32,
}

/// An instruction in normal form that refers to memory: an operation of the arithmetic, which reads one reference at most, and
/// claims one at most, for its result.
#[derive(Clone, Copy)]
pub struct InMemory {
    pub op: AluOp,
    pub width: Width,
    pub first: Source,
    pub second: Source,
    /// The register that gets the result, or 15, where none does.
    pub register: u8,
    pub reads: Option<Reach>,
    pub writes: Option<Reach>,
    pub length: u32,
    ghost narrow: { width ≢ Quad },
    ghost claims: { IfSome writes (λ p. p.width ≡ width) } by { width-prop (λ p. p.width) writes width },
}

/// A register, which has the low longword of a quadword, and the next one, which has the other.
#[derive(Clone, Copy)]
pub struct RegisterPair {
    pub register: u8,
    ghost there: { register < 14 },
}

/// Where a quadword comes from.
#[derive(Clone, Copy)]
pub enum QuadSource {
    Constant(u64),
    Registers(RegisterPair),
    /// It is read in memory.
    Read,
}

/// CLRQ or MOVQ in normal form: a quadword, for which one reference at most is read, goes to two registers or where one is
/// claimed.
#[derive(Clone, Copy)]
pub struct QuadMove {
    pub source: QuadSource,
    /// The register that gets the low longword, or 15, where none does.
    pub register: u8,
    pub reads: Option<Reach>,
    pub writes: Option<Reach>,
    pub length: u32,
    ghost there: { register ≢ 14 },
    ghost claims: { IfSome writes (λ p. p.width ≡ Quad) } by { width-prop (λ p. p.width) writes Quad },
}

ghost use Rattle.std.specs.Prelude.{◌≡◌, ◌<◌};
ghost use Rattle.vax_table.specs.Effects.{long_of};

use crate::act::Dest;

/// Why an instruction can't go on: a byte that it refers to isn't valid or may not be used, with its address and
/// whether it was to be written; or an operand is reserved.
#[derive(Clone, Copy, Debug, PartialEq, Eq)]
pub enum Trouble {
    NotValid { va: u32, write: bool },
    Denied { va: u32, write: bool },
    ReservedOperand,
}

/// The address of an operand, and the registers with its side effect.
#[derive(Clone, Copy, Debug, PartialEq, Eq)]
pub struct Place {
    pub at: u32,
    pub r: [u32; 16],
}

/// One operand: its value, where its result goes, and the registers with its side effect.
#[derive(Clone, Copy, Debug, PartialEq, Eq)]
pub struct Evaluated {
    pub value: u64,
    pub dest: Dest,
    pub r: [u32; 16],
}

/// The operands of an instruction, in order.
#[derive(Clone, Copy, Debug, PartialEq, Eq)]
pub struct Operands {
    /// The number that is read or modified, the address that is taken, or a branch's target; else 0.
    pub values: [u64; 4],
    /// Where a result goes, or the register or address from which bits are counted; else nowhere.
    pub dests: [Dest; 4],
    /// R0 to R15 with the side effects, and PC after the instruction.
    pub r: [u32; 16],
}

impl Operands {
    /// The operand of a number, from 0 on, as a longword.
    pub fn long(&self, i: usize) -> u32
        requires { i < 4 }
        ensures { result ≡ long_of self.now i }
    {
        (self.values[i] % 0x1_0000_0000) as u32
    }
}

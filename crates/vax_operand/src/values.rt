ghost use Rattle.std.specs.Prelude.{◌≡◌, ◌<◌, ◌%◌, ◌^◌, List, ℕ, slice_index};
ghost use Rattle.vax_table.specs.AllOperands.{no_operands};
ghost use Rattle.vax_operand.specs.Left.{operands_with_registers};

use vax_table::Dest;
use vax_table::evaluation::Operands;

/// The operands of an instruction, in order; the registers with their side effects are elsewhere.
#[derive(Clone, Copy)]
pub struct Values {
    /// The number that is read or modified, the address that is taken, or a branch's target; else 0.
    pub values: [u64; 4],
    /// Where a result goes, or the register or address from which bits are counted; else nowhere.
    pub dests: [Dest; 4],
}

impl Values {
    /// No operands.
    pub fn none() -> Values
        ensures { (r : List ℕ) → operands_with_registers result r ≡ no_operands r }
    {
        Values {
            values: [0; 4],
            dests: [Dest::Nowhere; 4],
        }
    }

    /// The operand of a number, from 0 on, as a longword.
    pub fn long(&self, i: usize) -> u32
        requires { i < 4 }
        ensures { result ≡ slice_index self.now.values i % 2 ^ 32 }
    {
        (self.values[i] % 0x1_0000_0000) as u32
    }

    /// These operands with the registers after them.
    pub fn joined(&self, r: &[u32; 16]) -> Operands
        ensures { result ≡ operands_with_registers self.now r.now }
    {
        Operands {
            values: self.values,
            dests: self.dests,
            r: *r,
        }
    }
}

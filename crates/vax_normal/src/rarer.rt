ghost use Rattle.std.specs.Prelude.{IfSome};
ghost use Rattle.vax_table.specs.Spelling.{IsWellFormed, view};
ghost use Rattle.vax_normal.specs.Rarer.{IsRarer};

use crate::bit_test::{BitTest, bit_test_of};
use crate::indexed::indexed_of;
use crate::probe::probe_test_of;
use crate::quad::quad_move_of;
use crate::rarer_shape::{Indexed, ProbeTest, StatusMove};
use crate::shape::QuadMove;
use crate::status::status_move_of;
use crate::subroutine::{Call, call_of, is_return};
use vax_operand::Prepared;
use vax_table::Operation;

/// An instruction in one of the rarer normal forms.
#[derive(Clone, Copy)]
pub enum Rarer {
    /// CLRQ or MOVQ.
    Moves(QuadMove),
    /// MOVPSL to a register.
    MovesStatus(StatusMove),
    /// PROBER or PROBEW.
    Probes(ProbeTest),
    /// BSBB or BSBW.
    Calls(Call),
    /// RSB.
    Returns,
    /// BBS or BBC of memory.
    TestsBit(BitTest),
    /// An operation of the arithmetic that refers to memory with an index.
    ComputesIndexed(Indexed),
}

/// The rarer normal form of an instruction.
pub fn rarer_of(prepared: &Prepared) -> Option<Rarer>
    requires { IsWellFormed (view prepared.now.decoded) }
    ensures { IfSome result (λ n. IsRarer n (view prepared.now.decoded)) }
{
    match prepared.operation {
        Operation::Compute(_, _, _, _) => Some(Rarer::ComputesIndexed(indexed_of(prepared)?)),
        Operation::MoveStatus => Some(Rarer::MovesStatus(status_move_of(prepared)?)),
        Operation::Probe(intent) => Some(Rarer::Probes(probe_test_of(intent, prepared)?)),
        Operation::CallSubroutine => Some(Rarer::Calls(call_of(prepared)?)),
        Operation::LeaveSubroutine if is_return(prepared) => Some(Rarer::Returns),
        Operation::BranchOnBit(_, None) => Some(Rarer::TestsBit(bit_test_of(prepared)?)),
        _ => Some(Rarer::Moves(quad_move_of(prepared)?)),
    }
}

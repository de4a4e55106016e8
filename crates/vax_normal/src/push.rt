ghost use Rattle.std.specs.Prelude.{◌≡◌, List, ℕ, None, true, slice_index, slice_set, IfSome};
ghost use Rattle.vax_table.specs.Operand.{minus};
ghost use Rattle.vax_normal.specs.InMemory.{reach_address, reach_stepped, stepped_by};
ghost use Rattle.vax_normal.specs.Touched.{IsDoneIn};

use crate::shape::{InMemory, Reach};
use crate::touches::{constant, first_source, touches_of};
use vax_operand::Operand;
use vax_table::{AluOp, Operation};
use vv_base::Width;

/// The longword below SP, which goes down to there.
fn below_sp() -> Reach
    ensures address { (r : List ℕ) → reach_address result r ≡ minus (slice_index r 14) 4 }
    ensures step { (r : List ℕ) → reach_stepped result r ≡ slice_set r 14 (minus (slice_index r 14) 4) }
    ensures width { result.width ≡ Width.Long }
{
    Reach {
        register: 14,
        offset: 0xFFFF_FFFC,
        step: 0xFFFF_FFFC,
        width: Width::Long,
    }
}

/// Whether a reference that is read, if there is one, leaves SP.
fn leaves_sp(reads: &Option<Reach>) -> bool
    ensures { result ≡ true → (r : List ℕ) → slice_index (stepped_by reads.now r) 14 ≡ slice_index r 14 }
{
    match reads {
        None => true,
        Some(reach) => reach.step == 0 || reach.register != 14,
    }
}

/// A push of the longword of an operand.
pub fn pushed_in_memory(operands: &[Operand], length: u32) -> Option<InMemory>
    ensures is { IfSome result (λ n. IsDoneIn None n Operation.Push operands.now) }
    ensures length { IfSome result (λ n. n.length ≡ length) }
{
    let touches = touches_of(operands)?;
    let None = touches.writes else {
        return None;
    };
    if !leaves_sp(&touches.reads) {
        return None;
    }
    let first = first_source(operands, length)?;
    Some(InMemory {
        op: AluOp::Move,
        width: Width::Long,
        first,
        second: constant(0),
        register: 15,
        reads: touches.reads,
        writes: Some(below_sp()),
        length,
    })
}

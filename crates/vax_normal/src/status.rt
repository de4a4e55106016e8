ghost use Rattle.std.specs.Prelude.{◌≡◌, sum, take, IfSome};
ghost use Rattle.vax_table.specs.Spelling.{IsWellFormed, view};
ghost use Rattle.vax_normal.specs.StatusMove.{IsStatusMove, status_finished};

use crate::carry_out::{go_on, put};
use crate::rarer_shape::StatusMove;
use vax_operand::{Kind, Prepared};
use vax_table::Operation;
use vv_base::Width;

impl StatusMove {
    /// The registers after it, where this is the PSL.
    #[inline(always)]
    pub fn finish(&self, psl: u32, r: &mut [u32; 16], total: u64) -> u64
        requires { total ≡ sum (take 15 r.old) }
        ensures registers { r.new ≡ status_finished self.now psl r.old }
        ensures sum { result ≡ sum (take 15 r.new) }
    {
        go_on(r, self.length, total);
        put(self.register, Width::Long, psl, r, total)
    }
}

/// The normal form of MOVPSL to a register.
pub fn status_move_of(prepared: &Prepared) -> Option<StatusMove>
    requires { IsWellFormed (view prepared.now.decoded) }
    ensures { IfSome result (λ n. IsStatusMove n (view prepared.now.decoded)) }
{
    let [x] = prepared.operands.as_slice() else {
        return None;
    };
    match (prepared.operation, x.kind) {
        (Operation::MoveStatus, Kind::WriteRegister) => Some(StatusMove {
            register: x.spec.reg,
            length: u32::from(prepared.decoded.length),
        }),
        _ => None,
    }
}

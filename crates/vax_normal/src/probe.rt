ghost use Rattle.std.specs.Prelude.{◌≡◌, IfSome};
ghost use Rattle.vax_table.specs.Spelling.{IsWellFormed, view};
ghost use Rattle.vax_normal.specs.ProbeTest.{IsProbeTest};

use crate::make::{are_at_hand, number_at};
use crate::rarer_shape::ProbeTest;
use vax_arch::Intent;
use vax_operand::Prepared;
use vax_table::Operation;

/// The normal form of PROBER or PROBEW, if all its operands are at hand.
pub fn probe_test_of(intent: Intent, prepared: &Prepared) -> Option<ProbeTest>
    requires formed { IsWellFormed (view prepared.now.decoded) }
    requires probes { prepared.now.operation ≡ Operation.Probe intent }
    ensures { IfSome result (λ n. IsProbeTest n (view prepared.now.decoded)) }
{
    let operands = prepared.operands.as_slice();
    if !are_at_hand(operands) {
        return None;
    }
    Some(ProbeTest {
        intent,
        mode: number_at(0, operands)?,
        bytes: number_at(1, operands)?,
        base: number_at(2, operands)?,
        length: u32::from(prepared.decoded.length),
    })
}

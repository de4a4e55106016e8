ghost use Rattle.std.specs.Prelude.{◌≡◌, ◌≤◌, if◌then◌else◌, length, map, slice_index, IfOk, OnOk};
ghost use Rattle.vax_table.specs.Operand.{plus};
ghost use Rattle.vax_table.specs.AllOperands.{forms_in, no_operands, operands_by, operands_from, operands_of, past_own_bytes, trap_operands};
ghost use Rattle.vax_table.specs.Rows.{row_of};
ghost use Rattle.vax_table.specs.Interaction.{outcome};
ghost use Rattle.vax_table.specs.Spelling.{IsWellFormed, view};
ghost use Rattle.vax_table.specs.LegalOperands.{AllFit, AreLegalOperands};
ghost use Rattle.vax_table.specs.Troubles.{with_trouble};
ghost use Rattle.vax_operand.specs.Left.{left, operands_with_registers};

use crate::operand::operand_of;
use crate::prepared::{Operand, Prepared, forms, prepare};
use crate::space::Space;
use crate::values::Values;
use vax_decode::Decoded;
use vax_table::evaluation::{Operands, Trouble};
use vax_table::{Access, Dest, Form};
use vv_base::Width;

/// No operands.
const NONE: Values = Values {
    values: [0; 4],
    dests: [Dest::Nowhere; 4],
};

/// No operands yet, and PC after the opcode, which has one byte, or two for WAIT.
#[inline(always)]
fn begin(d: &Decoded, r: &mut [u32; 16], v: &mut Values)
    ensures value { operands_with_registers v.new r.new ≡ no_operands (past_own_bytes (if d.now.wait then 2 else 1) r.old) }
    ensures registers { length r.old ≡ 16 }
{
    r[15] = r[15].wrapping_add(if d.wait { 2 } else { 1 });
    *v = NONE;
}

/// The operands, in order. Nearly each instruction has a first, so that one has a field of its own.
#[inline(always)]
#[tactic(auto, using(vax_table::proofs::Scripts::binds))]
fn evaluate_all<S: Space>(
    space: &S,
    operands: &[Operand],
    r: &mut [u32; 16],
    v: &mut Values,
) -> Result<(), Trouble>
    requires { length operands.now ≤ 4 }
    ensures outcome { left result (operands_with_registers v.new r.new)
        ≡ outcome (S.space space.now) (operands_from 0 (map (λ x. x.form) operands.now) (map (λ x. x.spec) operands.now)
        (operands_with_registers v.old r.old)) }
    ensures fits { OnOk result (AllFit (map (λ x. x.form) operands.now) (operands_with_registers v.new r.new)) }
{
    let n = operands.len();
    if n == 0 {
        return Ok(());
    }
    operand_of(space, &operands[0], r, &mut v.values[0], &mut v.dests[0])?;
    for i in 1..n {
        operand_of(space, &operands[i], r, &mut v.values[i], &mut v.dests[i])?;
    }
    Ok(())
}

/// The operands of a well-formed instruction at PC, in order: `r` is R0 to R15 before it, and after it with the side
/// effects. An error is that of the first byte in this order that has trouble, and then it doesn't matter what
/// `r` and `v` are.
#[inline(always)]
#[tactic(auto, unfolding(vax_table::specs::AllOperands::operands_of))]
pub fn evaluate_into<S: Space>(
    s: &S,
    e: &Prepared,
    r: &mut [u32; 16],
    v: &mut Values,
) -> Result<(), Trouble>
    requires formed { IsWellFormed (view e.now.decoded) }
    ensures outcome { left result (operands_with_registers v.new r.new) ≡ outcome (S.space s.now) (operands_of (view e.now.decoded) r.old) }
    ensures fits { OnOk result (AllFit (forms_in (row_of e.now.decoded.opcode)) (operands_with_registers v.new r.new)) }
    ensures next_pc { OnOk result (slice_index r.new 15 ≡ plus (slice_index r.old 15) e.now.decoded.length) }
{
    begin(&e.decoded, r, v);
    evaluate_all(s, e.operands.as_slice(), r, v)
}

/// The operands of some forms of an instruction, prepared first.
fn evaluate_by<S: Space>(
    s: &S,
    forms: &[Form],
    d: &Decoded,
    r: &[u32; 16],
) -> Result<Operands, Trouble>
    requires few { length forms.now ≤ 4 }
    requires stand { AreLegalOperands forms.now d.now.specs.items }
    ensures outcome { with_trouble result ≡ outcome (S.space s.now) (operands_by forms.now (view d.now) r.now) }
    ensures fits { IfOk result (λ o. AllFit forms.now o) }
{
    let mut r = *r;
    let mut v = Values::none();
    let operands = prepare(forms, d.specs.as_slice());
    begin(d, &mut r, &mut v);
    evaluate_all(s, operands.as_slice(), &mut r, &mut v)?;
    Ok(v.joined(&r))
}

/// The operands of a well-formed instruction at PC and the registers with the side effects, as `evaluate_into` gives them.
#[tactic(auto, unfolding(vax_table::specs::AllOperands::operands_of))]
pub fn evaluate<S: Space>(s: &S, d: &Decoded, r: &[u32; 16]) -> Result<Operands, Trouble>
    requires { IsWellFormed (view d.now) }
    ensures outcome { with_trouble result ≡ outcome (S.space s.now) (operands_of (view d.now) r.now) }
    ensures fits { IfOk result (λ o. AllFit (forms_in (row_of d.now.opcode)) o) }
    ensures next_pc { IfOk result (λ o. slice_index o.r 15 ≡ plus (slice_index r.now 15) d.now.length) }
{
    evaluate_by(s, forms(d.opcode).as_slice(), d, r)
}

/// MFPR's operands where it traps: a register's number, and a destination that is not translated.
const MFPR_FORMS: [Form; 2] = [
    Form {
        access: Access::Read,
        width: Width::Long,
    },
    Form {
        access: Access::Bits,
        width: Width::Long,
    },
];

/// The operands of a well-formed instruction that traps, as `evaluate` gives them, but that MFPR's destination is not
/// translated: it is a register or an address.
#[tactic(auto, unfolding(vax_table::specs::AllOperands::trap_operands))]
pub fn evaluate_trap<S: Space>(s: &S, d: &Decoded, r: &[u32; 16]) -> Result<Operands, Trouble>
    requires { IsWellFormed (view d.now) }
    ensures { with_trouble result ≡ outcome (S.space s.now) (trap_operands (view d.now) r.now) }
{
    if d.opcode == 0xDB {
        evaluate_by(s, &MFPR_FORMS, d, r)
    } else {
        evaluate_by(s, forms(d.opcode).as_slice(), d, r)
    }
}

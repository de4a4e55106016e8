ghost use Rattle.std.specs.Prelude.{◌≡◌, ◌≤◌, true, length, map};
ghost use Rattle.vax_table.specs.AllOperands.{forms_in, operand_length};
ghost use Rattle.vax_table.specs.Operations.{is_narrow, operation_of};
ghost use Rattle.vax_table.specs.Rows.{row_of};
ghost use Rattle.vax_table.specs.Spelling.{IsWellFormed, view};
ghost use Rattle.vax_table.specs.LegalOperands.{AreLegalOperands, IsLegalOperand};
ghost use Rattle.vax_operand.specs.Prepared.{RestsOn, kind_of, rests-prop};

use crate::kind::{Kind, kind_of, operand_length};
use arrayvec::ArrayVec;
use vax_decode::Decoded;
use vax_table::{Form, Operation, Spec, operation, row};

/// An operand of an instruction, with what is found once of it.
#[derive(Clone, Copy)]
pub struct Operand {
    pub form: Form,
    pub spec: Spec,
    /// What it is, and how its address is found.
    pub kind: Kind,
    /// How many bytes it has in the instruction.
    pub length: u32,
    ghost prepared: { kind ≡ kind_of form spec },
    ghost bytes: { length ≡ operand_length form spec },
    ghost rests: { RestsOn kind form.width spec } by { rests-prop kind form.width spec },
}

impl Operand {
    /// An operand of a well-formed instruction, prepared.
    #[tactic(auto, using(crate::proofs::Preparing::rests))]
    pub fn new(form: Form, spec: Spec) -> Operand
        requires { IsLegalOperand form.access form.width spec }
        ensures form { result.form ≡ form }
        ensures spec { result.spec ≡ spec }
    {
        Operand {
            form,
            spec,
            kind: kind_of(form, &spec),
            length: operand_length(form, &spec),
        }
    }
}

impl Default for Operand {
    /// The literal 0.
    #[tactic(auto, unfolding(crate::specs::Prepared::kind_by, vax_table::specs::Spelled::value_size))]
    fn default() -> Operand {
        Operand {
            form: Form::default(),
            spec: Spec::default(),
            kind: Kind::Constant,
            length: 1,
        }
    }
}

/// A decoded instruction whose operation and operands are prepared.
#[derive(Drop)]
pub struct Prepared {
    pub decoded: Decoded,
    pub operation: Operation,
    pub operands: ArrayVec<Operand, 4>,
    ghost does: { operation ≡ operation_of decoded.opcode },
    ghost narrow: { is_narrow operation ≡ true },
    ghost forms: { map (λ x. x.form) operands.items ≡ forms_in (row_of decoded.opcode) },
    ghost specs: { map (λ x. x.spec) operands.items ≡ decoded.specs.items },
}

/// The operands of some forms, in order, prepared in place of others.
pub fn prepare_into(forms: &[Form], specs: &[Spec], operands: &mut ArrayVec<Operand, 4>)
    requires few { length forms.now ≤ 4 }
    requires stand { AreLegalOperands forms.now specs.now }
    ensures forms { map (λ x. x.form) operands.new.items ≡ forms.now }
    ensures specs { map (λ x. x.spec) operands.new.items ≡ specs.now }
{
    operands.clear();
    for (i, form) in forms.iter().enumerate() {
        operands.push(Operand::new(*form, specs[i]));
    }
}

/// The operands of some forms, in order, by value.
pub fn prepare(forms: &[Form], specs: &[Spec]) -> ArrayVec<Operand, 4>
    requires few { length forms.now ≤ 4 }
    requires stand { AreLegalOperands forms.now specs.now }
    ensures forms { map (λ x. x.form) result.items ≡ forms.now }
    ensures specs { map (λ x. x.spec) result.items ≡ specs.now }
{
    let mut operands = ArrayVec::new();
    prepare_into(forms, specs, &mut operands);
    operands
}

/// The forms of an opcode's operands, in order.
pub fn forms(opcode: u8) -> ArrayVec<Form, 4>
    ensures { result.items ≡ forms_in (row_of opcode) }
{
    match row(opcode) {
        None => ArrayVec::new(),
        Some(row) => row.operands,
    }
}

impl Prepared {
    /// A well-formed instruction, prepared.
    pub fn new(decoded: Decoded) -> Prepared
        requires { IsWellFormed (view decoded) }
        ensures { result.decoded ≡ decoded }
    {
        Prepared {
            operation: operation(decoded.opcode),
            operands: prepare(forms(decoded.opcode).as_slice(), decoded.specs.as_slice()),
            decoded,
        }
    }

    /// Another well-formed instruction, prepared in place of this one.
    pub fn renew(&mut self, decoded: Decoded)
        requires { IsWellFormed (view decoded) }
        ensures { self.new.decoded ≡ decoded }
    {
        self.operation = operation(decoded.opcode);
        prepare_into(
            forms(decoded.opcode).as_slice(),
            decoded.specs.as_slice(),
            &mut self.operands,
        );
        self.decoded = decoded;
    }
}

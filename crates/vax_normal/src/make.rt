ghost use Rattle.std.specs.Prelude.{◌≡◌, ◌≢◌, ◌+◌, ◌%◌, ◌^◌, ◌<◌, List, ℕ, None, true, slice_index, IfSome};
ghost use Rattle.vax_table.specs.Operations.{first_input, second_input, target_of};
ghost use Rattle.vax_table.specs.Effects.{dest_of, long_of};
ghost use Rattle.vax_table.specs.Operand.{plus};
ghost use Rattle.vax_table.specs.Spelling.{IsWellFormed, view};
ghost use Rattle.vax_normal.specs.AtHand.{AreAlikeButPc, AreBefore, IsDoneBy, IsPutBy, are_at_hand, is_at_hand, all_at_hand, dest_at_hand, value_at_hand};
ghost use Rattle.vax_normal.specs.Normal.{IsNormal, number_by};

use crate::number::{number_of, relative_of};
use crate::shape::{Computation, Countdown, Normal, Number, Shape};
use vax_operand::{Base, Kind, Operand, Prepared};
use vax_table::{AluOp, Condition, Inputs, Operation, Target};
use vv_base::Width;

/// Whether an operand is a constant, a register, a branch or an address that needs no memory.
pub fn is_at_hand(kind: Kind) -> bool
    ensures { result ≡ is_at_hand kind }
{
    matches!(
        kind,
        Kind::Constant
            | Kind::ReadRegister
            | Kind::ModifyRegister
            | Kind::WriteRegister
            | Kind::BitsRegister
            | Kind::Branch(_)
            | Kind::Address(Base::Deferred | Base::Absolute(_) | Base::Displaced(_))
    )
}

/// Whether all operands are.
pub fn are_at_hand(operands: &[Operand]) -> bool
    ensures { result ≡ are_at_hand operands.now }
{
    let [operand, rest @ ..] = operands else {
        return true;
    };
    is_at_hand(operand.kind) && are_at_hand(rest)
}

/// The number that is read of the operand of this number, from 0 on.
pub fn number_at(i: usize, operands: &[Operand]) -> Option<Number>
    requires { i < 4 }
    ensures { IfSome result (λ n. (r q : List ℕ) → AreAlikeButPc r q → long_of (all_at_hand operands.now q) i ≡ number_by n r) }
{
    if i >= operands.len() {
        return None;
    }
    number_of(&operands[i])
}

/// The number that is read of the first operand, or the address by PC that it is.
fn first_number(operands: &[Operand], length: u32) -> Option<Number>
    ensures { IfSome result (λ n. (r q : List ℕ) → AreBefore length operands.now r q → long_of (all_at_hand operands.now q) 0 ≡ number_by n r) }
{
    let [operand, rest @ ..] = operands else {
        return None;
    };
    match number_of(operand) {
        Some(number) => Some(number),
        None => relative_of(operand, rest, length),
    }
}

/// The first number of an operation, and the second.
fn numbers_of(inputs: Inputs, operands: &[Operand], length: u32) -> Option<(Number, Number)>
    ensures { IfSome result (λ n. (r q : List ℕ) → AreBefore length operands.now r q →
        (first_input inputs (all_at_hand operands.now q) ≡ number_by n.0 r) ×
        (second_input inputs (all_at_hand operands.now q) ≡ number_by n.1 r)) }
{
    let zero = Number::constant(0);
    match inputs {
        Inputs::Zero => Some((zero, zero)),
        Inputs::First => Some((first_number(operands, length)?, zero)),
        Inputs::Both => Some((number_at(0, operands)?, number_at(1, operands)?)),
        Inputs::OneAndFirst => Some((Number::constant(1), number_at(0, operands)?)),
        Inputs::Signed(_) => None,
    }
}

/// The register that is an operand's place, or 15, where it has none.
fn register_of(operand: &Operand) -> u8
    ensures { IsPutBy result (dest_at_hand operand.now.kind operand.now.spec.reg) }
{
    match operand.kind {
        Kind::ModifyRegister | Kind::WriteRegister | Kind::BitsRegister => operand.spec.reg,
        _ => 15,
    }
}

/// The register that is the place of the operand of this number, from 0 on, or 15, where that has none.
fn register_at(i: usize, operands: &[Operand]) -> Option<u8>
    requires { i < 4 }
    ensures { IfSome result (λ n. (q : List ℕ) → IsPutBy n (dest_of (all_at_hand operands.now q) i)) }
{
    if i >= operands.len() {
        return None;
    }
    Some(register_of(&operands[i]))
}

/// The register that gets a result, or 15, where none does.
fn target_register(target: Target, operands: &[Operand]) -> Option<u8>
    ensures { IfSome result (λ n. (q : List ℕ) → IsPutBy n (target_of target (all_at_hand operands.now q))) }
{
    match target {
        Target::CodesOnly => Some(15),
        Target::First => register_at(0, operands),
        Target::Second => register_at(1, operands),
        Target::Third => register_at(2, operands),
    }
}

/// Whether a width is at most a longword.
pub fn is_narrow(w: Width) -> bool
    ensures { result ≡ true → w ≢ Width.Quad }
{
    !matches!(w, Width::Quad)
}

/// An operation of the arithmetic on constants and registers.
fn computation_of(
    op: AluOp,
    width: Width,
    inputs: Inputs,
    target: Target,
    operands: &[Operand],
    length: u32,
) -> Option<Shape>
    ensures { IfSome result (λ s. IsDoneBy s length (Operation.Compute op width inputs target) operands.now) }
{
    if !is_narrow(width) {
        return None;
    }
    let (first, second) = numbers_of(inputs, operands, length)?;
    Some(Shape::Computes(Computation {
        op,
        width,
        first,
        second,
        register: target_register(target, operands)?,
    }))
}

/// The distance from the address of a branch, whose displacement counts from the next instruction.
pub fn jump_of(displacement: u32, length: u32) -> u32
    ensures { result ≡ (displacement + length) % 2 ^ 32 }
{
    displacement.wrapping_add(length)
}

/// By how many bytes a branch or a jump goes on from its own address, if that is fixed.
fn jump_to(x: &Operand, length: u32) -> Option<u32>
    ensures { IfSome result (λ jump. (r q : List ℕ) → slice_index q 15 ≡ plus (slice_index r 15) length →
        value_at_hand x.now.kind x.now.form.width x.now.spec q % 2 ^ 32 ≡ plus (slice_index r 15) jump) }
{
    match x.kind {
        Kind::Branch(displacement) => Some(jump_of(displacement, length)),
        _ => Some(relative_of(x, &[], length)?.offset),
    }
}

/// A branch by the condition codes, or JMP to an address by PC.
fn branch_of(condition: Condition, operands: &[Operand], length: u32) -> Option<Shape>
    ensures { IfSome result (λ s. IsDoneBy s length (Operation.Branch condition) operands.now) }
{
    let [x] = operands else {
        return None;
    };
    let jump = jump_to(x, length)?;
    Some(Shape::Branches(condition, jump))
}

/// A branch by the low bit of a constant or a register.
fn low_bit_of(on: bool, operands: &[Operand], length: u32) -> Option<Shape>
    ensures { IfSome result (λ s. IsDoneBy s length (Operation.BranchOnLowBit on) operands.now) }
{
    match operands {
        [x, y] => match y.kind {
            Kind::Branch(displacement) => Some(Shape::BranchesOnBits(
                on,
                number_of(x)?,
                1,
                jump_of(displacement, length),
            )),
            _ => None,
        },
        _ => None,
    }
}

/// The mask of the bit at a position, if a longword has it.
fn mask_at(position: u64) -> Option<u32>
    ensures few { IfSome result (λ m. position < 32) }
    ensures value { IfSome result (λ m. m ≡ 2 ^ position) }
{
    if position >= 32 {
        return None;
    }
    Some(1 << position)
}

/// A branch by a bit of a register, at a position that is a constant.
fn register_bit_of(on: bool, operands: &[Operand], length: u32) -> Option<Shape>
    ensures { IfSome result (λ s. IsDoneBy s length (Operation.BranchOnBit on None) operands.now) }
{
    match operands {
        [x, y, z] => match (x.kind, y.kind, z.kind) {
            (Kind::Constant, Kind::BitsRegister, Kind::Branch(displacement)) => {
                let mask = mask_at(x.spec.value)?;
                let number = Number::longword(y.spec.reg);
                Some(Shape::BranchesOnBits(on, number, mask, jump_of(displacement, length)))
            }
            _ => None,
        },
        _ => None,
    }
}

/// A countdown of a register.
fn countdown_of(at_zero: bool, operands: &[Operand], length: u32) -> Option<Shape>
    ensures { IfSome result (λ s. IsDoneBy s length (Operation.SubtractOne at_zero) operands.now) }
{
    match operands {
        [x, y] => match (x.kind, x.form.width, y.kind) {
            (Kind::ModifyRegister, Width::Long, Kind::Branch(displacement)) => Some(
                Shape::CountsDown(
                    Countdown {
                        at_zero,
                        register: x.spec.reg,
                    },
                    jump_of(displacement, length),
                ),
            ),
            _ => None,
        },
        _ => None,
    }
}

/// What an instruction of an operation and operands does at once, if it is of one of these forms.
fn shape_of(what: Operation, operands: &[Operand], length: u32) -> Option<Shape>
    ensures { IfSome result (λ s. IsDoneBy s length what operands.now) }
{
    match what {
        Operation::Compute(op, width, inputs, target) => {
            computation_of(op, width, inputs, target, operands, length)
        }
        Operation::Branch(condition) => branch_of(condition, operands, length),
        Operation::BranchOnLowBit(on) => low_bit_of(on, operands, length),
        Operation::BranchOnBit(on, None) => register_bit_of(on, operands, length),
        Operation::Nothing => Some(Shape::Branches(Condition::Always, length)),
        Operation::SubtractOne(at_zero) => countdown_of(at_zero, operands, length),
        _ => None,
    }
}

/// The normal form of an instruction, if it has one.
pub fn normal_of(prepared: &Prepared) -> Option<Normal>
    requires { IsWellFormed (view prepared.now.decoded) }
    ensures { IfSome result (λ n. IsNormal n (view prepared.now.decoded)) }
{
    let operands = prepared.operands.as_slice();
    if !are_at_hand(operands) {
        return None;
    }
    let length = u32::from(prepared.decoded.length);
    let shape = shape_of(prepared.operation, operands, length)?;
    Some(Normal { shape, length })
}

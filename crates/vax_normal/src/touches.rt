ghost use Rattle.std.specs.Prelude.{◌≡◌, ◌%◌, ◌^◌, ◌<◌, List, ℕ, ◌∷◌, true, slice_index, IfSome};
ghost use Rattle.vax_table.specs.Operations.{first_input, second_input, target_of};
ghost use Rattle.vax_table.specs.Effects.{dest_of, long_of};
ghost use Rattle.vax_table.specs.Spelling.{IsWellFormed, view};
ghost use Rattle.vax_normal.specs.AtHand.{IsMoved};
ghost use Rattle.vax_normal.specs.InMemory.{IsInMemory, reach_stepped, sourced_by};
ghost use Rattle.vax_normal.specs.Normal.{number_by};
ghost use Rattle.vax_normal.specs.Touched.{AreBeforeTouches, AreTouched, IsClaimedAt, IsDoneIn, IsFirstSource, IsPutIn, all_had, dest_had, is_kept_over_all, is_kept_over, value_had};

use crate::make::{is_at_hand, is_narrow};
use crate::number::{number_of, relative_of};
use crate::push::pushed_in_memory;
use crate::reach::reach_by;
use crate::shape::{InMemory, Number, Reach, Source};
use vax_operand::{Base, Kind, Operand, Prepared};
use vax_table::{AluOp, Dest, Inputs, Operation, Target};
use vv_base::Width;

/// What operands touch: one reference that is read at most, and then one at most that is claimed.
#[derive(Clone, Copy)]
pub struct Touches {
    pub reads: Option<Reach>,
    pub writes: Option<Reach>,
}

/// Whether a step leaves the register of another reference, if there is one.
fn leaves(reach: &Reach, other: &Option<Reach>) -> bool
    ensures { result ≡ true → IfSome other.now (λ p. (r : List ℕ) → slice_index (reach_stepped reach.now r) p.register ≡ slice_index r p.register) }
{
    match other {
        None => true,
        Some(other) => reach.step == 0 || reach.register != other.register,
    }
}

/// An operand that is read, before others.
fn before_read(base: Base, x: &Operand, rest: &Touches) -> Option<Touches>
    requires { x.now.kind ≡ Kind.Read base }
    ensures { IfSome result (λ t. (xs : List Operand) → AreTouched rest.now xs → AreTouched t (x.now ∷ xs)) }
{
    let reach = reach_by(base, x.form.width, &x.spec)?;
    match rest.reads {
        None if leaves(&reach, &rest.writes) => Some(Touches {
            reads: Some(reach),
            writes: rest.writes,
        }),
        _ => None,
    }
}

/// One that is modified.
fn before_modified(base: Base, x: &Operand, rest: &Touches) -> Option<Touches>
    requires { x.now.kind ≡ Kind.Modify base }
    ensures { IfSome result (λ t. (xs : List Operand) → AreTouched rest.now xs → AreTouched t (x.now ∷ xs)) }
{
    let reach = reach_by(base, x.form.width, &x.spec)?;
    match (rest.reads, rest.writes) {
        (None, None) => Some(Touches {
            reads: None,
            writes: Some(reach),
        }),
        _ => None,
    }
}

/// One that is written.
fn before_written(base: Base, x: &Operand, rest: &Touches) -> Option<Touches>
    requires { x.now.kind ≡ Kind.Write base }
    ensures { IfSome result (λ t. (xs : List Operand) → AreTouched rest.now xs → AreTouched t (x.now ∷ xs)) }
{
    let reach = reach_by(base, x.form.width, &x.spec)?;
    match (rest.reads, rest.writes) {
        (None, None) => Some(Touches {
            reads: None,
            writes: Some(reach),
        }),
        _ => None,
    }
}

/// What operands touch.
pub fn touches_of(operands: &[Operand]) -> Option<Touches>
    ensures { IfSome result (λ t. AreTouched t operands.now) }
{
    let [x, rest @ ..] = operands else {
        return Some(Touches {
            reads: None,
            writes: None,
        });
    };
    let after = touches_of(rest)?;
    match x.kind {
        Kind::Read(base) => before_read(base, x, &after),
        Kind::Modify(base) => before_modified(base, x, &after),
        Kind::Write(base) => before_written(base, x, &after),
        _ if is_at_hand(x.kind) => Some(after),
        _ => None,
    }
}

/// Whether a number stays over an operand, whose reference may step its register.
fn is_kept_over(n: &Number, x: &Operand) -> bool
    ensures { result ≡ is_kept_over n.now x.now }
{
    is_at_hand(x.kind) || n.mask == 0 || n.register != x.spec.reg
}

/// Whether a number stays over all.
fn is_kept_over_all(n: &Number, operands: &[Operand]) -> bool
    ensures { result ≡ is_kept_over_all n.now operands.now }
{
    let [x, rest @ ..] = operands else {
        return true;
    };
    is_kept_over(n, x) && is_kept_over_all(n, rest)
}

/// A number that isn't from memory.
fn at_hand(number: Number) -> Source
    ensures number { result.number ≡ number }
    ensures value { (v u : ℕ) (r : List ℕ) → sourced_by result v u r ≡ number_by number r }
{
    Source {
        number,
        read: 0,
        claimed: 0,
    }
}

/// A constant.
pub fn constant(value: u32) -> Source
    ensures { (v u : ℕ) (r : List ℕ) → sourced_by result v u r ≡ value }
{
    at_hand(Number::constant(value))
}

/// The number that is read of an operand.
fn source_of(x: &Operand) -> Option<Source>
    ensures { IfSome result (λ n. (v u : ℕ) (r : List ℕ) → value_had v u x.now.kind x.now.form.width x.now.spec r % 2 ^ 32 ≡ sourced_by n v u r) }
{
    let number = Number::constant(0);
    match x.kind {
        Kind::Read(_) => Some(Source {
            number,
            read: u32::MAX,
            claimed: 0,
        }),
        Kind::Modify(_) => Some(Source {
            number,
            read: 0,
            claimed: u32::MAX,
        }),
        _ => Some(at_hand(number_of(x)?)),
    }
}

/// That of the operand of this number, from 0 on, if no operand changes its register, as each does PC.
pub fn source_at(i: usize, operands: &[Operand]) -> Option<Source>
    requires { i < 4 }
    ensures { IfSome result (λ n. (v u at : ℕ) (r q : List ℕ) → IsMoved r q → long_of (all_had v u at operands.now q) i ≡ sourced_by n v u r) }
{
    if i >= operands.len() {
        return None;
    }
    let source = source_of(&operands[i])?;
    if source.number.register >= 15 || !is_kept_over_all(&source.number, operands) {
        return None;
    }
    Some(source)
}

/// The address by PC that the first operand is.
fn relative_source(operands: &[Operand], length: u32) -> Option<Source>
    ensures { IfSome result (λ n. IsFirstSource n length operands.now) }
{
    let [x, rest @ ..] = operands else {
        return None;
    };
    let number = relative_of(x, rest, length)?;
    if !is_kept_over_all(&number, operands) {
        return None;
    }
    Some(at_hand(number))
}

/// The number that is read of the first operand, or the address by PC that it is.
pub fn first_source(operands: &[Operand], length: u32) -> Option<Source>
    ensures { IfSome result (λ n. IsFirstSource n length operands.now) }
{
    match source_at(0, operands) {
        Some(source) => Some(source),
        None => relative_source(operands, length),
    }
}

/// The first number of an operation, and the second.
pub fn sources_of(inputs: Inputs, operands: &[Operand], length: u32) -> Option<(Source, Source)>
    ensures { IfSome result (λ n. (t : Touches) (v u at : ℕ) (r q : List ℕ) →
        AreBeforeTouches t length (all_had v u at operands.now q) r q →
        (first_input inputs (all_had v u at operands.now q) ≡ sourced_by n.0 v u r) ×
        (second_input inputs (all_had v u at operands.now q) ≡ sourced_by n.1 v u r)) }
{
    let zero = constant(0);
    match inputs {
        Inputs::Zero => Some((zero, zero)),
        Inputs::First => Some((first_source(operands, length)?, zero)),
        Inputs::Both => Some((source_at(0, operands)?, source_at(1, operands)?)),
        Inputs::OneAndFirst => Some((constant(1), source_at(0, operands)?)),
        Inputs::Signed(_) => None,
    }
}

/// The register that is an operand's place, or 15 where that is in memory, as one is claimed.
pub fn put_of(x: &Operand, writes: &Option<Reach>) -> Option<u8>
    ensures { IfSome result (λ n. (r : List ℕ) (at : ℕ) → IsClaimedAt writes.now r at → IsPutIn n writes.now (dest_had at x.now.kind x.now.spec.reg) r) }
{
    match (x.kind, *writes) {
        (Kind::Modify(_), Some(_)) => Some(15),
        (Kind::Write(_), Some(_)) => Some(15),
        (Kind::ModifyRegister, None) => Some(x.spec.reg),
        (Kind::WriteRegister, None) => Some(x.spec.reg),
        _ => None,
    }
}

/// The register that is the place of the operand of this number, or 15 where that is in memory, as one is claimed.
fn put_at(i: usize, operands: &[Operand], writes: &Option<Reach>) -> Option<u8>
    requires { i < 4 }
    ensures { IfSome result (λ n. (v u at : ℕ) (r q : List ℕ) → IsClaimedAt writes.now r at → IsPutIn n writes.now (dest_of (all_had v u at operands.now q) i) r) }
{
    if i >= operands.len() {
        return None;
    }
    put_of(&operands[i], writes)
}

/// The number of no register, where no reference is claimed.
fn nowhere(writes: &Option<Reach>) -> Option<u8>
    ensures { IfSome result (λ n. (r : List ℕ) → IsPutIn n writes.now Dest.Nowhere r) }
{
    match *writes {
        Some(_) => None,
        None => Some(15),
    }
}

/// The register that gets a result, or 15.
pub fn put_by(target: Target, operands: &[Operand], writes: &Option<Reach>) -> Option<u8>
    ensures { IfSome result (λ n. (v u at : ℕ) (r q : List ℕ) → IsClaimedAt writes.now r at →
        IsPutIn n writes.now (target_of target (all_had v u at operands.now q)) r) }
{
    match target {
        Target::CodesOnly => nowhere(writes),
        Target::First => put_at(0, operands, writes),
        Target::Second => put_at(1, operands, writes),
        Target::Third => put_at(2, operands, writes),
    }
}

/// Whether a reference, if there is one, is to so wide a number.
pub fn has_width(reach: &Option<Reach>, width: Width) -> bool
    ensures { result ≡ true → IfSome reach.now (λ p. p.width ≡ width) }
{
    match reach {
        None => true,
        Some(reach) => reach.width == width,
    }
}

/// An operation of the arithmetic, with references to memory.
fn computed_in_memory(
    op: AluOp,
    width: Width,
    inputs: Inputs,
    target: Target,
    operands: &[Operand],
    length: u32,
) -> Option<InMemory>
    ensures is { IfSome result (λ n. IsDoneIn n.writes n (Operation.Compute op width inputs target) operands.now) }
    ensures length { IfSome result (λ n. n.length ≡ length) }
{
    if !is_narrow(width) {
        return None;
    }
    let touches = touches_of(operands)?;
    if !has_width(&touches.writes, width) {
        return None;
    }
    let (first, second) = sources_of(inputs, operands, length)?;
    let register = put_by(target, operands, &touches.writes)?;
    Some(InMemory {
        op,
        width,
        first,
        second,
        register,
        reads: touches.reads,
        writes: touches.writes,
        length,
    })
}

/// The normal form in memory.
pub fn in_memory_of(prepared: &Prepared) -> Option<InMemory>
    requires { IsWellFormed (view prepared.now.decoded) }
    ensures { IfSome result (λ n. IsInMemory n (view prepared.now.decoded)) }
{
    let operands = prepared.operands.as_slice();
    let length = u32::from(prepared.decoded.length);
    match prepared.operation {
        Operation::Compute(op, width, inputs, target) => {
            computed_in_memory(op, width, inputs, target, operands, length)
        }
        Operation::Push => pushed_in_memory(operands, length),
        _ => None,
    }
}

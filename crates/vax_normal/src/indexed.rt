ghost use Rattle.std.specs.Prelude.{◌≡◌, true, ℕ, [], ◌∷◌, sum, take, IfSome, MatchOption};
ghost use Rattle.vax_table.specs.Spelling.{IsWellFormed, view};
ghost use Rattle.vax_normal.specs.Indexed.{AreIndexedBy, IsClaimedLike, IsIndexed, IsIndexedBy, IsIndexedDone, IsIndexedReach, IsOffsetBy, indexed_address, indexed_done, indexed_finished, indexed_found, indexed_stored, stored_for};

use crate::carry_out::{go_on, put};
use crate::in_memory::Found;
use crate::make::{is_at_hand, is_narrow};
use crate::rarer_shape::{Indexed, IndexedReach};
use crate::shape::Reach;
use crate::touches::{put_by, sources_of, touches_of};
use vax_alu::alu;
use vax_arch::Intent;
use vax_operand::{Base, Kind, Operand, Prepared};
use vax_table::effect::Store;
use vax_table::{AluOp, Inputs, Operation, Spec, Target};
use vv_base::Width;

impl IndexedReach {
    /// Its address.
    #[inline(always)]
    pub fn address(&self, r: &[u32; 16]) -> u32
        ensures { result ≡ indexed_address self.now r.now }
    {
        let index = r[usize::from(self.index)].wrapping_mul(u32::from(self.width.bytes()));
        r[usize::from(self.base)]
            .wrapping_add(self.offset)
            .wrapping_add(index)
    }
}

impl Indexed {
    /// What it finds where this is the number in memory, if it doesn't trap.
    #[inline(always)]
    pub fn find(&self, number: u64, r: &[u32; 16], psw: u8) -> Option<Found>
        ensures { IfSome result (λ x. indexed_done self.now number r.now psw ≡ indexed_found self.now r.now x) }
    {
        let first = self.first.value(r, number, number);
        let second = self.second.value(r, number, number);
        let x = alu(self.op, first, second, self.width, psw);
        match x.trap {
            Some(_) => None,
            None => Some(Found {
                value: x.value,
                psw: x.psw,
            }),
        }
    }

    /// What it stores, if it claims.
    #[inline(always)]
    pub fn store(&self, r: &[u32; 16], value: u32) -> Option<Store>
        ensures { MatchOption result (indexed_stored self.now r.now value ≡ []) (λ x. indexed_stored self.now r.now value ≡ x ∷ []) }
    {
        match self.intent {
            Intent::Read => None,
            Intent::Write => Some(Store {
                va: self.reach.address(r),
                width: self.reach.width,
                value: u64::from(value),
            }),
        }
    }

    /// The registers after it.
    #[inline(always)]
    pub fn finish(&self, value: u32, r: &mut [u32; 16], total: u64) -> u64
        requires { total ≡ sum (take 15 r.old) }
        ensures registers { r.new ≡ indexed_finished self.now value r.old }
        ensures sum { result ≡ sum (take 15 r.new) }
    {
        go_on(r, self.length, total);
        put(self.register, self.width, value, r, total)
    }
}

/// The offset from its register that a base is, if it is one.
fn offset_of(base: Base) -> Option<u32>
    ensures { IfSome result (λ k. IsOffsetBy k base) }
{
    match base {
        Base::Deferred => Some(0),
        Base::Displaced(offset) => Some(offset),
        _ => None,
    }
}

/// How a specifier with an index refers to memory, if it does so by a register alone, or one and a displacement.
fn reach_of(base: Base, width: Width, spec: &Spec) -> Option<IndexedReach>
    ensures { IfSome result (λ p. IsIndexedReach p base width spec.now) }
{
    let index = spec.index?;
    if spec.reg >= 15 || index >= 15 {
        return None;
    }
    let offset = offset_of(base)?;
    Some(IndexedReach {
        base: spec.reg,
        index,
        width,
        offset,
    })
}

/// How an operand refers to memory with an index, and whether it reads or claims.
fn indexed_by(x: &Operand) -> Option<(IndexedReach, Intent)>
    ensures { IfSome result (λ t. IsIndexedBy t.0 t.1 x.now) }
{
    match x.kind {
        Kind::Read(base) => Some((reach_of(base, x.form.width, &x.spec)?, Intent::Read)),
        Kind::Modify(base) => Some((reach_of(base, x.form.width, &x.spec)?, Intent::Write)),
        Kind::Write(base) => Some((reach_of(base, x.form.width, &x.spec)?, Intent::Write)),
        _ => None,
    }
}

/// The one reference to memory of some operands, if it has an index.
fn indexed_among(operands: &[Operand]) -> Option<(IndexedReach, Intent)>
    ensures { IfSome result (λ t. AreIndexedBy t.0 t.1 operands.now) }
{
    let [x, rest @ ..] = operands else {
        return None;
    };
    if is_at_hand(x.kind) {
        return indexed_among(rest);
    }
    let after = touches_of(rest)?;
    match (after.reads, after.writes) {
        (None, None) => indexed_by(x),
        _ => None,
    }
}

/// A reference by the same register alone, which stands for one that is claimed.
fn claimed_of(reach: &IndexedReach, intent: Intent) -> Option<Reach>
    ensures { IsClaimedLike intent result }
{
    match intent {
        Intent::Read => None,
        Intent::Write => Some(Reach {
            register: reach.base,
            offset: 0,
            step: 0,
            width: reach.width,
        }),
    }
}

/// Whether a result is as wide as the place that is claimed for it, if one is.
fn has_room(reach: &IndexedReach, intent: Intent, width: Width) -> bool
    ensures { result ≡ true → (at v : ℕ) → stored_for intent at width v ≡ stored_for intent at reach.now.width v }
{
    match intent {
        Intent::Read => true,
        Intent::Write => reach.width == width,
    }
}

/// An operation of the arithmetic, with a reference to memory that has an index.
fn computed_indexed(
    op: AluOp,
    width: Width,
    inputs: Inputs,
    target: Target,
    operands: &[Operand],
    length: u32,
) -> Option<Indexed>
    ensures is { IfSome result (λ n. IsIndexedDone n (Operation.Compute op width inputs target) operands.now) }
    ensures length { IfSome result (λ n. n.length ≡ length) }
{
    if !is_narrow(width) {
        return None;
    }
    let (reach, intent) = indexed_among(operands)?;
    if !has_room(&reach, intent, width) {
        return None;
    }
    let (first, second) = sources_of(inputs, operands, length)?;
    let register = put_by(target, operands, &claimed_of(&reach, intent))?;
    Some(Indexed {
        op,
        width,
        first,
        second,
        register,
        intent,
        reach,
        length,
    })
}

/// The normal form of an operation of the arithmetic that refers to memory once, with an index.
pub fn indexed_of(prepared: &Prepared) -> Option<Indexed>
    requires { IsWellFormed (view prepared.now.decoded) }
    ensures { IfSome result (λ n. IsIndexed n (view prepared.now.decoded)) }
{
    let operands = prepared.operands.as_slice();
    let length = u32::from(prepared.decoded.length);
    match prepared.operation {
        Operation::Compute(op, width, inputs, target) => {
            computed_indexed(op, width, inputs, target, operands, length)
        }
        _ => None,
    }
}

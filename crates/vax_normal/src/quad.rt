ghost use Rattle.std.specs.Prelude.{◌≡◌, ◌≢◌, [], ◌∷◌, ℕ, List, sum, take, IfSome, MatchOption};
ghost use Rattle.vv_base.specs.declared.width.Width.TheVariants.{Quad};
ghost use Rattle.vax_table.specs.Operand.{register_value};
ghost use Rattle.vax_table.specs.Spelling.{IsWellFormed, view};
ghost use Rattle.vax_normal.specs.AtHand.{IsMoved};
ghost use Rattle.vax_normal.specs.InMemory.{HasClaimed, stored};
ghost use Rattle.vax_normal.specs.Normal.{with_result};
ghost use Rattle.vax_normal.specs.QuadMove.{IsQuadFoundIn, IsQuadMove, quad_finished, quad_from};
ghost use Rattle.vax_normal.specs.Touched.{AreTouched, IsClaimedAt, IsPutIn, dest_had, value_had};

use crate::carry_out::go_on;
use crate::reach::{read_by, step_by};
use crate::shape::{QuadMove, QuadSource, RegisterPair};
use crate::total::set;
use crate::touches::{has_width, put_of, touches_of};
use vax_operand::{Kind, Operand, Prepared, Space};
use vax_table::Operation;
use vax_table::effect::Store;
use vv_base::Width;

impl RegisterPair {
    /// The quadword.
    #[inline(always)]
    fn value(&self, r: &[u32; 16]) -> u64
        ensures { result ≡ register_value Quad r.now self.now.register }
    {
        let n = usize::from(self.register);
        u64::from(r[n]) + 0x1_0000_0000 * u64::from(r[n + 1])
    }
}

/// A quadword in two registers, or nowhere, where the first is 15.
#[inline(always)]
fn put_quad(register: u8, value: u64, r: &mut [u32; 16], total: u64) -> u64
    requires there { register ≢ 14 }
    requires sum { total ≡ sum (take 15 r.old) }
    ensures registers { r.new ≡ with_result register Quad value r.old }
    ensures sum { result ≡ sum (take 15 r.new) }
{
    if register >= 14 {
        return total;
    }
    let total = set(r, register, (value % 0x1_0000_0000) as u32, total);
    set(r, register + 1, (value / 0x1_0000_0000) as u32, total)
}

impl QuadMove {
    /// The quadword, if what it reads is in a space.
    #[inline(always)]
    pub fn find<S: Space>(&self, space: &S, r: &[u32; 16]) -> Option<u64>
        ensures { IfSome result (λ x. (u psw : ℕ) → HasClaimed (S.space space.now) self.now.writes r.now u → IsQuadFoundIn self.now (S.space space.now) r.now psw x) }
    {
        let read = read_by(space, &self.reads, r)?;
        match &self.source {
            QuadSource::Constant(value) => Some(*value),
            QuadSource::Registers(pair) => Some(pair.value(r)),
            QuadSource::Read => Some(read),
        }
    }

    /// What it stores, if it does.
    #[inline(always)]
    pub fn store(&self, r: &[u32; 16], value: u64) -> Option<Store>
        ensures { MatchOption result (stored self.now.writes r.now Quad value ≡ []) (λ x. stored self.now.writes r.now Quad value ≡ x ∷ []) }
    {
        match &self.writes {
            None => None,
            Some(reach) => Some(Store {
                va: reach.address(r),
                width: Width::Quad,
                value,
            }),
        }
    }

    /// The registers after it.
    #[inline(always)]
    pub fn finish(&self, value: u64, r: &mut [u32; 16], total: u64) -> u64
        requires { total ≡ sum (take 15 r.old) }
        ensures registers { r.new ≡ quad_finished self.now value r.old }
        ensures sum { result ≡ sum (take 15 r.new) }
    {
        let total = step_by(&self.reads, r, total);
        let total = step_by(&self.writes, r, total);
        go_on(r, self.length, total);
        put_quad(self.register, value, r, total)
    }
}

/// Where the quadword of an operand comes from.
fn source_of(x: &Operand) -> Option<QuadSource>
    ensures { IfSome result (λ n. (v u : ℕ) (r q : List ℕ) → IsMoved r q → value_had v u x.now.kind x.now.form.width x.now.spec q ≡ quad_from n v r) }
{
    match (x.kind, x.form.width) {
        (Kind::Constant, _) => Some(QuadSource::Constant(x.spec.value)),
        (Kind::ReadRegister, Width::Quad) if x.spec.reg < 14 => {
            Some(QuadSource::Registers(RegisterPair {
                register: x.spec.reg,
            }))
        }
        (Kind::Read(_), _) => Some(QuadSource::Read),
        _ => None,
    }
}

/// A quadword moved to the place of one of these operands.
fn quad_to(x: &Operand, source: QuadSource, operands: &[Operand], length: u32) -> Option<QuadMove>
    ensures touches { IfSome result (λ n. AreTouched (record { reads = n.reads; writes = n.writes }) operands.now) }
    ensures put { IfSome result (λ n. (r : List ℕ) (at : ℕ) → IsClaimedAt n.writes r at → IsPutIn n.register n.writes (dest_had at x.now.kind x.now.spec.reg) r) }
    ensures source { IfSome result (λ n. n.source ≡ source) }
    ensures length { IfSome result (λ n. n.length ≡ length) }
{
    let touches = touches_of(operands)?;
    if !has_width(&touches.writes, Width::Quad) {
        return None;
    }
    let register = put_of(x, &touches.writes)?;
    if register == 14 {
        return None;
    }
    Some(QuadMove {
        source,
        register,
        reads: touches.reads,
        writes: touches.writes,
        length,
    })
}

/// The normal form of CLRQ or MOVQ.
pub fn quad_move_of(prepared: &Prepared) -> Option<QuadMove>
    requires { IsWellFormed (view prepared.now.decoded) }
    ensures { IfSome result (λ n. IsQuadMove n (view prepared.now.decoded)) }
{
    let operands = prepared.operands.as_slice();
    let length = u32::from(prepared.decoded.length);
    match (prepared.operation, operands) {
        (Operation::ClearQuad, [x]) => quad_to(x, QuadSource::Constant(0), operands, length),
        (Operation::MoveQuad, [x, y]) => quad_to(y, source_of(x)?, operands, length),
        _ => None,
    }
}

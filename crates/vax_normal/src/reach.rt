ghost use Rattle.std.specs.Prelude.{◌≡◌, sum, take, IfSome};
ghost use Rattle.vax_normal.specs.InMemory.{HasRead, reach_address, reach_stepped, stepped_by};
ghost use Rattle.vax_normal.specs.Touched.{IsReachOf};

use crate::shape::Reach;
use crate::total::set;
use vax_operand::{Base, Space};
use vax_table::Spec;
use vv_base::Width;

impl Reach {
    /// Its address.
    #[inline(always)]
    pub fn address(&self, r: &[u32; 16]) -> u32
        ensures { result ≡ reach_address self.now r.now }
    {
        r[usize::from(self.register)].wrapping_add(self.offset)
    }

    /// Its register goes on.
    #[inline(always)]
    fn step(&self, r: &mut [u32; 16], total: u64) -> u64
        requires { total ≡ sum (take 15 r.old) }
        ensures registers { r.new ≡ reach_stepped self.now r.old }
        ensures sum { result ≡ sum (take 15 r.new) }
    {
        if self.step == 0 {
            return total;
        }
        let next = r[usize::from(self.register)].wrapping_add(self.step);
        set(r, self.register, next, total)
    }
}

/// The register of a reference goes on, if there is one.
#[inline(always)]
pub fn step_by(reach: &Option<Reach>, r: &mut [u32; 16], total: u64) -> u64
    requires { total ≡ sum (take 15 r.old) }
    ensures registers { r.new ≡ stepped_by reach.now r.old }
    ensures sum { result ≡ sum (take 15 r.new) }
{
    match reach {
        None => total,
        Some(reach) => reach.step(r, total),
    }
}

/// The number that a reference reads, if there is one, or else 0.
#[inline(always)]
pub fn read_by<S: Space>(space: &S, reach: &Option<Reach>, r: &[u32; 16]) -> Option<u64>
    ensures { IfSome result (λ v. HasRead (S.space space.now) reach.now r.now v) }
{
    let Some(reach) = reach else {
        return Some(0);
    };
    match space.read(reach.address(r), reach.width) {
        Ok(v) => Some(v),
        Err(_) => None,
    }
}

/// How a specifier refers to memory, if it does so by a register alone, or one and a displacement.
pub fn reach_by(base: Base, width: Width, spec: &Spec) -> Option<Reach>
    ensures { IfSome result (λ p. IsReachOf p base width spec.now) }
{
    if spec.reg >= 15 {
        return None;
    }
    let register = spec.reg;
    let bytes = u32::from(width.bytes());
    match (base, spec.index) {
        (Base::Deferred, None) => Some(Reach {
            register,
            offset: 0,
            step: 0,
            width,
        }),
        (Base::Decrement, None) => Some(Reach {
            register,
            offset: u32::MAX - (bytes - 1),
            step: u32::MAX - (bytes - 1),
            width,
        }),
        (Base::Increment, None) => Some(Reach {
            register,
            offset: 0,
            step: bytes,
            width,
        }),
        (Base::Displaced(offset), None) if offset != 0 => Some(Reach {
            register,
            offset,
            step: 0,
            width,
        }),
        _ => None,
    }
}

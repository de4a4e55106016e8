ghost use Rattle.std.specs.Prelude.{◌≡◌, ◌≤◌, ◌<◌, IfSome};
ghost use Rattle.vax_arch.specs.declared.mode.Intent.TheVariants.{Read};
ghost use Rattle.vax_table.specs.Operand.{indexed_by, place};
ghost use Rattle.vax_table.specs.Interaction.{number_at, outcome};
ghost use Rattle.vax_table.specs.Troubles.{with_trouble};
ghost use Rattle.vax_operand.specs.Left.{place_or_trouble};
ghost use Rattle.vax_operand.specs.Prepared.{IsAddressed, address_by, base_by};

use crate::kind::Base;
use crate::space::Space;
use vax_table::Spec;
use vax_table::evaluation::Trouble;
use vv_base::Width;

/// The longword from an address, which is an address again.
#[inline(never)]
fn pointer<S: Space>(space: &S, va: u32) -> Result<u32, Trouble>
    ensures { with_trouble result ≡ number_at (S.space space.now) Read 4 va }
{
    Ok(space.read(va, Width::Long)? as u32)
}

/// The address that a base and its register give for an operand of `size` bytes, whose side effect is on `r`.
#[inline(always)]
#[tactic(auto, unfolding(crate::specs::Prepared::base_by))]
fn base_address<S: Space>(
    space: &S,
    base: Base,
    size: u32,
    n: u8,
    r: &mut [u32; 16],
) -> Result<u32, Trouble>
    requires register { n < 16 }
    requires size { size ≤ 8 }
    ensures { place_or_trouble result r.new ≡ outcome (S.space space.now) (base_by base size n r.old) }
{
    let n = usize::from(n);
    let x = r[n];
    let at = match base {
        Base::Deferred => x,
        Base::Decrement => {
            let lower = x.wrapping_sub(size);
            r[n] = lower;
            lower
        }
        Base::Increment => {
            r[n] = x.wrapping_add(size);
            x
        }
        Base::IncrementDeferred => {
            let at = pointer(space, x)?;
            r[n] = x.wrapping_add(4);
            at
        }
        Base::Absolute(at) => at,
        Base::Displaced(displacement) => x.wrapping_add(displacement),
        Base::DisplacedDeferred(displacement) => pointer(space, x.wrapping_add(displacement))?,
    };
    Ok(at)
}

/// An index adds the size times its register, which is read after the base's side effect.
#[inline(always)]
fn indexed_by(size: u32, index: Option<u8>, base: u32, r: &[u32; 16]) -> u32
    requires register { IfSome index (λ x. x < 15) }
    requires size { size ≤ 8 }
    ensures { place result r.now ≡ indexed_by size index (place base r.now) }
{
    match index {
        None => base,
        Some(x) => base.wrapping_add(size.wrapping_mul(r[usize::from(x)])),
    }
}

/// The address of an operand of `size` bytes in memory, whose side effect is on `r`. R15 is after the specifier.
#[inline(always)]
#[tactic(auto, unfolding(crate::specs::Prepared::address_by), using(vax_table::proofs::Scripts::binds))]
pub fn address<S: Space>(
    space: &S,
    base: Base,
    size: u32,
    spec: &Spec,
    r: &mut [u32; 16],
) -> Result<u32, Trouble>
    requires registers { IsAddressed spec.now }
    requires size { size ≤ 8 }
    ensures { place_or_trouble result r.new ≡ outcome (S.space space.now) (address_by base size spec.now r.old) }
{
    let at = base_address(space, base, size, spec.reg, r)?;
    Ok(indexed_by(size, spec.index, at, r))
}

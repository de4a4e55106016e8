ghost use Rattle.std.specs.Prelude.{◌≡◌, ◌<◌, ◌^◌, OnOk};
ghost use Rattle.vv_base.specs.Width.{size_of};
ghost use Rattle.vax_table.specs.Operand.{evaluated, register_value};
ghost use Rattle.vax_table.specs.AllOperands.{operand_of};
ghost use Rattle.vax_table.specs.Interaction.{outcome};
ghost use Rattle.vax_table.specs.LegalOperands.{FitsForm};
ghost use Rattle.vax_operand.specs.Left.{left};
ghost use Rattle.vax_operand.specs.Prepared.{IsAddressed, access_of, operand_by};

use crate::address::address;
use crate::kind::{Base, Kind};
use crate::prepared::Operand;
use crate::space::Space;
use vax_table::evaluation::Trouble;
use vax_table::{Dest, Spec};
use vv_base::Width;

/// The value of a register: its low bits; a quadword is Rn and Rn+1.
#[inline(always)]
fn register_value(w: Width, r: &[u32; 16], n: u8) -> u64
    requires { n < 15 }
    ensures value { result ≡ register_value w r.now n }
    ensures fits { result < 256 ^ size_of w }
{
    let n = usize::from(n);
    let low = u64::from(r[n]);
    match w {
        Width::Byte => low % 0x100,
        Width::Word => low % 0x1_0000,
        Width::Long => low,
        Width::Quad => low + 0x1_0000_0000 * u64::from(r[n + 1]),
    }
}

/// A source in memory.
#[inline(always)]
#[tactic(auto, unfolding(crate::specs::Prepared::operand_by), using(vax_table::proofs::Scripts::binds))]
fn read_operand<S: Space>(
    space: &S,
    base: Base,
    w: Width,
    spec: &Spec,
    r: &mut [u32; 16],
    value: &mut u64,
    dest: &mut Dest,
) -> Result<(), Trouble>
    requires { IsAddressed spec.now }
    ensures outcome { left result (evaluated value.new dest.new r.new) ≡ outcome (S.space space.now) (operand_by (Kind.Read base) w spec.now r.old) }
    ensures fits { OnOk result (FitsForm (record { access = access_of (Kind.Read base); width = w }) value.new dest.new) }
{
    let at = address(space, base, u32::from(w.bytes()), spec, r)?;
    *value = space.read(at, w)?;
    *dest = Dest::Nowhere;
    Ok(())
}

/// A source in memory that is written too: one access with write intent.
#[inline(always)]
#[tactic(auto, unfolding(crate::specs::Prepared::operand_by), using(vax_table::proofs::Scripts::binds))]
fn modified_operand<S: Space>(
    space: &S,
    base: Base,
    w: Width,
    spec: &Spec,
    r: &mut [u32; 16],
    value: &mut u64,
    dest: &mut Dest,
) -> Result<(), Trouble>
    requires { IsAddressed spec.now }
    ensures outcome { left result (evaluated value.new dest.new r.new) ≡ outcome (S.space space.now) (operand_by (Kind.Modify base) w spec.now r.old) }
    ensures fits { OnOk result (FitsForm (record { access = access_of (Kind.Modify base); width = w }) value.new dest.new) }
{
    let at = address(space, base, u32::from(w.bytes()), spec, r)?;
    *value = space.claim(at, w)?;
    *dest = Dest::Memory(at);
    Ok(())
}

/// A destination in memory, which is tested for writing here.
#[inline(always)]
#[tactic(auto, unfolding(crate::specs::Prepared::operand_by), using(vax_table::proofs::Scripts::binds))]
fn written_operand<S: Space>(
    space: &S,
    base: Base,
    w: Width,
    spec: &Spec,
    r: &mut [u32; 16],
    value: &mut u64,
    dest: &mut Dest,
) -> Result<(), Trouble>
    requires { IsAddressed spec.now }
    ensures outcome { left result (evaluated value.new dest.new r.new) ≡ outcome (S.space space.now) (operand_by (Kind.Write base) w spec.now r.old) }
    ensures fits { OnOk result (FitsForm (record { access = access_of (Kind.Write base); width = w }) value.new dest.new) }
{
    let at = address(space, base, u32::from(w.bytes()), spec, r)?;
    space.claim(at, w)?;
    *value = 0;
    *dest = Dest::Memory(at);
    Ok(())
}

/// An operand whose address is taken.
#[inline(always)]
#[tactic(auto, unfolding(crate::specs::Prepared::operand_by), using(vax_table::proofs::Scripts::binds))]
fn address_operand<S: Space>(
    space: &S,
    base: Base,
    w: Width,
    spec: &Spec,
    r: &mut [u32; 16],
    value: &mut u64,
    dest: &mut Dest,
) -> Result<(), Trouble>
    requires { IsAddressed spec.now }
    ensures outcome { left result (evaluated value.new dest.new r.new) ≡ outcome (S.space space.now) (operand_by (Kind.Address base) w spec.now r.old) }
    ensures fits { OnOk result (FitsForm (record { access = access_of (Kind.Address base); width = w }) value.new dest.new) }
{
    let at = address(space, base, u32::from(w.bytes()), spec, r)?;
    *value = u64::from(at);
    *dest = Dest::Nowhere;
    Ok(())
}

/// An address from which bits are counted.
#[inline(always)]
#[tactic(auto, unfolding(crate::specs::Prepared::operand_by), using(vax_table::proofs::Scripts::binds))]
fn bits_operand<S: Space>(
    space: &S,
    base: Base,
    w: Width,
    spec: &Spec,
    r: &mut [u32; 16],
    value: &mut u64,
    dest: &mut Dest,
) -> Result<(), Trouble>
    requires { IsAddressed spec.now }
    ensures outcome { left result (evaluated value.new dest.new r.new) ≡ outcome (S.space space.now) (operand_by (Kind.Bits base) w spec.now r.old) }
    ensures fits { OnOk result (FitsForm (record { access = access_of (Kind.Bits base); width = w }) value.new dest.new) }
{
    let at = address(space, base, u32::from(w.bytes()), spec, r)?;
    *value = 0;
    *dest = Dest::Memory(at);
    Ok(())
}

/// An operand by its kind, after its own bytes.
#[inline(always)]
#[tactic(auto, unfolding(crate::specs::Prepared::operand_by))]
fn operand_by<S: Space>(
    space: &S,
    x: &Operand,
    r: &mut [u32; 16],
    value: &mut u64,
    dest: &mut Dest,
) -> Result<(), Trouble>
    ensures outcome { left result (evaluated value.new dest.new r.new) ≡ outcome (S.space space.now) (operand_by x.now.kind x.now.form.width x.now.spec r.old) }
    ensures fits { OnOk result (FitsForm (record { access = access_of x.now.kind; width = x.now.form.width }) value.new dest.new) }
{
    let w = x.form.width;
    match x.kind {
        Kind::Constant => {
            *value = x.spec.value;
            *dest = Dest::Nowhere;
        }
        Kind::ReadRegister => {
            *value = register_value(w, r, x.spec.reg);
            *dest = Dest::Nowhere;
        }
        Kind::ModifyRegister => {
            *value = register_value(w, r, x.spec.reg);
            *dest = Dest::Register(x.spec.reg);
        }
        Kind::WriteRegister | Kind::BitsRegister => {
            *value = 0;
            *dest = Dest::Register(x.spec.reg);
        }
        Kind::Branch(displacement) => {
            *value = u64::from(r[15].wrapping_add(displacement));
            *dest = Dest::Nowhere;
        }
        Kind::Read(base) => return read_operand(space, base, w, &x.spec, r, value, dest),
        Kind::Modify(base) => return modified_operand(space, base, w, &x.spec, r, value, dest),
        Kind::Write(base) => return written_operand(space, base, w, &x.spec, r, value, dest),
        Kind::Address(base) => return address_operand(space, base, w, &x.spec, r, value, dest),
        Kind::Bits(base) => return bits_operand(space, base, w, &x.spec, r, value, dest),
    }
    Ok(())
}

/// One operand, which sees PC after its own bytes, and whose side effect is on `r`: its value, and where its result goes.
#[inline(always)]
pub fn operand_of<S: Space>(
    space: &S,
    x: &Operand,
    r: &mut [u32; 16],
    value: &mut u64,
    dest: &mut Dest,
) -> Result<(), Trouble>
    ensures outcome { left result (evaluated value.new dest.new r.new) ≡ outcome (S.space space.now) (operand_of x.now.form x.now.spec r.old) }
    ensures fits { OnOk result (FitsForm x.now.form value.new dest.new) }
{
    r[15] = r[15].wrapping_add(x.length);
    operand_by(space, x, r, value, dest)
}

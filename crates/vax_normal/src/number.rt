ghost use Rattle.std.specs.Prelude.{◌≡◌, ◌≢◌, ◌+◌, ◌-◌, ◌%◌, ◌^◌, ◌<◌, true, List, ℕ, slice_index, IfSome};
ghost use Rattle.vv_base.specs.Width.{bits_of};
ghost use Rattle.vax_table.specs.Operand.{plus, register_value};
ghost use Rattle.vax_normal.specs.AtHand.{AreAlikeButPc, is_at_hand, operands_length, value_at_hand};
ghost use Rattle.vax_normal.specs.Normal.{number_by};

use crate::shape::Number;
use vax_operand::{Base, Kind, Operand};
use vax_table::Spec;
use vv_base::Width;

impl Number {
    /// A constant.
    pub fn constant(value: u32) -> Number
        ensures { (r : List ℕ) → number_by result r ≡ value }
    {
        Number {
            register: 0,
            mask: 0,
            offset: value,
        }
    }

    /// A longword of a register.
    pub fn longword(register: u8) -> Number
        requires { register < 15 }
        ensures { (r : List ℕ) → number_by result r ≡ slice_index r register % 2 ^ 32 }
    {
        Number {
            register,
            mask: 0xFFFF_FFFF,
            offset: 0,
        }
    }

    /// The number, by the registers.
    #[inline(always)]
    pub fn value(&self, r: &[u32; 16]) -> u32
        ensures { result ≡ number_by self.now r.now }
    {
        (r[usize::from(self.register)] & self.mask).wrapping_add(self.offset)
    }
}

/// The low bits of a register that an operand of a width has, where that is at most a longword.
fn mask_of(w: Width) -> Option<u32>
    ensures { IfSome result (λ mask. (mask ≡ 2 ^ bits_of w - 1) × (w ≢ Width.Quad)) }
{
    match w {
        Width::Byte => Some(0xFF),
        Width::Word => Some(0xFFFF),
        Width::Long => Some(0xFFFF_FFFF),
        Width::Quad => None,
    }
}

/// What a register has of a width that is at most a longword.
fn in_register(register: u8, width: Width) -> Option<Number>
    requires { register < 15 }
    ensures { IfSome result (λ n. (r q : List ℕ) → AreAlikeButPc r q → register_value width q register % 2 ^ 32 ≡ number_by n r) }
{
    let mask = mask_of(width)?;
    Some(Number {
        register,
        mask,
        offset: 0,
    })
}

/// A register and an offset, if that isn't PC.
pub fn offset_from(register: u8, offset: u32) -> Option<Number>
    ensures { IfSome result (λ n. (r q : List ℕ) → AreAlikeButPc r q → (slice_index q register + offset) % 2 ^ 32 ≡ number_by n r) }
{
    if register >= 15 {
        return None;
    }
    Some(Number {
        register,
        mask: 0xFFFF_FFFF,
        offset,
    })
}

/// An address that is taken, if it is a constant or a register and an offset.
fn address_of(base: Base, width: Width, spec: &Spec) -> Option<Number>
    ensures { IfSome result (λ n. (r q : List ℕ) → AreAlikeButPc r q → value_at_hand (Kind.Address base) width spec.now q % 2 ^ 32 ≡ number_by n r) }
{
    match (base, spec.index) {
        (Base::Absolute(address), None) => Some(Number::constant(address)),
        (Base::Deferred, None) => offset_from(spec.reg, 0),
        (Base::Displaced(offset), None) => offset_from(spec.reg, offset),
        _ => None,
    }
}

/// How many bytes operands have in an instruction, modulo 2^32.
fn operands_length(operands: &[Operand]) -> u32
    ensures { result ≡ operands_length operands.now }
{
    let [operand, rest @ ..] = operands else {
        return 0;
    };
    operand.length.wrapping_add(operands_length(rest))
}

/// An address by PC, from the instruction's own. An operand sees PC after its own bytes, and before those of the rest.
pub fn relative_of(x: &Operand, rest: &[Operand], length: u32) -> Option<Number>
    ensures hand { IfSome result (λ n. is_at_hand x.now.kind ≡ true) }
    ensures pc { IfSome result (λ n. (n.register ≡ 15) × (n.mask ≡ 2 ^ 32 - 1)) }
    ensures value { IfSome result (λ n. (r q : List ℕ) → plus (slice_index q 15) (operands_length rest.now)
        ≡ plus (slice_index r 15) length → value_at_hand x.now.kind x.now.form.width x.now.spec q % 2 ^ 32
        ≡ number_by n r) }
{
    match (x.kind, x.spec.index) {
        (Kind::Address(Base::Displaced(displacement)), None) if x.spec.reg == 15 => Some(Number {
            register: 15,
            mask: 0xFFFF_FFFF,
            offset: displacement
                .wrapping_add(length)
                .wrapping_sub(operands_length(rest)),
        }),
        _ => None,
    }
}

/// What is read of an operand, if that is a constant, in a register, or an address by one.
pub fn number_of(x: &Operand) -> Option<Number>
    ensures { IfSome result (λ n. (r q : List ℕ) → AreAlikeButPc r q → value_at_hand x.now.kind x.now.form.width x.now.spec q % 2 ^ 32 ≡ number_by n r) }
{
    match x.kind {
        Kind::Constant => Some(Number::constant((x.spec.value % 0x1_0000_0000) as u32)),
        Kind::ReadRegister => in_register(x.spec.reg, x.form.width),
        Kind::ModifyRegister => in_register(x.spec.reg, x.form.width),
        Kind::Address(base) => address_of(base, x.form.width, &x.spec),
        _ => None,
    }
}

ghost use Rattle.std.specs.Prelude.{◌≡◌, ◌≤◌, ◌<◌, ◌%◌, ◌^◌};
ghost use Rattle.vv_base.specs.Width.{size_of};
ghost use Rattle.vax_table.specs.Operand.{extended};
ghost use Rattle.vax_table.specs.AllOperands.{operand_length};
ghost use Rattle.vax_table.specs.LegalOperands.{IsFormed, IsLegalOperand};
ghost use Rattle.vax_operand.specs.Prepared.{base_of, kind_of};

use vax_table::{Access, Form, Spec, displacement_width, value_size};
use vv_base::Width;

/// How a specifier without index gives the address of an operand in memory.
#[derive(Clone, Copy)]
pub enum Base {
    /// The register.
    Deferred,
    /// The register, from which the operand's size is taken before.
    Decrement,
    /// The register, to which the operand's size is added afterwards.
    Increment,
    /// The longword at the register, to which 4 is added afterwards.
    IncrementDeferred,
    /// This address.
    Absolute(u32),
    /// The register and this displacement, modulo 2^32.
    Displaced(u32),
    /// The longword at the register and this displacement, modulo 2^32.
    DisplacedDeferred(u32),
}

/// What an operand is: its access, and whether a constant, a register or memory has it.
#[derive(Clone, Copy)]
pub enum Kind {
    /// A literal or an immediate, which is read.
    Constant,
    ReadRegister,
    ModifyRegister,
    WriteRegister,
    /// A register from which bits are counted.
    BitsRegister,
    /// A branch by this displacement, modulo 2^32.
    Branch(u32),
    Read(Base),
    Modify(Base),
    Write(Base),
    /// An address that is taken.
    Address(Base),
    /// An address from which bits are counted.
    Bits(Base),
}

/// A displacement of a width, sign-extended to 32 bits.
fn extended(w: Width, value: u64) -> u32
    requires { value < 256 ^ size_of w }
    ensures { result ≡ extended (size_of w) value % 2 ^ 32 }
{
    match w {
        Width::Byte if value >= 0x80 => (value + 0xFFFF_FF00) as u32,
        Width::Word if value >= 0x8000 => (value + 0xFFFF_0000) as u32,
        _ => (value % 0x1_0000_0000) as u32,
    }
}

/// How a specifier gives the address of an operand of a width.
#[tactic(auto, unfolding(crate::specs::Prepared::base_of))]
fn base_of(w: Width, spec: &Spec) -> Base
    requires formed { IsFormed spec.now }
    requires memory { 5 < spec.now.mode }
    ensures { result ≡ base_of (size_of w) spec.now }
{
    match (spec.mode, spec.reg) {
        (6, _) => Base::Deferred,
        (7, _) => Base::Decrement,
        (8, 15) => Base::Displaced(u32::MAX - u32::from(w.bytes() - 1)),
        (8, _) => Base::Increment,
        (9, 15) => Base::Absolute(spec.value as u32),
        (9, _) => Base::IncrementDeferred,
        (mode, _) => {
            let displacement = extended(displacement_width(mode), spec.value);
            if mode % 2 == 0 {
                Base::Displaced(displacement)
            } else {
                Base::DisplacedDeferred(displacement)
            }
        }
    }
}

/// What an operand of a form is.
#[tactic(auto, unfolding(crate::specs::Prepared::kind_by))]
pub fn kind_of(form: Form, spec: &Spec) -> Kind
    requires { IsLegalOperand form.access form.width spec.now }
    ensures { result ≡ kind_of form spec.now }
{
    let w = form.width;
    match (form.access, spec.mode) {
        (Access::Read, 0) => Kind::Constant,
        (Access::Read, 8) if spec.reg == 15 => Kind::Constant,
        (Access::Read, 5) => Kind::ReadRegister,
        (Access::Modify, 5) => Kind::ModifyRegister,
        (Access::Write, 5) => Kind::WriteRegister,
        (Access::Bits, 5) => Kind::BitsRegister,
        (Access::Read, _) => Kind::Read(base_of(w, spec)),
        (Access::Modify, _) => Kind::Modify(base_of(w, spec)),
        (Access::Write, _) => Kind::Write(base_of(w, spec)),
        (Access::Address, _) => Kind::Address(base_of(w, spec)),
        (Access::Bits, _) => Kind::Bits(base_of(w, spec)),
        (Access::Branch, _) => Kind::Branch(extended(w, spec.value)),
    }
}

/// How many bytes an operand has in the instruction.
pub fn operand_length(form: Form, spec: &Spec) -> u32
    ensures value { result ≡ operand_length form spec.now }
    ensures most { result ≤ 10 }
{
    if form.access == Access::Branch {
        u32::from(form.width.bytes())
    } else if spec.index.is_some() {
        2 + u32::from(value_size(form, spec))
    } else {
        1 + u32::from(value_size(form, spec))
    }
}

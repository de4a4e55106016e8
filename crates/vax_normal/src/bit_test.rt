ghost use Rattle.std.specs.Prelude.{◌≡◌, ◌<◌, true, Ok, sum, take, IfSome};
ghost use Rattle.vv_base.specs.Bits.{is_set};
ghost use Rattle.vax_table.specs.Branches.{byte_of_bit};
ghost use Rattle.vax_table.specs.Spelling.{IsWellFormed, view};
ghost use Rattle.vax_arch.specs.declared.mode.Intent.TheVariants.{Read};
ghost use Rattle.vax_table.specs.Interaction.{number_at};
ghost use Rattle.vax_normal.specs.AtHand.{is_at_hand};
ghost use Rattle.vax_normal.specs.BitTest.{IsBitBase, IsBitTest, IsNumberOf, bit_address, bit_tested_in};

use crate::carry_out::go_on;
use crate::make::{is_at_hand, jump_of};
use crate::number::{number_of, offset_from};
use crate::shape::Number;
use vax_flow::{byte_of_bit, comes_out};
use vax_operand::{Base, Kind, Operand, Prepared, Space};
use vax_table::Operation;
use vv_base::Width;

/// BBS or BBC of memory in normal form: the position of the bit, and the address from which it counts, are had at once. It
/// branches by a number of bytes from its own address.
#[derive(Clone, Copy)]
pub struct BitTest {
    pub on: bool,
    pub position: Number,
    pub base: Number,
    pub jump: u32,
    pub length: u32,
}

/// Whether bit k of a byte is set.
#[inline(always)]
fn has(byte: u64, k: u32) -> bool
    requires { k < 8 }
    ensures { result ≡ is_set byte k }
{
    (byte >> k) % 2 == 1
}

impl BitTest {
    /// The byte that has the bit, if it is in a space.
    #[inline(always)]
    pub fn find<S: Space>(&self, space: &S, r: &[u32; 16]) -> Option<u64>
        ensures { IfSome result (λ byte. number_at (S.space space.now) Read 1 (bit_address self.now r.now) ≡ Ok byte) }
    {
        let at = byte_of_bit(self.base.value(r), self.position.value(r));
        match space.read(at, Width::Byte) {
            Ok(byte) => Some(byte),
            Err(_) => None,
        }
    }

    /// The registers after it, where this is the byte.
    #[inline(always)]
    pub fn finish(&self, byte: u64, r: &mut [u32; 16], total: u64)
        requires { total ≡ sum (take 15 r.old) }
        ensures registers { r.new ≡ bit_tested_in self.now byte r.old }
        ensures sum { total ≡ sum (take 15 r.new) }
    {
        let is_set = has(byte, self.position.value(r) % 8);
        let by = if comes_out(self.on, is_set) {
            self.jump
        } else {
            self.length
        };
        go_on(r, by, total);
    }
}

/// The address that is a register of R0 to R14 and an offset.
fn base_of(x: &Operand) -> Option<Number>
    ensures { IfSome result (λ n. IsBitBase n x.now) }
{
    match x.kind {
        Kind::Bits(base) => match (base, x.spec.index) {
            (Base::Deferred, None) => offset_from(x.spec.reg, 0),
            (Base::Displaced(offset), None) => offset_from(x.spec.reg, offset),
            _ => None,
        },
        _ => None,
    }
}

/// A position that is had at once.
fn position_of(x: &Operand) -> Option<Number>
    ensures hand { IfSome result (λ n. is_at_hand x.now.kind ≡ true) }
    ensures number { IfSome result (λ n. IsNumberOf n x.now) }
{
    if !is_at_hand(x.kind) {
        return None;
    }
    number_of(x)
}

/// The normal form of BBS or BBC of memory.
pub fn bit_test_of(prepared: &Prepared) -> Option<BitTest>
    requires { IsWellFormed (view prepared.now.decoded) }
    ensures { IfSome result (λ n. IsBitTest n (view prepared.now.decoded)) }
{
    let length = u32::from(prepared.decoded.length);
    match (prepared.operation, prepared.operands.as_slice()) {
        (Operation::BranchOnBit(on, becomes), [x, y, z]) => match (becomes, z.kind) {
            (None, Kind::Branch(displacement)) => Some(BitTest {
                on,
                position: position_of(x)?,
                base: base_of(y)?,
                jump: jump_of(displacement, length),
                length,
            }),
            _ => None,
        },
        _ => None,
    }
}

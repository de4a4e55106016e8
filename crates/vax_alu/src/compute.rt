ghost use Rattle.std.specs.Prelude.{◌≡◌, ◌≢◌, ◌^◌, ◌<◌, ◌*ℤ◌, false};
ghost use Rattle.vv_base.specs.Bits.{is_set};
ghost use Rattle.vv_base.specs.Width.{bits_of, signed_of};
ghost use Rattle.vax_table.specs.Arithmetic.{alu_of, alu_of_result, comparison_of, difference_of, exactly, negation_of, psw_with, quotient_of, rotated, shifted, sum_of, valued};

use crate::exact::{
    borrows, carries, complement, fits, low_bits, minus, negative, plus, power_of_two, quotient,
    reduce, shifted_right, span, times,
};
use vax_table::{Alu, AluOp};
use vv_base::{Width, signed};

/// C, bit 0.
#[inline]
fn carry_of(psw: u8) -> bool
    ensures { result ≡ is_set psw 0 }
{
    psw % 2 == 1
}

/// IV, bit 5.
#[inline]
fn traps_overflow(psw: u8) -> bool
    ensures { result ≡ is_set psw 5 }
{
    psw / 32 % 2 == 1
}

/// The PSW with these condition codes.
#[inline]
fn with_codes(psw: u8, n: bool, z: bool, v: bool, c: bool) -> u8
    ensures { result ≡ psw_with psw (record { n = n; z = z; v = v; c = c }) }
{
    psw / 16 * 16 + 8 * u8::from(n) + 4 * u8::from(z) + 2 * u8::from(v) + u8::from(c)
}

/// A value of the width, with N and Z of it.
#[inline]
fn valued(value: u32, w: Width, v: bool, c: bool, psw: u8) -> Alu
    requires { w ≢ Width.Quad }
    ensures { result ≡ alu_of_result (valued w value v c) psw }
{
    let n = span(w) / 2 <= i64::from(value);
    Alu {
        value,
        psw: with_codes(psw, n, value == 0, v, c),
        trap: if v && traps_overflow(psw) {
            Some(1)
        } else {
            None
        },
    }
}

/// An exact result, where V says that it doesn't fit.
#[inline]
fn exact(x: i64, w: Width, c: bool, psw: u8) -> Alu
    requires { w ≢ Width.Quad }
    ensures { result ≡ alu_of_result (exactly w x c) psw }
{
    valued(reduce(x, w), w, !fits(x, w), c, psw)
}

/// A result of bits, where C is as before.
#[inline]
fn plain(value: u32, w: Width, psw: u8) -> Alu
    requires { w ≢ Width.Quad }
    ensures { result ≡ alu_of_result (valued w value false (is_set psw 0)) psw }
{
    valued(value, w, false, carry_of(psw), psw)
}

/// Second plus first plus a carry.
#[tactic(auto, using(crate::proofs::Casts::casts))]
#[inline(always)]
fn sum(a: u32, b: u32, c: bool, w: Width, psw: u8) -> Alu
    requires { w ≢ Width.Quad }
    ensures { result ≡ alu_of_result (sum_of w a b c) psw }
{
    let x = plus(signed(b, w), signed(a, w), c);
    exact(x, w, carries(low_bits(b, w), low_bits(a, w), c, w), psw)
}

/// Second minus first minus a borrow.
#[tactic(auto, using(crate::proofs::Casts::casts))]
#[inline(always)]
fn difference(a: u32, b: u32, c: bool, w: Width, psw: u8) -> Alu
    requires { w ≢ Width.Quad }
    ensures { result ≡ alu_of_result (difference_of w a b c) psw }
{
    let x = minus(signed(b, w), signed(a, w), c);
    exact(x, w, borrows(low_bits(b, w), low_bits(a, w), c), psw)
}

/// Second times first.
#[tactic(auto, using(crate::proofs::Casts::casts))]
#[inline(always)]
fn product(a: u32, b: u32, w: Width, psw: u8) -> Alu
    requires { w ≢ Width.Quad }
    ensures { result ≡ alu_of_result (exactly w (signed_of w b *ℤ signed_of w a) false) psw }
{
    exact(times(signed(b, w), i64::from(signed(a, w))), w, false, psw)
}

/// Second by first, toward zero; a zero divisor gives the dividend, with V and trap 2.
#[tactic(auto, using(crate::proofs::Casts::casts))]
#[inline(always)]
fn divide(a: u32, b: u32, w: Width, psw: u8) -> Alu
    requires { w ≢ Width.Quad }
    ensures { result ≡ alu_of_result (quotient_of w a b) psw }
{
    if low_bits(a, w) == 0 {
        Alu {
            trap: Some(2),
            ..valued(low_bits(b, w), w, true, false, psw)
        }
    } else {
        exact(quotient(signed(b, w), signed(a, w)), w, false, psw)
    }
}

/// Minus a number, where C says that the result isn't 0.
#[tactic(auto, using(crate::proofs::Casts::casts))]
#[inline(always)]
fn negate(a: u32, w: Width, psw: u8) -> Alu
    requires { w ≢ Width.Quad }
    ensures { result ≡ alu_of_result (negation_of w a) psw }
{
    let x = negative(signed(a, w));
    exact(x, w, reduce(x, w) != 0, psw)
}

/// First against second: N below, signed; Z equal; C below, unsigned.
#[tactic(auto, using(crate::proofs::Casts::casts))]
#[inline]
fn compare(a: u32, b: u32, w: Width, psw: u8) -> Alu
    requires { w ≢ Width.Quad }
    ensures { result ≡ alu_of_result (comparison_of w a b) psw }
{
    let n = signed(a, w) < signed(b, w);
    let (first, second) = (low_bits(a, w), low_bits(b, w));
    Alu {
        value: 0,
        psw: with_codes(psw, n, first == second, false, first < second),
        trap: None,
    }
}

/// A number times 2 to a count, rounded down where the count is below 0.
#[tactic(auto, using(crate::proofs::Casts::casts))]
#[inline(always)]
fn shift(b: u32, count: i32, w: Width, psw: u8) -> Alu
    requires { w ≢ Width.Quad }
    ensures { result ≡ alu_of_result (exactly w (shifted (signed_of w b) count) false) psw }
{
    let x = signed(b, w);
    let by = count.unsigned_abs();
    if count < 0 {
        exact(shifted_right(x, by), w, false, psw)
    } else if by < 32 {
        exact(times(x, power_of_two(by)), w, false, psw)
    } else {
        valued(0, w, x != 0, false, psw)
    }
}

/// The bits of the width rotated left.
fn rotate(n: u32, count: u32, w: Width) -> u32
    requires width { w ≢ Width.Quad }
    requires bits { n < 2 ^ bits_of w }
    ensures { result ≡ rotated w n count }
{
    match w {
        Width::Byte => u32::from((n as u8).rotate_left(count)),
        Width::Word => u32::from((n as u16).rotate_left(count)),
        Width::Long => n.rotate_left(count),
        Width::Quad => unreachable!(),
    }
}

/// What `alu` gives, in a width that is known where this is written out, so that nothing is chosen by it.
#[inline(always)]
#[tactic(auto, using(crate::proofs::Casts::casts), unfolding(vax_table::specs::Arithmetic::alu_of))]
fn alu_in(op: AluOp, a: u32, b: u32, w: Width, psw: u8) -> Alu
    requires { w ≢ Width.Quad }
    ensures { result ≡ alu_of op a b w psw }
{
    let first = low_bits(a, w);
    let second = low_bits(b, w);
    match op {
        AluOp::Add => sum(a, b, false, w, psw),
        AluOp::Sub => difference(a, b, false, w, psw),
        AluOp::AddCarry => sum(a, b, carry_of(psw), w, psw),
        AluOp::SubBorrow => difference(a, b, carry_of(psw), w, psw),
        AluOp::Mul => product(a, b, w, psw),
        AluOp::Div => divide(a, b, w, psw),
        AluOp::Bis => plain(second | first, w, psw),
        AluOp::Bic => plain(second & complement(a, w), w, psw),
        AluOp::Xor => plain(second ^ first, w, psw),
        AluOp::Mneg => negate(a, w, psw),
        AluOp::Mcom => plain(complement(a, w), w, psw),
        AluOp::Move => plain(first, w, psw),
        AluOp::Cmp => compare(a, b, w, psw),
        AluOp::Bit => plain(second & first, w, psw),
        AluOp::Tst => valued(first, w, false, false, psw),
        AluOp::Ash => shift(b, signed(a, Width::Byte), w, psw),
        AluOp::Rot => plain(rotate(second, a % 256, w), w, psw),
        AluOp::Narrow => exact(i64::from(signed(a, Width::Long)), w, false, psw),
    }
}

/// The value, the condition codes and the trap of an operation on the low bits of two operands,
/// by the VAX Architecture Reference Manual. A count of Ash or Rot is the signed low byte of `a`,
/// and Narrow takes all of `a`. It is written out where it is called, and so is all that it calls:
/// one call alone would pass each operation's answer through memory.
#[inline(always)]
pub fn alu(op: AluOp, a: u32, b: u32, w: Width, psw: u8) -> Alu
    requires { w ≢ Width.Quad }
    ensures { result ≡ alu_of op a b w psw }
{
    match w {
        Width::Byte => alu_in(op, a, b, Width::Byte, psw),
        Width::Word => alu_in(op, a, b, Width::Word, psw),
        Width::Long => alu_in(op, a, b, Width::Long, psw),
        Width::Quad => unreachable!(),
    }
}

ghost use Rattle.std.specs.Prelude.{◌≢◌};

use std::process::Abort;
use vax_alu::{Alu, AluOp, alu};
use vv_base::Width;

const N: u8 = 8;

const Z: u8 = 4;

const V: u8 = 2;

const C: u8 = 1;

const IV: u8 = 0x20;

/// A number by where it lies: near 0, near the least number of the width, or near the greatest.
#[derive(Clone, Copy, PartialEq, Eq)]
enum Edge {
    Zero(i8),
    Least(i8),
    Greatest(i8),
}

use AluOp::{
    Add, AddCarry, Ash, Bic, Bis, Bit, Cmp, Div, Mcom, Mneg, Move, Mul, Narrow, Rot, Sub,
    SubBorrow, Tst, Xor,
};
use Edge::{Greatest, Least, Zero};

/// First operand, second operand, carry before; value and codes after.
type Case = (AluOp, Edge, Edge, u8, Edge, u8);

static CASES: [Case; 95] = [
    (Add, Zero(0), Zero(0), C, Zero(0), Z),
    (Add, Zero(1), Zero(-1), 0, Zero(0), Z + C),
    (Add, Zero(-1), Zero(-1), C, Zero(-2), N + C),
    (Add, Zero(1), Greatest(0), 0, Least(0), N + V),
    (Add, Zero(1), Greatest(-1), C, Greatest(0), 0),
    (Add, Zero(-1), Least(0), 0, Greatest(0), V + C),
    (Add, Zero(-1), Least(1), 0, Least(0), N + C),
    (Add, Least(0), Least(0), 0, Zero(0), Z + V + C),
    (Add, Greatest(0), Greatest(0), 0, Zero(-2), N + V),
    (Add, Greatest(0), Least(0), C, Zero(-1), N),
    (AddCarry, Zero(0), Zero(0), 0, Zero(0), Z),
    (AddCarry, Zero(0), Zero(0), C, Zero(1), 0),
    (AddCarry, Zero(-1), Zero(0), C, Zero(0), Z + C),
    (AddCarry, Zero(-1), Zero(-1), C, Zero(-1), N + C),
    (AddCarry, Zero(0), Greatest(0), C, Least(0), N + V),
    (AddCarry, Zero(1), Greatest(-1), C, Least(0), N + V),
    (AddCarry, Greatest(0), Greatest(0), C, Zero(-1), N + V),
    (AddCarry, Least(0), Least(0), C, Zero(1), V + C),
    (AddCarry, Zero(-1), Least(0), C, Least(0), N + C),
    (Sub, Zero(0), Zero(0), C, Zero(0), Z),
    (Sub, Zero(1), Zero(0), 0, Zero(-1), N + C),
    (Sub, Zero(0), Zero(1), C, Zero(1), 0),
    (Sub, Zero(1), Least(0), 0, Greatest(0), V),
    (Sub, Zero(1), Least(1), 0, Least(0), N),
    (Sub, Zero(-1), Greatest(0), 0, Least(0), N + V + C),
    (Sub, Zero(-1), Greatest(-1), 0, Greatest(0), C),
    (Sub, Least(0), Least(0), 0, Zero(0), Z),
    (Sub, Least(0), Greatest(0), 0, Zero(-1), N + V + C),
    (Sub, Greatest(0), Least(0), 0, Zero(1), V),
    (Sub, Least(0), Zero(0), 0, Least(0), N + V + C),
    (Sub, Greatest(0), Zero(0), 0, Least(1), N + C),
    (SubBorrow, Zero(1), Zero(0), 0, Zero(-1), N + C),
    (SubBorrow, Zero(0), Zero(0), C, Zero(-1), N + C),
    (SubBorrow, Zero(0), Zero(1), C, Zero(0), Z),
    (SubBorrow, Zero(-1), Zero(-1), C, Zero(-1), N + C),
    (SubBorrow, Zero(0), Least(0), C, Greatest(0), V),
    (SubBorrow, Least(0), Zero(0), C, Greatest(0), C),
    (SubBorrow, Greatest(0), Least(0), C, Zero(0), Z + V),
    (SubBorrow, Zero(-1), Greatest(0), C, Greatest(0), C),
    (Mul, Zero(0), Least(0), C, Zero(0), Z),
    (Mul, Zero(1), Greatest(0), C, Greatest(0), 0),
    (Mul, Zero(-1), Greatest(0), 0, Least(1), N),
    (Mul, Zero(-1), Least(0), 0, Least(0), N + V),
    (Mul, Zero(-1), Zero(-1), 0, Zero(1), 0),
    (Mul, Zero(2), Greatest(0), 0, Zero(-2), N + V),
    (Mul, Least(0), Least(0), 0, Zero(0), Z + V),
    (Mul, Greatest(0), Greatest(0), 0, Zero(1), V),
    (Mul, Greatest(0), Least(0), 0, Least(0), N + V),
    (Div, Zero(1), Greatest(0), C, Greatest(0), 0),
    (Div, Zero(-1), Greatest(0), 0, Least(1), N),
    (Div, Zero(-1), Least(0), C, Least(0), N + V),
    (Div, Zero(-1), Least(1), 0, Greatest(0), 0),
    (Div, Least(0), Least(0), 0, Zero(1), 0),
    (Div, Least(0), Greatest(0), 0, Zero(0), Z),
    (Div, Greatest(0), Least(0), 0, Zero(-1), N),
    (Div, Zero(2), Zero(-1), 0, Zero(0), Z),
    (Div, Zero(2), Zero(-3), 0, Zero(-1), N),
    (Div, Zero(0), Greatest(0), C, Greatest(0), V),
    (Div, Zero(0), Least(0), 0, Least(0), N + V),
    (Div, Zero(0), Zero(0), 0, Zero(0), Z + V),
    (Bis, Least(0), Greatest(0), 0, Zero(-1), N),
    (Bis, Zero(0), Zero(0), C, Zero(0), Z + C),
    (Bis, Zero(1), Least(0), C, Least(1), N + C),
    (Bic, Zero(-1), Greatest(0), C, Zero(0), Z + C),
    (Bic, Least(0), Zero(-1), 0, Greatest(0), 0),
    (Bic, Zero(0), Least(0), 0, Least(0), N),
    (Xor, Zero(-1), Greatest(0), 0, Least(0), N),
    (Xor, Least(0), Least(0), C, Zero(0), Z + C),
    (Xor, Greatest(0), Least(0), 0, Zero(-1), N),
    (Mneg, Zero(0), Zero(7), C, Zero(0), Z),
    (Mneg, Zero(1), Zero(7), 0, Zero(-1), N + C),
    (Mneg, Zero(-1), Zero(7), 0, Zero(1), C),
    (Mneg, Least(0), Zero(7), 0, Least(0), N + V + C),
    (Mneg, Least(1), Zero(7), 0, Greatest(0), C),
    (Mneg, Greatest(0), Zero(7), 0, Least(1), N + C),
    (Mcom, Zero(0), Zero(7), C, Zero(-1), N + C),
    (Mcom, Zero(-1), Zero(7), 0, Zero(0), Z),
    (Mcom, Least(0), Zero(7), 0, Greatest(0), 0),
    (Mcom, Greatest(0), Zero(7), 0, Least(0), N),
    (Move, Zero(0), Zero(7), C, Zero(0), Z + C),
    (Move, Zero(-1), Zero(7), 0, Zero(-1), N),
    (Move, Greatest(0), Zero(7), C, Greatest(0), C),
    (Cmp, Zero(0), Zero(0), C, Zero(0), Z),
    (Cmp, Zero(-1), Zero(1), 0, Zero(0), N),
    (Cmp, Zero(1), Zero(-1), 0, Zero(0), C),
    (Cmp, Least(0), Greatest(0), C, Zero(0), N),
    (Cmp, Greatest(0), Least(0), 0, Zero(0), C),
    (Cmp, Greatest(-1), Greatest(0), 0, Zero(0), N + C),
    (Cmp, Least(1), Least(0), C, Zero(0), 0),
    (Bit, Least(0), Zero(-1), C, Least(0), N + C),
    (Bit, Least(0), Greatest(0), 0, Zero(0), Z),
    (Bit, Zero(-1), Greatest(0), 0, Greatest(0), 0),
    (Tst, Zero(0), Zero(7), C, Zero(0), Z),
    (Tst, Least(0), Zero(7), C, Least(0), N),
    (Tst, Greatest(0), Zero(7), 0, Greatest(0), 0),
];

/// The exact number at an edge of a width.
fn exact(edge: Edge, w: Width) -> i64 {
    let half: i64 = match w {
        Width::Byte => 0x80,
        Width::Word => 0x8000,
        Width::Long | Width::Quad => 0x8000_0000,
    };
    match edge {
        Zero(k) => i64::from(k),
        Least(k) => i64::from(k) - half,
        Greatest(k) => i64::from(k) + half - 1,
    }
}

fn low(x: i64, w: Width) -> u32 {
    let bits = x.rem_euclid(0x1_0000_0000) as u32;
    match w {
        Width::Byte => bits % 0x100,
        Width::Word => bits % 0x1_0000,
        Width::Long | Width::Quad => bits,
    }
}

/// Bits above the width, which count for nothing.
fn above(w: Width) -> u32 {
    match w {
        Width::Byte => 0x5a5a_5a00,
        Width::Word => 0x5a5a_0000,
        Width::Long | Width::Quad => 0,
    }
}

/// The trap that follows where V is set.
fn trap(op: AluOp, first: Edge, psw: u8, codes: u8) -> Option<u8> {
    if op == Div && first == Zero(0) {
        Some(2)
    } else if codes & V != 0 && psw & IV != 0 {
        Some(1)
    } else {
        None
    }
}

fn check_at(rt: &impl Abort, w: Width)
    requires { w ≢ Width.Quad }
{
    for (number, case) in CASES.iter().enumerate() {
        let (op, first, second, carry, value, codes) = *case;
        for psw in [0xc0 | carry, 0xc0 | IV | carry] {
            let a = low(exact(first, w), w) | above(w);
            let b = low(exact(second, w), w) | above(w);
            let answer = Alu {
                value: low(exact(value, w), w),
                psw: psw & 0xf0 | codes,
                trap: trap(op, first, psw, codes),
            };
            assert!(rt; alu(op, a, b, w, psw) == answer, "case {number}, {psw}");
        }
    }
}

#[test]
fn edges_at_each_width(rt: HostRuntime) {
    check_at(&rt, Width::Byte);
    check_at(&rt, Width::Word);
    check_at(&rt, Width::Long);
}

/// First operand, second operand, width; value and codes after, where all codes were set before.
type Single = (AluOp, u32, u32, Width, u32, u8);

static SINGLES: [Single; 31] = [
    (Ash, 0, 0x8000_0000, Width::Long, 0x8000_0000, N),
    (Ash, 1, 0x4000_0000, Width::Long, 0x8000_0000, N + V),
    (Ash, 1, 0xc000_0000, Width::Long, 0x8000_0000, N),
    (Ash, 31, 1, Width::Long, 0x8000_0000, N + V),
    (Ash, 31, 0xffff_ffff, Width::Long, 0x8000_0000, N),
    (Ash, 32, 1, Width::Long, 0, Z + V),
    (Ash, 32, 0, Width::Long, 0, Z),
    (Ash, 127, 0xffff_ffff, Width::Long, 0, Z + V),
    (Ash, 0x1234_56ff, 1, Width::Long, 0, Z),
    (Ash, 0xff, 0xffff_ffff, Width::Long, 0xffff_ffff, N),
    (Ash, 0xff, 0xffff_fffd, Width::Long, 0xffff_fffe, N),
    (Ash, 0xe1, 0x7fff_ffff, Width::Long, 0, Z),
    (Ash, 0xe1, 0x8000_0000, Width::Long, 0xffff_ffff, N),
    (Ash, 0xe0, 0x8000_0000, Width::Long, 0xffff_ffff, N),
    (Ash, 0xe0, 0x7fff_ffff, Width::Long, 0, Z),
    (Ash, 0x80, 0xffff_ffff, Width::Long, 0xffff_ffff, N),
    (Rot, 0, 0, Width::Long, 0, Z + C),
    (Rot, 1, 0x8000_0000, Width::Long, 1, C),
    (Rot, 4, 0x1234_5678, Width::Long, 0x2345_6781, C),
    (Rot, 36, 0x1234_5678, Width::Long, 0x2345_6781, C),
    (Rot, 0xff, 1, Width::Long, 0x8000_0000, N + C),
    (Rot, 0xe0, 0x8765_4321, Width::Long, 0x8765_4321, N + C),
    (Narrow, 0x7f, 0, Width::Byte, 0x7f, 0),
    (Narrow, 0x80, 0, Width::Byte, 0x80, N + V),
    (Narrow, 0x100, 0, Width::Byte, 0, Z + V),
    (Narrow, 0xffff_ff80, 0, Width::Byte, 0x80, N),
    (Narrow, 0xffff_ff7f, 0, Width::Byte, 0x7f, V),
    (Narrow, 0x7fff, 0, Width::Word, 0x7fff, 0),
    (Narrow, 0x8000, 0, Width::Word, 0x8000, N + V),
    (Narrow, 0xffff_7fff, 0, Width::Word, 0x7fff, V),
    (Narrow, 0x8000_0000, 0, Width::Long, 0x8000_0000, N),
];

#[test]
fn shifts_rotations_and_conversions(rt: HostRuntime) {
    for (number, case) in SINGLES.iter().enumerate() {
        let (op, a, b, w, value, codes) = *case;
        if w != Width::Quad {
            let answer = Alu {
                value,
                psw: 0xe0 | codes,
                trap: trap(op, Zero(1), IV, codes),
            };
            assert!(rt; alu(op, a, b, w, 0xef) == answer, "case {number}");
        }
    }
}

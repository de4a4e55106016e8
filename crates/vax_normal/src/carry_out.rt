ghost use Rattle.std.specs.Prelude.{◌≡◌, ◌≢◌, List, ℕ, sum, take, slice_index, slice_set, MatchOption};
ghost use Rattle.vax_table.specs.Effects.{put_in_register};
ghost use Rattle.vax_table.specs.AllOperands.{past_own_bytes};
ghost use Rattle.vax_normal.specs.Normal.{branches_at, computed_at_once, counted_down, done_at_once, gone_on, quietly, with_result};

use crate::shape::{Computation, Countdown, Normal, Shape};
use crate::total::set;
use vax_alu::{AluOp, alu};
use vax_flow::{comes_out, holds, is_at_most, is_less, keeping_c};
use vv_base::Width;

/// The status word after an instruction, and the sum of R0 to R14.
#[derive(Clone, Copy)]
pub struct After {
    pub psw: u8,
    pub total: u64,
}

/// PC goes on by `by` bytes.
#[inline(always)]
pub fn go_on(r: &mut [u32; 16], by: u32, total: u64)
    requires { total ≡ sum (take 15 r.old) }
    ensures registers { r.new ≡ past_own_bytes by r.old }
    ensures sum { total ≡ sum (take 15 r.new) }
{
    r[15] = r[15].wrapping_add(by);
}

/// PC goes on by `jump` bytes where a branch is taken, or else by `length`.
#[inline(always)]
fn go_if(r: &mut [u32; 16], taken: bool, jump: u32, length: u32, total: u64)
    requires { total ≡ sum (take 15 r.old) }
    ensures registers { r.new ≡ gone_on taken jump length r.old }
    ensures sum { total ≡ sum (take 15 r.new) }
{
    go_on(r, if taken { jump } else { length }, total);
}

/// A result of a width over what a register has: a byte or a word keeps the upper bits.
#[inline(always)]
fn merged(w: Width, old: u32, value: u32) -> u32
    requires { w ≢ Width.Quad }
    ensures { (n : ℕ) (r : List ℕ) → slice_index r n ≡ old → put_in_register w n value r ≡ slice_set r n result }
{
    match w {
        Width::Long => value,
        Width::Byte => old / 0x100 * 0x100 + value % 0x100,
        Width::Word => old / 0x1_0000 * 0x1_0000 + value % 0x1_0000,
        Width::Quad => unreachable!(),
    }
}

/// A result of a width in a register, or nowhere, where that is 15.
#[inline(always)]
pub fn put(register: u8, w: Width, value: u32, r: &mut [u32; 16], total: u64) -> u64
    requires narrow { w ≢ Width.Quad }
    requires sum { total ≡ sum (take 15 r.old) }
    ensures registers { r.new ≡ with_result register w value r.old }
    ensures sum { result ≡ sum (take 15 r.new) }
{
    if register >= 15 {
        return total;
    }
    let old = r[usize::from(register)];
    set(r, register, merged(w, old, value), total)
}

impl Computation {
    /// The operation at once, unless it traps.
    #[inline(always)]
    fn carry_out(&self, length: u32, r: &mut [u32; 16], psw: u8, total: u64) -> Option<After>
        requires { total ≡ sum (take 15 r.old) }
        ensures { MatchOption result (r.new ≡ r.old) (λ x. (x.total ≡ sum (take 15 r.new)) × (computed_at_once self.now length r.old psw ≡ quietly r.new x.psw)) }
    {
        let x = alu(
            self.op,
            self.first.value(r),
            self.second.value(r),
            self.width,
            psw,
        );
        if x.trap.is_some() {
            return None;
        }
        go_on(r, length, total);
        let total = put(self.register, self.width, x.value, r, total);
        Some(After { psw: x.psw, total })
    }
}

impl Countdown {
    /// Whether it branches where this is left.
    #[inline(always)]
    fn branches_at(&self, left: u32) -> bool
        ensures { result ≡ branches_at self.now.at_zero left }
    {
        if self.at_zero {
            is_at_most(Width::Long, 0, left)
        } else {
            is_less(Width::Long, 0, left)
        }
    }

    /// The countdown at once, unless it traps.
    #[inline(always)]
    fn carry_out(
        &self,
        jump: u32,
        length: u32,
        r: &mut [u32; 16],
        psw: u8,
        total: u64,
    ) -> Option<After>
        requires { total ≡ sum (take 15 r.old) }
        ensures { MatchOption result (r.new ≡ r.old) (λ x. (x.total ≡ sum (take 15 r.new)) × (counted_down self.now jump length r.old psw ≡ quietly r.new x.psw)) }
    {
        let x = alu(
            AluOp::Sub,
            1,
            r[usize::from(self.register)],
            Width::Long,
            psw,
        );
        if let Some(_) = x.trap {
            return None;
        }
        go_if(r, self.branches_at(x.value), jump, length, total);
        let total = set(r, self.register, x.value, total);
        Some(After {
            psw: keeping_c(psw, x.psw),
            total,
        })
    }
}

impl Normal {
    /// What the instruction does, at once: the status word after it, and the sum of R0 to R14. Where it would trap
    /// nothing is done.
    #[inline(always)]
    #[tactic(auto, unfolding(crate::specs::Normal::done_at_once))]
    pub fn carry_out(&self, r: &mut [u32; 16], psw: u8, total: u64) -> Option<After>
        requires { total ≡ sum (take 15 r.old) }
        ensures { MatchOption result (r.new ≡ r.old) (λ x. (x.total ≡ sum (take 15 r.new)) × (done_at_once self.now r.old psw ≡ quietly r.new x.psw)) }
    {
        let length = self.length;
        match &self.shape {
            Shape::Computes(c) => c.carry_out(length, r, psw, total),
            Shape::Branches(condition, jump) => {
                go_if(r, holds(*condition, psw), *jump, length, total);
                Some(After { psw, total })
            }
            Shape::BranchesOnBits(on, x, bits, jump) => {
                let taken = comes_out(*on, x.value(r) & *bits != 0);
                go_if(r, taken, *jump, length, total);
                Some(After { psw, total })
            }
            Shape::CountsDown(c, jump) => c.carry_out(*jump, length, r, psw, total),
        }
    }
}

ghost use Rattle.std.specs.Prelude.{◌≡◌, [], ◌∷◌, bit_and, sum, take, IfSome, MatchOption};
ghost use Rattle.vax_normal.specs.InMemory.{HasClaimed, IsFoundIn, finished, sourced_by, stored};

use crate::carry_out::{go_on, put};
use crate::reach::{read_by, step_by};
use crate::shape::{InMemory, Source};
use vax_alu::alu;
use vax_operand::Space;
use vax_table::effect::Store;

/// What was found of an instruction: its result and the status word after it.
#[derive(Clone, Copy)]
pub struct Found {
    pub value: u32,
    pub psw: u8,
}

/// The bits of a number that a mask has.
#[inline(always)]
fn low_bits(number: u64, mask: u32) -> u32
    ensures { result ≡ bit_and number mask }
{
    ((number & u64::from(mask)) % 0x1_0000_0000) as u32
}

impl Source {
    /// The number, by the registers, and what is read and claimed.
    #[inline(always)]
    pub fn value(&self, r: &[u32; 16], read: u64, claimed: u64) -> u32
        ensures { result ≡ sourced_by self.now read claimed r.now }
    {
        self.number.value(r) | low_bits(read, self.read) | low_bits(claimed, self.claimed)
    }
}

impl InMemory {
    /// What it finds where this is claimed, if what it reads is in a space and it doesn't trap.
    #[inline(always)]
    pub fn find<S: Space>(&self, space: &S, r: &[u32; 16], psw: u8, claimed: u64) -> Option<Found>
        requires { HasClaimed (S.space space.now) self.now.writes r.now claimed }
        ensures { IfSome result (IsFoundIn self.now (S.space space.now) r.now psw) }
    {
        let read = read_by(space, &self.reads, r)?;
        let first = self.first.value(r, read, claimed);
        let second = self.second.value(r, read, claimed);
        let x = alu(self.op, first, second, self.width, psw);
        match x.trap {
            Some(_) => None,
            None => Some(Found {
                value: x.value,
                psw: x.psw,
            }),
        }
    }

    /// What it stores, if it does.
    #[inline(always)]
    pub fn store(&self, r: &[u32; 16], value: u32) -> Option<Store>
        ensures { MatchOption result (stored self.now.writes r.now self.now.width value ≡ []) (λ x. stored self.now.writes r.now self.now.width value ≡ x ∷ []) }
    {
        match &self.writes {
            None => None,
            Some(reach) => Some(Store {
                va: reach.address(r),
                width: self.width,
                value: u64::from(value),
            }),
        }
    }

    /// The registers after it.
    #[inline(always)]
    pub fn finish(&self, value: u32, r: &mut [u32; 16], total: u64) -> u64
        requires { total ≡ sum (take 15 r.old) }
        ensures registers { r.new ≡ finished self.now value r.old }
        ensures sum { result ≡ sum (take 15 r.new) }
    {
        let total = step_by(&self.reads, r, total);
        let total = step_by(&self.writes, r, total);
        go_on(r, self.length, total);
        put(self.register, self.width, value, r, total)
    }
}

ghost use Rattle.std.specs.Prelude.{◌≡◌, ◌≤◌, ◌<◌, ◌+◌, ◌*◌, ◌^◌, true, false, IfOk, length};
ghost use Rattle.vm_shadow.specs.Marks.{AreAbsent, IsCleared, IsNextMember, SetsMember};

use std::alloc::Global;
use std::marker::Model;
use vv_base::NoMemory;

/// A set of numbers, a bit for each in words of 64.
#[derive(Drop)]
pub struct Marks {
    words: Vec<u64>,
}

impl Model for Marks {
    ghost use Rattle.std.specs.Prelude.{ℕ, List};

    ghost Value = { List ℕ };

    ghost view = { λ m. m.words.items };
}

impl Marks {
    /// An empty set, for the numbers below 64 times as many as it has words.
    pub fn new(alloc: Global, words: u32) -> Result<Marks, NoMemory>
        ensures { IfOk result (λ m. length m ≡ words) }
    {
        let words = vec![in alloc; 0u64; words as usize]?;
        Ok(Marks { words })
    }

    /// How many words it has.
    pub fn words(&self) -> usize
        ensures { result ≡ length self.now }
    {
        self.words.len()
    }

    /// Puts a number into the set.
    pub fn mark(&mut self, n: u32)
        requires { n < 64 * length self.old }
        ensures { SetsMember true n self.old self.new }
    {
        let at = (n / 64) as usize;
        let word = self.words[at];
        self.words[at] = word | (1 << (n % 64));
    }

    /// Takes a number from the set.
    pub fn unmark(&mut self, n: u32)
        requires { n < 64 * length self.old }
        ensures { SetsMember false n self.old self.new }
    {
        let at = (n / 64) as usize;
        let word = self.words[at];
        self.words[at] = word & !(1 << (n % 64));
    }

    /// Takes all numbers of some words from the set, from one word up to another.
    pub fn clear(&mut self, first: u32, end: u32)
        requires order { first ≤ end }
        requires within { end ≤ length self.old }
        ensures { IsCleared (64 * first) (64 * end) self.old self.new }
    {
        for at in first..end {
            self.words[at as usize] = 0;
        }
    }

    /// Whether the set has no number in some words, from one word up to another.
    pub fn is_clear(&self, first: u32, end: u32) -> bool
        requires order { first ≤ end }
        requires within { end ≤ length self.now }
        ensures { result ≡ true → AreAbsent (64 * first) (64 * end) self.now }
    {
        for at in first..end {
            if self.words[at as usize] != 0 {
                return false;
            }
        }
        true
    }

    /// The first number of the set from one up to another; that other, where there is none.
    pub fn next(&self, from: u32, end: u32) -> u32
        requires order { from ≤ end }
        requires within { end ≤ 64 * length self.now }
        requires small { end ≤ 2 ^ 24 }
        ensures { IsNextMember from end self.now result }
    {
        let mut at = from;
        while at < end {
            let rest = self.words[(at / 64) as usize] >> (at % 64);
            if rest != 0 {
                return end.min(at + rest.trailing_zeros());
            }
            at = at / 64 * 64 + 64;
        }
        end
    }
}

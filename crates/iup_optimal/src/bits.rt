ghost use Rattle.std.specs.Prelude.{◌≡◌, ℕ, ◌+◌, ◌*◌, ◌<◌, ◌≤◌, ◌⊎◌, ◌↔◌, IsTrue, IfOk, length, ◌^◌};
ghost use Rattle.iup_optimal.specs.BitSets.{Has, IsNextOf};

use basics::NoMemory;
use std::alloc::Global;

/// A set of numbers, one bit each.
#[derive(Drop)]
pub struct Bits {
    words: Vec<u64>,
}

impl Bits {
    /// The empty set, with room for the numbers below `bound`.
    pub fn new(alloc: Global, bound: usize) -> Result<Bits, NoMemory>
        requires { bound < 2 ^ 32 }
        ensures none { IfOk result (λ bits. (m : ℕ) → Has bits.words.items m → ⊥) }
        ensures room { IfOk result (λ bits. bound ≤ 64 * length bits.words.items) }
    {
        Ok(Bits {
            words: vec![in alloc; 0; bound / 64 + 1]?,
        })
    }

    /// Takes a number in.
    pub fn insert(&mut self, number: usize)
        requires { number < 64 * length self.old.words.items }
        ensures room { length self.new.words.items ≡ length self.old.words.items }
        ensures has { (m : ℕ) → Has self.new.words.items m ↔ (Has self.old.words.items m ⊎ (m ≡ number)) }
    {
        self.words[number / 64] |= 1 << (number % 64);
    }

    /// Whether a number is in the set.
    pub fn contains(&self, number: usize) -> bool
        requires { number < 64 * length self.now.words.items }
        ensures { IsTrue result ↔ Has self.now.words.items number }
    {
        (self.words[number / 64] >> (number % 64)) & 1 == 1
    }

    /// The least number of the set that is at least `low` and below `high`.
    pub fn next(&self, low: usize, high: usize) -> Option<usize>
        requires high { high ≤ 64 * length self.now.words.items }
        requires small { high < 2 ^ 32 }
        ensures { IsNextOf self.now.words.items low high result }
    {
        let mut at = low;
        while at < high {
            let left = self.words[at / 64] >> (at % 64);
            if left != 0 {
                let next = at + left.trailing_zeros() as usize;
                return if next < high { Some(next) } else { None };
            }
            at = (at / 64 + 1) * 64;
        }
        None
    }
}

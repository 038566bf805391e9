//! A set of the numbers below a bound.

ghost use Rattle.std.specs.Prelude.{◌≡◌, ◌<◌, ◌==◌, ◌||◌, ℕ, false, get_or, IfOk};
ghost use Rattle.lab_sets.specs.Sets.{has, room, room_for};

use std::alloc::{AllocError, Global};
use std::marker::Model;

/// A set of the numbers below a bound.
#[derive(Debug, Drop)]
pub struct NumberSet {
    /// Bit n % 64 of word n / 64 is set if the set has n.
    words: Vec<u64>,
}

impl Model for NumberSet {
    ghost use Rattle.std.specs.Prelude.{ℕ, List};

    ghost Value = { List ℕ };

    ghost view = { λ s. s.words.items };
}

impl NumberSet {
    /// Returns an empty set for the numbers below `bound`.
    pub fn none(alloc: Global, bound: u32) -> Result<NumberSet, AllocError>
        ensures none { IfOk result (λ set. (n : ℕ) → has set n ≡ false) }
        ensures room { IfOk result (λ set. room set ≡ room_for bound) }
    {
        let words = vec![in alloc; 0; bound as usize / 64 + 1]?;
        Ok(NumberSet { words })
    }

    /// A word, or 0 where there is none.
    fn word(&self, place: usize) -> u64
        ensures { result ≡ get_or self.now place 0 }
    {
        self.words.get(place).copied().unwrap_or(0)
    }

    /// Returns whether the set has `number`.
    pub fn has(&self, number: u32) -> bool
        ensures { result ≡ has self.now number }
    {
        (self.word(number as usize / 64) >> (number % 64)) & 1 == 1
    }

    /// Adds `number`.
    pub fn insert(&mut self, number: u32)
        requires { number < room self.old }
        ensures room { room self.new ≡ room self.old }
        ensures has { (n : ℕ) → has self.new n ≡ (n == number || has self.old n) }
    {
        self.words[number as usize / 64] |= 1u64 << (number % 64);
    }

    /// Adds all numbers of `other`, 64 at a time.
    pub fn unite(&mut self, other: &NumberSet)
        requires { room other.now ≡ room self.old }
        ensures room { room self.new ≡ room self.old }
        ensures has { (n : ℕ) → has self.new n ≡ (has self.old n || has other.now n) }
    {
        'words: for k in 0..self.words.len() {
            self.words[k] |= other.words[k];
        }
    }

    /// Removes all numbers.
    pub fn clear(&mut self)
        ensures room { room self.new ≡ room self.old }
        ensures none { (n : ℕ) → has self.new n ≡ false }
    {
        'words: for k in 0..self.words.len() {
            self.words[k] = 0;
        }
    }
}

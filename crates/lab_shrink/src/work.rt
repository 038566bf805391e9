//! How much is done to find what can go.

use crate::goal::Goal;
use crate::measure::size_of;
use crate::sieve::Sieve;
use lab_history::History;

/// The most work of a run: what is judged, by size, and by the square of its transactions, which are told apart two by two;
/// and what is sifted.
const MOST: usize = 6_000_000;

/// How many touches are sifted while one thing is judged.
const SIFTED: usize = 16;

/// How much has been done, so that no input takes minutes, and what was learnt. It is counted, not timed: the same input has
/// the same answer on any machine.
#[derive(Drop)]
pub struct Work {
    done: usize,
    pub sieve: Sieve,
}

impl Work {
    /// No work yet.
    pub fn none(goal: Goal) -> Work {
        Work {
            done: 0,
            sieve: Sieve::of(goal),
        }
    }

    fn add(&mut self, more: usize) {
        self.done = self.done.saturating_add(more);
    }

    /// Counts the judgement of a history.
    pub fn add_judgement(&mut self, history: &History) {
        let txns = history.txns().as_slice().len();
        self.add(size_of(history).saturating_add(txns.saturating_mul(txns) / 64));
    }

    /// Counts a look at the sieve.
    pub fn add_sifting(&mut self) {
        let looked = self.sieve.cost();
        self.add(looked / SIFTED);
    }

    /// Whether no more is to be done.
    pub fn is_over(&self) -> bool {
        self.done >= MOST
    }
}

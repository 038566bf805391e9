//! Sets of small numbers.
//!
//! A [`NumberSet`] has a bit for each number below a bound, in words of 64, so a union handles 64 numbers at a time.
//! Creating a set fails with `AllocError` if the allocation fails; nothing else allocates.
#![tactic(auto)]

mod number_set;

pub use number_set::NumberSet;

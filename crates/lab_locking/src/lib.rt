//! The engine that locks rows and predicates until the end of their transaction.
//!
//! A statement waits for each other active transaction that has an uncommitted write of a row that matches the
//! statement or that it would write, or that has run a statement that matches a row before or after the write. If the
//! sessions that it would wait for wait for it in turn, the statement is refused, and its transaction aborts.
//!
//! The [`LockEngine`] is a `lab_engine::Journal` over these rules: make one with `new` from a table, and pass it
//! commands as to any `lab_engine::Engine`.
#![tactic(auto)]

mod engine;
mod matches;
mod reads;

pub use engine::LockEngine;

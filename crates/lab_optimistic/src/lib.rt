//! The engine that refuses a commit if what the transaction wrote or read has changed since its begin.
//!
//! Nobody waits: a transaction sees its own writes and what had committed at its begin. Its commit fails if a
//! transaction that committed since then installed a row that this one wrote, or a row that one of its statements
//! matches in its state before or after that install. Each install counts, not only the final state; and rows count
//! that the statements match, not only those that they listed. The fault names the least row with a conflict, and the
//! first transaction that caused it.
//!
//! The [`OptimisticEngine`] is a `lab_engine::Journal` over these rules: make one with `new` from a table, and pass it
//! commands as to any `lab_engine::Engine`.
#![tactic(auto)]

mod changes;
mod optimistic;
mod reads;

pub use optimistic::OptimisticEngine;

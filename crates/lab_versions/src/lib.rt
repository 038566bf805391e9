//! The two engines that keep versions of rows. Reads never wait.
//!
//! At [`SnapshotEngine`], a transaction sees what had committed at its begin. Of two transactions that wrote a row
//! since then, the second commit fails. At [`CommittedEngine`], a statement sees what has committed before it, and
//! waits for the transactions with uncommitted writes of a row that it would write.
//!
//! Each is a `lab_engine::Journal` over its rules: make one with `new` from a table, and pass it commands as to any
//! `lab_engine::Engine`.
#![tactic(auto)]

mod committed;
mod snapshot;

pub use committed::CommittedEngine;
pub use snapshot::SnapshotEngine;

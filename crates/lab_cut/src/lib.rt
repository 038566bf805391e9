//! Parts of histories.
//!
//! [`without_operations`] removes operations, and the transactions that have none left. [`with_rows`] removes rows.
//! [`without_entries`] removes entries of views. Each returns a part of the given history: its transactions, statements
//! and lists are some of the given ones, in their order, and its initial and final tables have states of the given
//! history.
//!
//! These functions don't check whether a part shows the same anomaly as the whole. Functions that allocate return
//! `NoMemory` if an allocation fails.
#![tactic(auto)]

mod entries;
mod installers;
mod kept;
mod laws;
mod made;
mod mask;
mod moved;
mod operations;
mod rows;
mod tables;

pub use entries::without_entries;
pub use laws::{part_of_a_part_is_a_part, whole_is_a_part};
pub use operations::without_operations;
pub use rows::with_rows;

//! The parts of a history.

use crate::transaction::{Installed, Txns};
use lab_table::Table;

/// The parts of a history.
#[derive(Drop)]
pub struct Parts {
    /// The table before the first transaction.
    pub initial: Table,
    /// The transactions, in any order.
    pub txns: Txns,
    /// The transactions that installed each row that was written, in order.
    pub installed: Installed,
    /// The final table.
    pub end_table: Table,
}

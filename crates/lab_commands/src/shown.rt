//! The output of a run.

/// What a run writes.
#[derive(Clone, Copy, Debug, Drop, PartialEq, Eq)]
pub enum Shown {
    /// Its log and its report.
    Log,
    /// Its log and its report, with the committed rows after each event that ends a transaction.
    Rows,
    /// Its history file.
    History,
}

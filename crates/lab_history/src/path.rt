//! Positions in a history file.

/// A list of a history file whose members begin with a row. Transactions and their operations are counted from 0, in
/// the order of the file.
#[derive(Clone, Copy, Debug, PartialEq, Eq)]
pub enum ListPlace {
    /// The rows of the initial table.
    Initial,
    /// The rows of the final table.
    End,
    /// The rows with their installers.
    Installed,
    /// The versions that an operation saw.
    View { txn: usize, op: usize },
    /// The rows that an operation listed.
    Rows { txn: usize, op: usize },
    /// The rows that an operation wrote.
    Writes { txn: usize, op: usize },
}

/// The position of a value in a history file. Members are counted from 0.
#[derive(Clone, Copy, Debug, PartialEq, Eq)]
pub enum Path {
    /// The whole value.
    Root,
    /// The name of the format.
    Format,
    /// The version of the format.
    Version,
    /// A list.
    List(ListPlace),
    /// A member of a list.
    Member {
        list: ListPlace,
        index: usize,
    },
    /// A part of a member of a list.
    Part {
        list: ListPlace,
        index: usize,
        part: usize,
    },
    /// One of the installers of a row: the member of `installed`, the part that lists them, and the position in that
    /// list.
    Installer {
        index: usize,
        part: usize,
        place: usize,
    },
    /// The list of the transactions.
    Transactions,
    /// A transaction.
    Transaction {
        txn: usize,
    },
    /// The number of a transaction.
    Number {
        txn: usize,
    },
    /// The outcome of a transaction.
    Outcome {
        txn: usize,
    },
    /// The list of the operations of a transaction.
    Operations {
        txn: usize,
    },
    /// An operation of a transaction.
    Operation {
        txn: usize,
        op: usize,
    },
    /// The statement of an operation of a transaction.
    Statement {
        txn: usize,
        op: usize,
    },
}

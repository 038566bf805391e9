//! Versions of the history file.

/// A version of the format. They differ in what a member of a list begins with, and in nothing else but their number.
#[derive(Clone, Copy, Debug, PartialEq, Eq)]
pub enum FileVersion {
    /// An id, which is that of a row of the table `test`; statements are about that table alone.
    One,
    /// A table's name and an id.
    Two,
}

//! The progress of a search, on a line that is overwritten.

use itoa::Buffer;
use lab_shrink::Watcher;
use std::io::Write;

/// A line that shows how many transactions and operations are left, if a person reads it. Ignores write errors.
#[derive(Drop)]
pub struct Progress<'p, P: Write> {
    /// Where the line is written.
    pub to: &'p mut P,
    /// Whether a person reads it; otherwise nothing is written.
    pub is_shown: bool,
}

impl<'p, P: Write> Watcher for Progress<'p, P> {
    fn left(&mut self, transactions: usize, operations: usize) {
        if self.is_shown {
            let _ = self.to.write_all(b"\r\x1b[K");
            let _ = self
                .to
                .write_all(Buffer::new().format(transactions).as_bytes());
            let _ = self.to.write_all(b" transactions and ");
            let _ = self
                .to
                .write_all(Buffer::new().format(operations).as_bytes());
            let _ = self.to.write_all(b" operations are left");
            let _ = self.to.flush();
        }
    }
}

impl<'p, P: Write> Progress<'p, P> {
    /// Removes the line.
    pub fn clear(&mut self) {
        if self.is_shown {
            let _ = self.to.write_all(b"\r\x1b[K");
            let _ = self.to.flush();
        }
    }
}

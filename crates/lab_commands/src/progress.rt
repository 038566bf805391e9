//! The progress of a long run, on a line that is overwritten.

use itoa::Buffer;
use std::io::Write;

/// A line that shows how many files are done, if a person reads it. Ignores write errors.
#[derive(Drop)]
pub struct Progress<'p, P: Write> {
    /// Where the line is written.
    pub to: &'p mut P,
    /// Whether a person reads it; otherwise nothing is written.
    pub is_shown: bool,
}

impl<'p, P: Write> Progress<'p, P> {
    /// Shows that `done` of `all` files are done.
    pub fn show(&mut self, done: usize, all: usize) {
        if self.is_shown {
            let _ = self.to.write_all(b"\r");
            let _ = self.to.write_all(Buffer::new().format(done).as_bytes());
            let _ = self.to.write_all(b" of ");
            let _ = self.to.write_all(Buffer::new().format(all).as_bytes());
            let _ = self.to.write_all(b" files");
            let _ = self.to.flush();
        }
    }

    /// Removes the line.
    pub fn clear(&mut self) {
        if self.is_shown {
            let _ = self.to.write_all(b"\r\x1b[K");
            let _ = self.to.flush();
        }
    }
}

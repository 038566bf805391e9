//! The streams of a run.

use std::io::{Read, Write};

/// The streams of a run: its input, its output, what helps its user, and how far it is.
#[derive(Drop)]
pub struct Streams<'s, R: Read, W: Write, N: Write> {
    pub reader: &'s mut R,
    pub writer: &'s mut W,
    pub notes: &'s mut N,
    pub progress: &'s mut N,
    /// Whether somebody watches how far it is.
    pub is_watched: bool,
}

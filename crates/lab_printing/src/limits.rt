//! The limits of a statement's text.

/// The most bytes of a line, without what ends it.
pub const MAX_LINE_BYTES: usize = 4_000;

/// The most bytes of a statement's printed form.
pub const MAX_STATEMENT_BYTES: usize = 1_000;

/// The most parentheses and `not`s that are open at one place of a predicate.
pub const MAX_DEPTH: u8 = 16;

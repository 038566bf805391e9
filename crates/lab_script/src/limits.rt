//! The limits of a script's text.

/// The most lines of a text.
pub const MAX_LINES: u32 = 2_000;

/// The most commands of a script: printed, each has a line of its own behind that of the setup.
pub const MAX_COMMANDS: usize = 1_999;

//! The command line: subcommands, their arguments and their help.
//!
//! [`command`] makes the program's command, which parses arguments and prints help with the kit's crate `clap`. The
//! names that options accept are passed in ([`Names`]), so this crate depends on no other crate of the laboratory. It
//! fails with `AllocError` if an allocation fails.
#![tactic(auto)]

mod arguments;
mod help;
mod names;
mod subcommands;

pub use names::Names;
pub use subcommands::command;

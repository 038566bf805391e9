//! The engines that the arguments name.

use clap::ArgMatches;
use lab_engine::Level;
use lab_levels::{LEVELS, level_name};
use std::alloc::{AllocError, Global};

/// Whether a level is asked for: its engine is among these, or there are none.
fn is_asked(named: Option<&[&str]>, level: Level) -> bool {
    match named {
        Some(names) => names.iter().any(|name| *name == level_name(level)),
        None => true,
    }
}

/// The levels of the engines that the arguments name, each once and in the order of the levels; all where they name
/// none.
pub fn levels_of(alloc: Global, matches: &ArgMatches<'_>) -> Result<Vec<Level>, AllocError> {
    let named = matches.get_strs("engine");
    let mut levels = Vec::with_capacity(alloc, LEVELS.len())?;
    for level in LEVELS {
        if is_asked(named, level) {
            levels.push(level)?;
        }
    }
    Ok(levels)
}

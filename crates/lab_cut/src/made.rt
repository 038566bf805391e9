//! Histories of what is left.

ghost use Rattle.std.specs.Prelude.{◌≡◌, IfOk, IfSome};

use lab_history::{FileFault, History, Parts};
use lab_table::NoMemory;
use std::alloc::{AllocError, Global};

/// The history of these parts; None where they are none.
pub fn made(alloc: Global, parts: Parts) -> Result<Option<History>, NoMemory>
    ensures { IfOk result (λ made. IfSome made (λ history. history ≡ parts)) }
{
    match History::from_parts(alloc, parts) {
        Ok(history) => Ok(Some(history)),
        Err((parts, fault)) => {
            drop(parts);
            match fault {
                FileFault::NoMemory => Err(AllocError),
                _ => Ok(None),
            }
        }
    }
}

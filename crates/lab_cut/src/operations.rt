//! Removes operations from a history.

ghost use Rattle.std.specs.Prelude.{◌≡◌, map, IfOk, IfSome};
ghost use Rattle.lab_cut.specs.PartOf.{IsPartOf};
ghost use Rattle.lab_cut.specs.Left.{statements, left_statements};
ghost use Rattle.lab_cut.specs.Cut.{cut};

use crate::installers::left_installed;
use crate::kept::Moves;
use crate::made::made;
use crate::moved::left_txns;
use crate::tables::{left_end, left_initial};
use lab_history::{History, Parts, Txns};
use lab_table::NoMemory;
use std::alloc::Global;

/// Returns the history without the operations whose flag in `kept` is `false`. The flags are in the order of the file;
/// operations beyond them stay. Returns `None` if the rest isn't a history.
/// - A transaction without operations is removed.
/// - Operations are renumbered, in views as well. A view entry of a removed operation is removed, so the row was seen
///   at its initial version.
/// - A transaction that no longer writes a row is no longer its installer.
/// - If the first installers of a row are removed, the row begins with the state that they left. If its last version is
///   removed, the row ends with the state that the last remaining installer left.
pub fn without_operations(
    alloc: Global,
    history: &History,
    kept: &[bool],
) -> Result<Option<History>, NoMemory>
    ensures part { IfOk result (λ left. IfSome left (λ part. IsPartOf part history.now)) }
    // Exactly the statements that are kept are left, each in its transaction.
    ensures statements { IfOk result (λ left. IfSome left (λ part.
        map (λ t. (t.no, statements t)) part.txns ≡ left_statements kept.now history.now.txns)) }
    ensures exact { IfOk result (λ left. IfSome left (λ part. part ≡ cut kept.now history.now)) }
{
    made(alloc, left_parts(alloc, history, kept)?)
}

/// The parts of what is left.
fn left_parts(alloc: Global, history: &History, kept: &[bool]) -> Result<Parts, NoMemory>
    ensures exact { IfOk result (λ parts. parts ≡ cut kept.now history.now) }
    ensures part { IfOk result (λ parts. IsPartOf parts history.now) }
{
    let txns = history.txns().as_slice();
    let moves = Moves::of(alloc, kept, txns)?;
    let initial = left_initial(alloc, history, &moves)?;
    let end_table = left_end(alloc, history, &moves, &initial)?;
    let installed = left_installed(alloc, history, &moves)?;
    Ok(Parts {
        initial,
        txns: Txns::new(left_txns(alloc, &moves, kept, txns)?),
        installed,
        end_table,
    })
}

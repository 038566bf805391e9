//! First committer wins: the write conflict that makes a commit fail.

ghost use Rattle.std.specs.Prelude.{◌≡◌};
ghost use Rattle.lab_engine.specs.declared.event.Level.{Level as Kind};
ghost use Rattle.lab_engine.specs.Log.{Past, Txn};
ghost use Rattle.lab_engine.specs.Asker.{IsAsker};
ghost use Rattle.lab_engine.specs.Chains.{first_since};
ghost use Rattle.lab_engine.specs.KeptRows.{chain_in};
ghost use Rattle.lab_engine.specs.Taken.{IsFirstTaken, IsLeastTaken, comes_before};

use crate::asker::Asker;
use crate::row_states::RowStates;
use crate::rules::{Conflict, ConflictKind};
use lab_table::RowName;

/// Whether a row comes before that of the conflict that was found, if one was.
pub fn is_before(row: RowName, found: &Option<Conflict>) -> bool
    ensures { result ≡ comes_before row found.now }
{
    match found {
        Some(conflict) => row < conflict.row,
        None => true,
    }
}

/// The least of these rows that somebody installed by a commit with at least so many events before it, and who was the
/// first to do so; None where nobody did.
fn first_conflict(written: &[RowName], rows: &RowStates, before: usize) -> Option<Conflict>
    ensures { IsLeastTaken (λ row. first_since before (chain_in rows.now row)) written.now result }
{
    let mut least = None;
    for row in written {
        if is_before(*row, &least) {
            if let Some(by) = rows.first_since(*row, before) {
                least = Some(Conflict {
                    kind: ConflictKind::Write,
                    row: *row,
                    by,
                });
            }
        }
    }
    least
}

impl<'a> Asker<'a> {
    /// Returns the least row that its transaction wrote and another one has installed since its begin, with the first
    /// transaction that did. `None` means that there is no write conflict.
    pub fn first_taken(&self) -> Option<Conflict>
        ensures { (level : Kind) (past : Past) (txn : Txn) → IsAsker level past txn self.now → IsFirstTaken past txn result }
    {
        first_conflict(
            &self.running.written,
            &self.situation.rows,
            self.running.before,
        )
    }
}

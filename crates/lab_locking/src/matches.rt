//! Whose pending writes match a statement.

ghost use Rattle.std.specs.Prelude.{◌≡◌, true};
ghost use Rattle.std.specs.List.{list_any};
ghost use Rattle.lab_table.specs.Row.{Row};
ghost use Rattle.lab_table.specs.Statement.{may_match};
ghost use Rattle.lab_engine.specs.declared.event.Level.TheVariants.{Locking};
ghost use Rattle.lab_engine.specs.Asker.{AreOthers, IsAsker};
ghost use Rattle.lab_engine.specs.Kept.{pending_of};
ghost use Rattle.lab_engine.specs.Log.{Past, Txn};
ghost use Rattle.lab_engine.specs.Rules.{HoldsMatch};
ghost use Rattle.lab_locking.specs.Matches as spec;

use lab_engine::{Asker, RowState, SessionSet};
use lab_table::{RowName, Session, Statement, Value};

/// The committed state of a row of which this is kept.
fn committed_state(asker: &Asker, row: RowName, kept: &RowState) -> Option<Value>
    ensures { result ≡ spec.committed_state asker.now row kept.now.chain }
{
    match kept.last_before(asker.situation.events) {
        Some(version) => version.state,
        None => asker.setup.get(row),
    }
}

/// Whether a session has a pending version of a row of which this is kept, and the statement matches the row's
/// committed or pending state.
fn matches_kept(
    asker: &Asker,
    statement: &Statement,
    row: RowName,
    kept: &RowState,
    holder: Session,
) -> bool
    ensures { result ≡ spec.matches_either statement.now row (spec.committed_state asker.now row kept.now.chain) (pending_of kept.now holder) }
{
    let Some(pending) = kept.pending(holder) else {
        return false;
    };
    statement.matches(row, committed_state(asker, row, kept))
        || statement.matches(row, pending.state)
}

/// Whether a session has a pending version of a row, and the statement matches the row's committed or pending state.
fn matches_at(asker: &Asker, statement: &Statement, holder: Session, row: RowName) -> bool
    ensures { result ≡ spec.matches_at asker.now statement.now holder row }
{
    match asker.situation.rows.get(row) {
        Some(kept) => matches_kept(asker, statement, row, kept, holder),
        None => false,
    }
}

/// Whether a session has a pending version of one of these rows, and the statement matches that row's committed or
/// pending state.
fn any_matches(asker: &Asker, statement: &Statement, holder: Session, rows: &[RowName]) -> bool
    ensures { result ≡ list_any (spec.matches_at asker.now statement.now holder) rows.now }
{
    rows.iter()
        .any(|row| matches_at(asker, statement, holder, *row))
}

/// The other sessions that have a pending write that matches.
fn all_holders(asker: &Asker, statement: &Statement) -> SessionSet
    ensures { (past : Past) (txn : Txn) → IsAsker Locking past txn asker.now → AreOthers past asker.now (HoldsMatch asker.now.setup.now past statement.now) result }
{
    asker.others_that(|other, holder| any_matches(asker, statement, other, &holder.written))
}

/// The other sessions that have a pending write of this row that matches; it is looked up once.
fn named_holders(asker: &Asker, statement: &Statement, row: RowName) -> SessionSet
    requires { (other : Row) → may_match statement.now other ≡ true → other ≡ row }
    ensures { (past : Past) (txn : Txn) → IsAsker Locking past txn asker.now → AreOthers past asker.now (HoldsMatch asker.now.setup.now past statement.now) result }
{
    match asker.situation.rows.get(row) {
        Some(kept) => asker.others_that(|other, _| matches_kept(
            asker, statement, row, kept, other,
        )),
        None => SessionSet::none(),
    }
}

/// The other sessions that have a pending write of a row whose committed or pending state matches the statement. Where
/// the statement names a row, only that is looked up.
pub fn match_holders(asker: &Asker, statement: &Statement) -> SessionSet
    ensures { (past : Past) (txn : Txn) → IsAsker Locking past txn asker.now → AreOthers past asker.now (HoldsMatch asker.now.setup.now past statement.now) result }
{
    match statement.named_row() {
        Some(row) => named_holders(asker, statement, row),
        None => all_holders(asker, statement),
    }
}

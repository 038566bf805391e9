//! The part of a list of rows outside which a statement matches nothing.

ghost use Rattle.std.specs.Prelude.{◌≡◌, ◌≤◌, ◌<◌, ℕ, T, true, false, length, slice_index_or, filter, IfSome};
ghost use Rattle.std.specs.FinMap as map;
ghost use Rattle.lab_table.specs.Row.{Row, row_cmp};
ghost use Rattle.lab_table.specs.Statement.{may_match};

use crate::bounds::{beyond_id, least_id};
use lab_table::{RowId, RowName, Statement, place_of};

/// Places of a list, from the first on and before the last.
#[derive(Clone, Copy)]
pub struct Span {
    pub from: usize,
    pub to: usize,
}

/// The places outside which no row of a list, whose rows rise strictly, may match a statement: those of the statement's
/// table whose numbers lie between the bounds that it has.
pub fn span_of<V>(statement: &Statement, entries: &[(RowName, V)]) -> Span
    requires { T (map.is_sorted row_cmp entries.now) }
    ensures order { result.from ≤ result.to }
    ensures bound { result.to ≤ length entries.now }
    ensures before { (k : ℕ) (d : Row × V) → k < result.from → may_match statement.now (slice_index_or entries.now k d).0 ≡ false }
    ensures beyond { (k : ℕ) (d : Row × V) → result.to ≤ k → k < length entries.now → may_match statement.now (slice_index_or entries.now k d).0 ≡ false }
{
    let to = to_of(statement, entries);
    let from = from_of(statement, entries);
    Span {
        from: if from < to { from } else { to },
        to,
    }
}

/// How many entries stand before all that may match.
fn from_of<V>(statement: &Statement, entries: &[(RowName, V)]) -> usize
    requires { T (map.is_sorted row_cmp entries.now) }
    ensures { (k : ℕ) (d : Row × V) → k < result → k < length entries.now → may_match statement.now (slice_index_or entries.now k d).0 ≡ false }
{
    match RowId::new(least_id(statement)) {
        None => 0,
        Some(id) => place_of(entries, statement.row(id)),
    }
}

/// A place from which on no entry may match.
fn to_of<V>(statement: &Statement, entries: &[(RowName, V)]) -> usize
    requires { T (map.is_sorted row_cmp entries.now) }
    ensures bound { result ≤ length entries.now }
    ensures beyond { (k : ℕ) (d : Row × V) → result ≤ k → k < length entries.now → may_match statement.now (slice_index_or entries.now k d).0 ≡ false }
{
    match beyond_row(statement) {
        None => entries.len(),
        Some(row) => place_of(entries, row),
    }
}

/// The first row that a list may have behind all that may match, where the statement has such a bound.
fn beyond_row(statement: &Statement) -> Option<RowName>
    ensures table { IfSome result (λ row. row.table ≡ statement.now.table) }
    ensures beyond { IfSome result (λ row. (other : Row) → may_match statement.now other ≡ true → other.id < row.id) }
{
    let beyond = beyond_id(statement)?;
    let id = RowId::new(beyond)?;
    Some(statement.row(id))
}

/// The entries of a list whose rows rise strictly without those before and behind all that may match a statement.
pub fn within<'a, V>(statement: &Statement, entries: &'a [(RowName, V)]) -> &'a [(RowName, V)]
    requires { T (map.is_sorted row_cmp entries.now) }
    ensures { filter (λ e. may_match statement.now e.0) result.now ≡ filter (λ e. may_match statement.now e.0) entries.now }
{
    let span = span_of(statement, entries);
    &entries[span.from..span.to]
}

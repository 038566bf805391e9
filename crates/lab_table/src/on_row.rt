//! The effect of a statement on one row.

ghost use Rattle.std.specs.Prelude.{◌≡◌, cond, Some, None};
ghost use Rattle.lab_table.specs.Statement.{picks, may_pick, where_holds, where_may_hold};

use crate::number::{RowId, Value};
use crate::predicate::Pred;
use crate::row_name::RowName;
use crate::statement::{Statement, StatementKind};
use crate::table_name::TableName;

impl Statement {
    ghost use Rattle.std.specs.Prelude.{◌≡◌};
    ghost use Rattle.lab_table.specs.Row.{row_eq, numbered};
    ghost use Rattle.lab_table.specs.Statement.{matches, may_match, listed, rewritten, would_write, new_state, fails};

    /// Whether a row is the one of this number in the statement's table.
    fn is_own(&self, id: RowId, row: RowName) -> bool
        ensures { result ≡ row_eq row (numbered self.now.table id) }
    {
        row == self.row(id)
    }

    /// Returns whether a row in this state matches the statement; `None` is an absent row, which matches no statement.
    /// An insert matches the row that it adds, if that is present.
    #[inline(always)]
    pub fn matches(&self, row: RowName, state: Option<Value>) -> bool
        ensures { result ≡ matches self.now row state }
    {
        let Some(value) = state else {
            return false;
        };
        match &self.kind {
            StatementKind::Select { pred } => is_selected(self.table, pred, row, value),
            StatementKind::Update { pred, .. } => is_selected(self.table, pred, row, value),
            StatementKind::Insert { id: own, .. } => self.is_own(*own, row),
            StatementKind::Delete { pred } => is_selected(self.table, pred, row, value),
        }
    }

    /// Returns whether the row can match the statement in some state. `false` means that the row's number alone
    /// excludes it.
    pub fn may_match(&self, row: RowName) -> bool
        ensures { result ≡ may_match self.now row }
    {
        match &self.kind {
            StatementKind::Select { pred } => may_be_selected(self.table, pred, row),
            StatementKind::Update { pred, .. } => may_be_selected(self.table, pred, row),
            StatementKind::Insert { id: own, .. } => self.is_own(*own, row),
            StatementKind::Delete { pred } => may_be_selected(self.table, pred, row),
        }
    }

    /// Returns what the statement lists of a row in this state: its value, or `None` if the row isn't listed.
    #[inline(always)]
    pub fn listed(&self, row: RowName, state: Option<Value>) -> Option<Value>
        ensures { result ≡ listed self.now row state }
    {
        let value = state?;
        match &self.kind {
            StatementKind::Select { pred } => selected_value(self.table, pred, row, value),
            StatementKind::Update { pred, .. } => selected_value(self.table, pred, row, value),
            StatementKind::Insert { .. } => None,
            StatementKind::Delete { pred } => selected_value(self.table, pred, row, value),
        }
    }

    /// Returns what the statement leaves of a listed row with this value: `Some(None)` if it removes the row. `None`
    /// means that the statement doesn't write the rows that it lists, or that the result is out of range.
    pub fn rewritten(&self, value: Value) -> Option<Option<Value>>
        ensures { result ≡ rewritten self.now value }
    {
        match &self.kind {
            StatementKind::Insert { .. } | StatementKind::Select { .. } => None,
            StatementKind::Update { expr, .. } => {
                let value = expr.apply(value)?;
                Some(Some(value))
            }
            StatementKind::Delete { .. } => Some(None),
        }
    }

    /// Returns whether the statement would write a row that it sees in this state, even if it would fail.
    pub fn would_write(&self, row: RowName, state: Option<Value>) -> bool
        ensures { result ≡ would_write self.now row state }
    {
        match &self.kind {
            StatementKind::Select { .. } => false,
            StatementKind::Update { .. } => self.matches(row, state),
            StatementKind::Insert { id: own, .. } => self.is_own(*own, row),
            StatementKind::Delete { .. } => self.matches(row, state),
        }
    }

    /// Returns the state that the statement would leave of a row that it sees in this state; `None` is an absent row.
    /// The result is also `None` if the statement doesn't write the row, or if the new value is out of range.
    pub fn new_state(&self, row: RowName, state: Option<Value>) -> Option<Value>
        ensures { result ≡ new_state self.now row state }
    {
        match &self.kind {
            StatementKind::Select { .. } => None,
            StatementKind::Update { expr, .. } => {
                let Some(value) = state else {
                    return None;
                };
                if self.matches(row, Some(value)) {
                    expr.apply(value)
                } else {
                    None
                }
            }
            StatementKind::Insert { id: own, value } => {
                if self.is_own(*own, row) {
                    Some(*value)
                } else {
                    None
                }
            }
            StatementKind::Delete { .. } => None,
        }
    }

    /// Returns whether a row in this state makes the statement fail: the new value of an update is out of range, or the
    /// row that an insert adds is present.
    pub fn fails_at(&self, row: RowName, state: Option<Value>) -> bool
        ensures { result ≡ fails self.now row state }
    {
        let Some(value) = state else {
            return false;
        };
        match &self.kind {
            StatementKind::Select { .. } => false,
            StatementKind::Update { expr, pred } => {
                is_selected(self.table, pred, row, value) && expr.apply(value).is_none()
            }
            StatementKind::Insert { id: own, .. } => self.is_own(*own, row),
            StatementKind::Delete { .. } => false,
        }
    }
}

/// Whether a row with this value is one of the table, and what stands behind `where` is true of it; without a `where` it is.
#[inline(always)]
pub fn is_selected(table: TableName, pred: &Option<Pred>, row: RowName, value: Value) -> bool
    ensures { result ≡ picks table pred.now row value }
{
    row.table == table && is_true_of(pred, row.id, value)
}

/// Whether what stands behind `where` is true of a row of this number and with this value.
#[inline(always)]
fn is_true_of(pred: &Option<Pred>, id: RowId, value: Value) -> bool
    ensures { result ≡ where_holds pred.now id value }
{
    match pred {
        None => true,
        Some(p) => p.matches(id, value),
    }
}

/// The value of a row of the table, where what stands behind `where` is true of it.
#[inline(always)]
fn selected_value(
    table: TableName,
    pred: &Option<Pred>,
    row: RowName,
    value: Value,
) -> Option<Value>
    ensures { result ≡ cond (picks table pred.now row value) (Some value) None }
{
    if is_selected(table, pred, row, value) {
        Some(value)
    } else {
        None
    }
}

/// Whether a row is one of the table, and what stands behind `where` may be true of it, whatever its value.
fn may_be_selected(table: TableName, pred: &Option<Pred>, row: RowName) -> bool
    ensures { result ≡ may_pick table pred.now row }
{
    row.table == table && may_be_true_of(pred, row.id)
}

/// Whether what stands behind `where` may be true of a row of this number.
fn may_be_true_of(pred: &Option<Pred>, id: RowId) -> bool
    ensures { result ≡ where_may_hold pred.now id }
{
    match pred {
        None => true,
        Some(p) => p.may_match(id),
    }
}

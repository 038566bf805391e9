//! The rows that a statement names by their numbers.

ghost use Rattle.std.specs.Prelude.{◌≡◌, ◌≢◌, ℕ, pos, true, None, IfSome};
ghost use Rattle.lab_table.specs.Row.{Row};
ghost use Rattle.lab_table.specs.Predicate.{Compare, OneOf, may_hold};
ghost use Rattle.lab_table.specs.Statement.{where_may_hold, may_pick};
ghost use Rattle.lab_table.specs.NamedRow.{Names, WhereNames, IsNumbered, NamesIds, WhereNamesIds, has_number};

use crate::number::{RowId, Value};
use crate::predicate::{Cmp, Col, Numbers, Pred, PredKind};
use crate::row_name::RowName;
use crate::statement::{Statement, StatementKind};
use crate::table_name::TableName;

impl Statement {
    ghost use Rattle.std.specs.Prelude.{◌≡◌, ◌≢◌, true, None, IfSome};
    ghost use Rattle.lab_table.specs.Row.{Row};
    ghost use Rattle.lab_table.specs.Statement.{may_match};
    ghost use Rattle.lab_table.specs.NamedRow.{StatementNames, StatementNamesIds, has_number};

    /// Returns the only row that can match the statement, if the statement names one: the row of an insert, or that of
    /// `id = 3`, which may be one side of an `and`.
    pub fn named_row(&self) -> Option<RowName>
        ensures named { (row : Row) → StatementNames self.now row → result ≢ None }
        ensures only { IfSome result (λ row. (other : Row) → may_match self.now other ≡ true → other ≡ row) }
    {
        match &self.kind {
            StatementKind::Select { pred } => selected_row(self.table, pred),
            StatementKind::Update { pred, .. } => selected_row(self.table, pred),
            StatementKind::Insert { id, .. } => Some(self.row(*id)),
            StatementKind::Delete { pred } => selected_row(self.table, pred),
        }
    }

    /// Returns the only row numbers that can match the statement, if the statement lists them: the numbers of
    /// `id in (3, 5)`, which may be one side of an `and`.
    pub fn named_ids(&self) -> Option<&[Value]>
        ensures named { StatementNamesIds self.now → result ≢ None }
        ensures only { IfSome result (λ numbers. (row : Row) → may_match self.now row ≡ true → has_number numbers.now row ≡ true) }
    {
        match &self.kind {
            StatementKind::Select { pred } => where_ids(pred),
            StatementKind::Update { pred, .. } => where_ids(pred),
            StatementKind::Insert { .. } => None,
            StatementKind::Delete { pred } => where_ids(pred),
        }
    }
}

/// A row of the table such that what stands behind `where` may be true of no other of its rows.
fn selected_row(table: TableName, pred: &Option<Pred>) -> Option<RowName>
    ensures named { (row : Row) → WhereNames pred.now row.id → result ≢ None }
    ensures only { IfSome result (λ row. (other : Row) → may_pick table pred.now other ≡ true → other ≡ row) }
{
    match where_id(pred) {
        None => None,
        Some(id) => Some(RowName { table, id }),
    }
}

/// A number such that what stands behind `where` may be true of no row of another.
fn where_id(pred: &Option<Pred>) -> Option<RowId>
    ensures named { (id : ℕ) → WhereNames pred.now id → result ≢ None }
    ensures only { IfSome result (λ id. (other : ℕ) → where_may_hold pred.now other ≡ true → other ≡ id) }
{
    match pred {
        None => None,
        Some(pred) => pred_id(pred),
    }
}

/// A number such that a condition may be true of no row of another, where the condition or a part of an `and` is `id = n`.
fn pred_id(pred: &Pred) -> Option<RowId>
    ensures named { (id : ℕ) → Names pred.now id → result ≢ None }
    ensures only { IfSome result (λ id. (other : ℕ) → may_hold pred.now other ≡ true → other ≡ id) }
{
    match &pred.kind {
        PredKind::Compare { col, cmp, number } => compared_id(*col, *cmp, *number),
        PredKind::Remainder { .. } => None,
        PredKind::OneOf { .. } => None,
        PredKind::Not(_) => None,
        PredKind::And(p, q) => match pred_id(p) {
            Some(id) => Some(id),
            None => pred_id(q),
        },
        PredKind::Or(_, _) => None,
    }
}

/// This number, where the comparison is with the row's own.
fn compared_id(col: Col, cmp: Cmp, number: Value) -> Option<RowId>
    ensures named { (id : ℕ) → Names (Compare col cmp number) id → result ≢ None }
    ensures only { IfSome result (λ id. (other : ℕ) → may_hold (Compare col cmp number) other ≡ true → other ≡ id) }
{
    match col {
        Col::Value => None,
        Col::Id => match cmp {
            Cmp::Eq => numbered_id(number),
            _ => None,
        },
    }
}

/// This number, if a row can have it.
fn numbered_id(number: Value) -> Option<RowId>
    ensures named { (id : ℕ) → IsNumbered number id → result ≢ None }
    ensures only { IfSome result (λ id. pos id ≡ number) }
{
    match u32::try_from(number.number()) {
        Ok(id) => RowId::new(id),
        Err(_) => None,
    }
}

/// Numbers such that what stands behind `where` may be true of no row of another.
fn where_ids(pred: &Option<Pred>) -> Option<&[Value]>
    ensures named { WhereNamesIds pred.now → result ≢ None }
    ensures only { IfSome result (λ numbers. (row : Row) → where_may_hold pred.now row.id ≡ true → has_number numbers.now row ≡ true) }
{
    match pred {
        None => None,
        Some(pred) => pred_ids(pred),
    }
}

/// Numbers such that a condition may be true of no row of another, where it or a part of an `and` is `id in (..)`.
fn pred_ids(pred: &Pred) -> Option<&[Value]>
    ensures named { NamesIds pred.now → result ≢ None }
    ensures only { IfSome result (λ numbers. (row : Row) → may_hold pred.now row.id ≡ true → has_number numbers.now row ≡ true) }
{
    match &pred.kind {
        PredKind::OneOf { col, numbers } => listed_ids(*col, numbers),
        PredKind::And(p, q) => match pred_ids(p) {
            Some(numbers) => Some(numbers),
            None => pred_ids(q),
        },
        PredKind::Compare { .. }
        | PredKind::Remainder { .. }
        | PredKind::Not(_)
        | PredKind::Or(..) => None,
    }
}

/// These numbers, where they are listed of the row's own number.
fn listed_ids(col: Col, numbers: &Numbers) -> Option<&[Value]>
    ensures named { NamesIds (OneOf col numbers.now) → result ≢ None }
    ensures only { IfSome result (λ listed. (row : Row) → may_hold (OneOf col numbers.now) row.id ≡ true → has_number listed.now row ≡ true) }
{
    match col {
        Col::Value => None,
        Col::Id => Some(numbers.as_slice()),
    }
}

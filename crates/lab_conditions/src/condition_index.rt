//! The conditions of statements on several tables.

ghost use Rattle.std.specs.Prelude.{◌≡◌, ◌<◌, ◌||◌, ℕ, ℤ, List, length, get_or, OnOk, IfSome};
ghost use Rattle.lab_table.specs.Row.{Row};
ghost use Rattle.lab_table.specs.Statement.{selects};
ghost use Rattle.lab_conditions.specs.Index.{any_selects, any_matches, table_selects};
ghost use Rattle.lab_conditions.specs.Conditions.{Conditions as Plain};

use crate::conditions::Conditions;
use lab_table::{NoMemory, RowName, Statement, TableName, Value};
use std::alloc::Global;
use std::marker::Model;

/// An index of the conditions of statements, which finds out whether one of them matches a row.
#[derive(Drop)]
pub struct ConditionIndex {
    /// The conditions by table, each table once; None once an allocation failed.
    tables: Option<Vec<(TableName, Conditions)>>,
}

impl Model for ConditionIndex {
    ghost use Rattle.std.specs.Prelude.{option_map};
    ghost use Rattle.lab_conditions.specs.Index.{Index, coded_index};

    ghost Value = { Index };

    ghost coded = { coded_index };

    ghost view = { λ index. option_map (λ tables. tables.items) index.tables };
}

impl ConditionIndex {
    ghost use Rattle.std.specs.Prelude.{◌≡◌, ◌++◌, ◌∷◌, []};
    ghost use Rattle.std.specs.List.{list_any};
    ghost use Rattle.lab_table.specs.Statement.{matches};
    ghost use Rattle.lab_table.specs.declared.statement.Statement.{Statement as Asked};
    ghost use Rattle.std.specs.Prelude.{List};
    ghost use Rattle.lab_conditions.specs.Index.{Covers};

    /// An index that covers no statement. It takes no memory.
    pub fn new(alloc: Global) -> ConditionIndex
        ensures { Covers result [] }
    {
        ConditionIndex {
            tables: Some(Vec::new(alloc)),
        }
    }

    /// Adds a statement. If an allocation fails, the index gives up: it still covers the statements, but no longer speeds
    /// up the question.
    pub fn add(&mut self, alloc: Global, statement: &Statement)
        ensures { (statements : List Asked) → Covers self.old statements → Covers self.new (statements ++ statement.now ∷ []) }
    {
        let Some(tables) = &mut self.tables else {
            return;
        };
        if add_to(alloc, tables, statement).is_err() {
            self.tables = None;
        }
    }

    /// Whether one of the statements, which the index covers, matches a row in a state. An absent row matches none.
    pub fn matches_any(&self, statements: &[Statement], row: RowName, state: Option<Value>) -> bool
        requires { Covers self.now statements.now }
        ensures { result ≡ list_any (λ s. matches s row state) statements.now }
    {
        match state {
            Some(value) => self.selects_any(statements, row, value),
            None => false,
        }
    }

    /// Whether one of the statements, which the index covers, matches a row with this value.
    fn selects_any(&self, statements: &[Statement], row: RowName, value: Value) -> bool
        requires { Covers self.now statements.now }
        ensures { result ≡ any_matches statements.now row value }
    {
        match &self.tables {
            Some(tables) => any_selects(tables, row, value),
            None => any_matches(statements, row, value),
        }
    }
}

/// Whether one of some statements matches a row with this value.
fn any_matches(statements: &[Statement], row: RowName, value: Value) -> bool
    ensures { result ≡ any_matches statements.now row value }
{
    statements
        .iter()
        .any(|statement| statement.matches(row, Some(value)))
}

/// Whether a condition of one of the tables is true of a row with this value.
fn any_selects(tables: &[(TableName, Conditions)], row: RowName, value: Value) -> bool
    ensures { result ≡ any_selects tables.now row value }
{
    tables.iter().any(|table| selects(table, row, value))
}

/// Whether a row with this value is one of the table, and one of the table's conditions is true of it.
fn selects(table: &(TableName, Conditions), row: RowName, value: Value) -> bool
    ensures { result ≡ table_selects row value table.now }
{
    row.table == table.0 && table.1.any_holds(row.id, value)
}

/// Adds what a statement matches to the conditions of its table.
fn add_to(
    alloc: Global,
    tables: &mut Vec<(TableName, Conditions)>,
    statement: &Statement,
) -> Result<(), NoMemory>
    ensures { OnOk result ((row : Row) (value : ℤ) → any_selects tables.new.items row value ≡ (any_selects tables.old.items row value || selects statement.now row value)) }
{
    if let Some(place) = place_of(tables, statement.table) {
        let table = &mut tables[place];
        return table.1.add(alloc, &statement.kind);
    }
    let mut conditions = Conditions::new(alloc);
    conditions.add(alloc, &statement.kind)?;
    tables.push((statement.table, conditions))?;
    Ok(())
}

/// Where a table's conditions are.
fn place_of(tables: &[(TableName, Conditions)], table: TableName) -> Option<usize>
    ensures { IfSome result (λ place. (place < length tables.now) × ((d : List ℕ × Plain) → (get_or tables.now place d).0 ≡ table)) }
{
    for (place, other) in tables.iter().enumerate() {
        if other.0 == table {
            return Some(place);
        }
    }
    None
}

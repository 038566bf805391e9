//! Operations, with the versions they saw and the rows they listed and wrote.

ghost use Rattle.std.specs.Prelude.{◌≡◌, ◌↔◌, T, IsOk, IfOk, IfErr, option_map};
ghost use Rattle.std.specs.FinMap as map;
ghost use Rattle.lab_table.specs.Row.{row_cmp};
ghost use Rattle.lab_history.specs.VersionName.{new_states, state_value};

use crate::order::rises;
use lab_table::{ByRow, NoMemory, RowName, Sequence, Statement, TxnNo, Value, value_of};
use std::alloc::Global;
use std::marker::Model;

/// The name of a version of a row: the initial version, or the version that an operation of a transaction wrote.
/// Operations are counted from 1 within their transaction.
#[derive(Clone, Copy, Debug, PartialEq, Eq)]
pub enum VersionName {
    Initial,
    Of { txn: TxnNo, op: u32 },
}

/// The state of a version of a row: absent, or a value.
#[derive(Clone, Copy, Debug, PartialEq, Eq)]
pub enum State {
    Absent,
    Present(Value),
}

/// The versions that an operation saw, in ascending order of rows. A row that isn't listed was seen at its initial
/// version.
#[derive(Drop)]
pub struct View {
    by_row: ByRow<VersionName>,
}

impl Model for View {
    ghost use Rattle.std.specs.FinMap as map;
    ghost use Rattle.lab_table.specs.Row.{row_cmp, coded_row};
    ghost use Rattle.lab_history.specs.declared.operation.VersionName.{VersionName};
    ghost use Rattle.lab_history.specs.VersionName.{coded_version};

    ghost Value = { map.FinMap row_cmp VersionName };

    ghost coded = { map.code coded_row coded_version };

    ghost view = { λ v. v.by_row };
}

/// Rows with their values, in ascending order of rows.
#[derive(Drop)]
pub struct Rows {
    by_row: ByRow<Value>,
}

impl Model for Rows {
    ghost use Rattle.std.specs.FinMap as map;
    ghost use Rattle.std.specs.Coded.{coded_ℤ};
    ghost use Rattle.lab_table.specs.Row.{coded_row};
    ghost use Rattle.lab_table.specs.Table.{Rows};

    ghost Value = { Rows };

    ghost coded = { map.code coded_row coded_ℤ };

    ghost view = { λ r. r.by_row };
}

/// The rows that an operation wrote with their new states, in ascending order of rows.
#[derive(Drop)]
pub struct Writes {
    entries: Vec<(RowName, State)>,
}

impl Model for Writes {
    ghost use Rattle.std.specs.FinMap as map;
    ghost use Rattle.std.specs.Prelude.{T};
    ghost use Rattle.std.specs.Coded.{coded_ℤ, coded_option};
    ghost use Rattle.lab_table.specs.Row.{row_cmp, coded_row};
    ghost use Rattle.lab_table.specs.Table.{Writes};
    ghost use Rattle.lab_history.specs.VersionName.{new_states};

    ghost Value = { Writes };

    ghost coded = { map.code coded_row (coded_option coded_ℤ) };

    ghost view = { λ w. map.from_sorted (new_states w.entries.items) };

    ghost invariant = { λ w. T (map.is_sorted row_cmp (new_states w.entries.items)) };
}

/// A statement that ran, with the versions it saw and the rows it listed and wrote.
#[derive(Drop)]
pub struct Op {
    pub statement: Statement,
    pub view: View,
    pub rows: Rows,
    pub writes: Writes,
}

/// The operations of a transaction, in order.
pub type Ops = Sequence<Op>;

impl View {
    /// Returns the view with these entries, whose rows must ascend strictly.
    pub fn new(entries: Vec<(RowName, VersionName)>) -> View
        requires { T (map.is_sorted row_cmp entries.items) }
        ensures { result ≡ map.from_sorted entries.items }
    {
        View {
            by_row: ByRow::from_rising(entries),
        }
    }

    /// Returns the view with these entries. If their rows don't ascend strictly, fails and returns the entries.
    /// Allocates nothing.
    pub fn from_entries(
        entries: Vec<(RowName, VersionName)>,
    ) -> Result<View, Vec<(RowName, VersionName)>>
        ensures found { IfOk result (λ made. made ≡ map.from_sorted entries.items) }
        ensures only { IsOk result ↔ T (map.is_sorted row_cmp entries.items) }
        ensures back { IfErr result (λ back. back ≡ entries) }
    {
        if rises(&entries) {
            Ok(View::new(entries))
        } else {
            Err(entries)
        }
    }

    /// Returns the entries, in ascending order of rows.
    pub fn entries(&self) -> &[(RowName, VersionName)]
        ensures { result.now ≡ map.entries self.now }
    {
        self.by_row.entries()
    }

    /// Returns the version that the view lists for `row`, or `None` if it lists none.
    pub fn get(&self, row: RowName) -> Option<VersionName>
        ensures { result ≡ map.get self.now row }
    {
        self.by_row.get(row)
    }

    /// Returns a copy.
    pub fn copy(&self, alloc: Global) -> Result<View, NoMemory>
        ensures { IfOk result (λ copy. copy ≡ self.now) }
    {
        Ok(View {
            by_row: self.by_row.copy(alloc)?,
        })
    }
}

impl Rows {
    /// Returns the list with these entries, whose rows must ascend strictly.
    pub fn new(entries: Vec<(RowName, Value)>) -> Rows
        requires { T (map.is_sorted row_cmp entries.items) }
        ensures { result ≡ map.from_sorted entries.items }
    {
        Rows {
            by_row: ByRow::from_rising(entries),
        }
    }

    /// Returns the list with these entries. If their rows don't ascend strictly, fails and returns the entries.
    /// Allocates nothing.
    pub fn from_entries(entries: Vec<(RowName, Value)>) -> Result<Rows, Vec<(RowName, Value)>>
        ensures found { IfOk result (λ made. made ≡ map.from_sorted entries.items) }
        ensures only { IsOk result ↔ T (map.is_sorted row_cmp entries.items) }
        ensures back { IfErr result (λ back. back ≡ entries) }
    {
        if rises(&entries) {
            Ok(Rows::new(entries))
        } else {
            Err(entries)
        }
    }

    /// Returns the entries, in ascending order of rows.
    pub fn entries(&self) -> &[(RowName, Value)]
        ensures { result.now ≡ map.entries self.now }
    {
        self.by_row.entries()
    }

    /// Returns the value of `row`, or `None` if the row isn't listed.
    pub fn get(&self, row: RowName) -> Option<Value>
        ensures { result ≡ map.get self.now row }
    {
        self.by_row.get(row)
    }

    /// Returns a copy.
    pub fn copy(&self, alloc: Global) -> Result<Rows, NoMemory>
        ensures { IfOk result (λ copy. copy ≡ self.now) }
    {
        Ok(Rows {
            by_row: self.by_row.copy(alloc)?,
        })
    }
}

impl Writes {
    /// Returns the writes with these entries, whose rows must ascend strictly.
    pub fn new(entries: Vec<(RowName, State)>) -> Writes
        requires { T (map.is_sorted row_cmp (new_states entries.items)) }
        ensures { result ≡ map.from_sorted (new_states entries.items) }
    {
        Writes { entries }
    }

    /// Returns the writes with these entries. If their rows don't ascend strictly, fails and returns the entries.
    /// Allocates nothing.
    #[tactic(auto, using(crate::proofs::NewStates::new_states_sorted))]
    pub fn from_entries(entries: Vec<(RowName, State)>) -> Result<Writes, Vec<(RowName, State)>>
        ensures found { IfOk result (λ made. made ≡ map.from_sorted (new_states entries.items)) }
        ensures only { IsOk result ↔ T (map.is_sorted row_cmp (new_states entries.items)) }
        ensures back { IfErr result (λ back. back ≡ entries) }
    {
        if rises(&entries) {
            Ok(Writes { entries })
        } else {
            Err(entries)
        }
    }

    /// Returns the entries, in ascending order of rows.
    pub fn entries(&self) -> &[(RowName, State)]
        ensures { new_states result.now ≡ map.entries self.now }
    {
        &self.entries
    }

    /// Returns the new state of `row`, or `None` if the row isn't written.
    pub fn get(&self, row: RowName) -> Option<State>
        ensures { option_map state_value result ≡ map.get self.now row }
    {
        value_of(&self.entries, row).copied()
    }

    /// Returns a copy.
    pub fn copy(&self, alloc: Global) -> Result<Writes, NoMemory>
        ensures { IfOk result (λ copy. copy ≡ self.now) }
    {
        Ok(Writes {
            entries: Vec::from_slice(alloc, &self.entries)?,
        })
    }
}

impl Op {
    /// Returns a copy.
    pub fn copy(&self, alloc: Global) -> Result<Op, NoMemory>
        ensures { IfOk result (λ copy. copy ≡ self.now) }
    {
        Ok(Op {
            statement: self.statement.copy(alloc)?,
            view: self.view.copy(alloc)?,
            rows: self.rows.copy(alloc)?,
            writes: self.writes.copy(alloc)?,
        })
    }
}

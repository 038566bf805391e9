//! Sets of table names.

ghost use Rattle.std.specs.Prelude.{◌≡◌, ◌<◌, [], length, MatchBool};
ghost use Rattle.lab_table.specs.TableSet.{max_tables, is_among, with_name};

use crate::table_name::TableName;
use std::marker::Model;

/// The most tables that a script or a history may name.
pub const MAX_TABLES: usize = 4;

/// Distinct table names, in the order of insertion: at most `MAX_TABLES`, stored inline.
#[derive(Debug, Drop)]
pub struct TableSet {
    /// The names; entries after the first `count` have no meaning.
    names: [TableName; MAX_TABLES],
    /// How many names there are.
    count: usize,
}

impl Model for TableSet {
    ghost use Rattle.std.specs.Prelude.{◌≤◌, take};
    ghost use Rattle.lab_table.specs.TableSet.{FewNames, few_of, max_tables};

    ghost Value = { FewNames };

    ghost view = { λ t. few_of (take t.count t.names) };

    ghost invariant = { λ t. t.count ≤ max_tables };
}

impl TableSet {
    /// Returns the empty set.
    pub fn new() -> TableSet
        ensures { result.names ≡ [] }
    {
        TableSet {
            names: [TableName::test(); MAX_TABLES],
            count: 0,
        }
    }

    /// Returns whether `name` is in the set.
    pub fn has(&self, name: TableName) -> bool
        ensures { result ≡ is_among self.now.names name }
    {
        self.names[..self.count].iter().any(|other| name == *other)
    }

    /// Adds `name` unless the set has it. Returns `false` if the set is full and doesn't have it.
    pub fn add(&mut self, name: TableName) -> bool
        ensures { MatchBool result (self.new.names ≡ with_name self.old.names name) (max_tables < length (with_name self.old.names name)) }
    {
        if self.has(name) {
            return true;
        }
        if self.count == MAX_TABLES {
            return false;
        }
        self.names[self.count] = name;
        self.count += 1;
        true
    }
}

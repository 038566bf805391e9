//! The type of histories.

ghost use Rattle.std.specs.Prelude.{◌≡◌, IfOk, IfErr};
ghost use Rattle.lab_history.specs.Index.{IsIndexOf};
ghost use Rattle.lab_history.specs.HistoryRules.{Keeps};

use crate::index::Index;
use crate::parts::Parts;
use crate::transaction::{Installed, Txns};
use lab_table::Table;
use std::alloc::Global;
use std::marker::Model;

/// What transactions did to a table: the table before, the transactions, the installers of each row, and the table
/// after. A history keeps these limits and rules:
/// - at most 1,000 transactions, 10,000 operations, 1,000 different ids in all lists, and 200,000 entries of views,
///   rows and writes together
/// - different transaction numbers
/// - statements that can be printed
/// - views that list versions by operations from 1 to 10,000
/// - no empty list of installers
#[derive(Drop)]
pub struct History {
    parts: Parts,
    index: Index,
}

impl Model for History {
    ghost use Rattle.lab_history.specs.History as spec;
    ghost use Rattle.lab_history.specs.Index.{IsIndexOf};
    ghost use Rattle.lab_history.specs.HistoryRules.{Keeps};
    ghost use Rattle.lab_history.specs.contracts.parts.Parts as stored;

    ghost Value = { spec.History };

    ghost coded = { stored.the_row.coded };

    ghost view = { λ h. h.parts };

    ghost invariant = { λ h. Keeps h.parts × IsIndexOf h.index h.parts };
}

impl History {
    /// The history of these parts, or the parts as they were, where an allocation was refused.
    pub(crate) fn assembled(alloc: Global, parts: Parts) -> Result<History, Parts>
        requires { Keeps parts }
        ensures ok { IfOk result (λ history. history ≡ parts) }
        ensures back { IfErr result (λ back. back ≡ parts) }
    {
        match Index::of(alloc, &parts) {
            Ok(index) => Ok(History { parts, index }),
            Err(_) => Err(parts),
        }
    }

    /// Returns the parts of the history.
    pub fn parts(&self) -> &Parts
        ensures value { result.now ≡ self.now }
        ensures keeps { Keeps self.now }
    {
        &self.parts
    }

    /// Its index.
    pub(crate) fn index(&self) -> &Index
        ensures { IsIndexOf result.now self.now }
    {
        &self.index
    }

    /// Returns the table before the first transaction.
    pub fn initial(&self) -> &Table
        ensures { result.now ≡ self.now.initial }
    {
        &self.parts.initial
    }

    /// Returns the transactions, in the order of the file. Their numbers differ, and they have at most 10,000
    /// operations together.
    pub fn txns(&self) -> &Txns
        ensures value { result.now ≡ self.now.txns }
        ensures keeps { Keeps self.now }
    {
        &self.parts.txns
    }

    /// Returns the transactions that installed each row.
    pub fn installed(&self) -> &Installed
        ensures { result.now ≡ self.now.installed }
    {
        &self.parts.installed
    }

    /// Returns the final table.
    pub fn end_table(&self) -> &Table
        ensures { result.now ≡ self.now.end_table }
    {
        &self.parts.end_table
    }
}

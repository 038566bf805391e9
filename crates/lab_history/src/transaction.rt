//! Transactions, and the installers of rows.

ghost use Rattle.std.specs.Prelude.{◌≡◌, ◌↔◌, T, IsOk, IfOk, IfErr};
ghost use Rattle.std.specs.Option.{option_copied};
ghost use Rattle.std.specs.FinMap as map;
ghost use Rattle.lab_table.specs.Row.{row_cmp};

use crate::operation::Ops;
use crate::order::rises;
use lab_table::{RowName, Sequence, TxnNo, value_of};
use std::marker::Model;

/// How a transaction ended.
#[derive(Clone, Copy, Debug, PartialEq, Eq)]
pub enum Outcome {
    Committed,
    Aborted,
}

/// A transaction.
#[derive(Drop)]
pub struct Txn {
    /// Its number, from 1 to 1,000,000.
    pub no: TxnNo,
    /// How it ended.
    pub outcome: Outcome,
    /// Its operations, in order.
    pub ops: Ops,
}

/// Transactions, in the order of a file.
pub type Txns = Sequence<Txn>;

/// The transactions that installed a row, in order.
pub type Installers = Sequence<TxnNo>;

/// The transactions that installed each row, in ascending order of rows.
#[derive(Drop)]
pub struct Installed {
    entries: Vec<(RowName, Installers)>,
}

impl Model for Installed {
    ghost use Rattle.std.specs.FinMap as map;
    ghost use Rattle.std.specs.Prelude.{T, ℕ, List};
    ghost use Rattle.std.specs.Coded.{coded_ℕ, coded_list};
    ghost use Rattle.lab_table.specs.Row.{row_cmp, coded_row};

    ghost Value = { map.FinMap row_cmp (List ℕ) };

    ghost coded = { map.code coded_row (coded_list coded_ℕ) };

    ghost view = { λ i. map.from_sorted i.entries.items };

    ghost invariant = { λ i. T (map.is_sorted row_cmp i.entries.items) };
}

impl Installed {
    /// Returns the installers of these rows, which must ascend strictly.
    pub fn new(entries: Vec<(RowName, Installers)>) -> Installed
        requires { T (map.is_sorted row_cmp entries.items) }
        ensures { result ≡ map.from_sorted entries.items }
    {
        Installed { entries }
    }

    /// Returns the installers of these rows. If the rows don't ascend strictly, fails and returns the entries.
    /// Allocates nothing.
    pub fn from_entries(
        entries: Vec<(RowName, Installers)>,
    ) -> Result<Installed, Vec<(RowName, Installers)>>
        ensures found { IfOk result (λ made. made ≡ map.from_sorted entries.items) }
        ensures only { IsOk result ↔ T (map.is_sorted row_cmp entries.items) }
        ensures back { IfErr result (λ back. back ≡ entries) }
    {
        if rises(&entries) {
            Ok(Installed { entries })
        } else {
            Err(entries)
        }
    }

    /// Returns the entries, in ascending order of rows.
    pub fn entries(&self) -> &[(RowName, Installers)]
        ensures { result.now ≡ map.entries self.now }
    {
        &self.entries
    }

    /// Returns the installers of `row`, or `None` if it has none.
    pub fn get(&self, row: RowName) -> Option<&Installers>
        ensures { option_copied result ≡ map.get self.now row }
    {
        value_of(&self.entries, row)
    }
}

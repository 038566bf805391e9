//! A transaction with a row, in an order that looks at numbers first.

ghost use Rattle.std.specs.Prelude.{Some, refl};
ghost use Rattle.std.specs.Cmp.{partial_equiv_from_equiv, po};
ghost use Rattle.lab_history.specs.TxnRow.{txn_row_cmp, txn_row_test, txn_rows_total, txn_rows_equiv, txn_rows_tested};

use lab_table::{RowName, TxnNo};
use std::cmp::Ordering;
use std::marker::Model;

/// A transaction with a row: by transaction, and of one transaction by row.
#[derive(Clone, Copy)]
pub struct TxnRow {
    pub txn: TxnNo,
    pub row: RowName,
}

impl Model for TxnRow {
    ghost use Rattle.std.specs.Prelude.{ℕ};
    ghost use Rattle.std.specs.Coded.{coded×, coded_ℕ};
    ghost use Rattle.lab_table.specs.Row.{Row, coded_row};

    ghost Value = { ℕ × Row };

    ghost coded = { coded× coded_ℕ coded_row };

    ghost view = { λ key. (key.txn, key.row) };

    ghost inverse = { λ key. record { txn = key.0; row = key.1 } };
}

impl PartialEq for TxnRow {
    ghost eq = { txn_row_test };

    ghost laws = { partial_equiv_from_equiv txn_rows_equiv };

    fn eq(&self, other: &TxnRow) -> bool {
        self.txn == other.txn && self.row == other.row
    }
}

impl Eq for TxnRow {
    ghost laws = { txn_rows_equiv };
}

impl PartialOrd for TxnRow {
    ghost partial_cmp = { λ a b. Some (txn_row_cmp a b) };

    ghost laws = { po txn_rows_total txn_rows_tested };

    fn partial_cmp(&self, other: &TxnRow) -> Option<Ordering> {
        Some(self.cmp(other))
    }
}

impl Ord for TxnRow {
    ghost cmp = { txn_row_cmp };

    ghost total = { txn_rows_total };

    ghost matches_partial_cmp = { λ a b. refl };

    ghost matches_eq = { txn_rows_tested };

    #[inline(always)]
    fn cmp(&self, other: &TxnRow) -> Ordering {
        if self.txn == other.txn {
            self.row.cmp(&other.row)
        } else {
            self.txn.cmp(&other.txn)
        }
    }
}

//! Names of rows, by table and number.

ghost use Rattle.std.specs.Prelude.{◌≡◌, ◌++◌, Some, refl};
ghost use Rattle.std.specs.Cmp.{partial_equiv_from_equiv, po};
ghost use Rattle.std.specs.Hash as fed;
ghost use Rattle.std.specs.Hash.{same_Alike};
ghost use Rattle.lab_table.specs.Row.{row_cmp, row_test, rows_total, rows_equiv, rows_tested, rows_decided};

use crate::number::RowId;
use crate::table_name::TableName;
use std::cmp::Ordering;
use std::hash::{Hash, Hasher};
use std::marker::Model;

/// The name of a row: the name of its table, and its number there. Rows are ordered by table, then by number.
#[derive(Clone, Copy, Debug)]
pub struct RowName {
    pub table: TableName,
    pub id: RowId,
}

impl Model for RowName {
    ghost use Rattle.lab_table.specs.Row.{Row, coded_row};

    ghost Value = { Row };

    ghost coded = { coded_row };

    ghost view = { λ row. record { table = row.table; id = row.id } };

    ghost inverse = { λ row. record { table = row.table; id = row.id } };
}

impl RowName {
    ghost use Rattle.lab_table.specs.Row.{in_test};

    /// Returns row `id` of the table `test`.
    pub fn in_test(id: RowId) -> RowName
        ensures { result ≡ in_test id }
    {
        RowName {
            table: TableName::test(),
            id,
        }
    }

    /// Returns a copy of the name.
    pub fn copy(&self) -> RowName
        ensures { result ≡ self.now }
    {
        *self
    }
}

impl PartialEq for RowName {
    ghost eq = { row_test };

    ghost laws = { partial_equiv_from_equiv rows_equiv };

    #[inline]
    fn eq(&self, other: &RowName) -> bool {
        // Rows of one table are told apart by their numbers, at less cost.
        self.id == other.id && self.table == other.table
    }
}

impl Eq for RowName {
    ghost laws = { rows_equiv };
}

impl PartialOrd for RowName {
    ghost partial_cmp = { λ a b. Some (row_cmp a b) };

    ghost laws = { po rows_total rows_tested };

    fn partial_cmp(&self, other: &RowName) -> Option<Ordering> {
        Some(self.cmp(other))
    }
}

impl Ord for RowName {
    ghost cmp = { row_cmp };

    ghost total = { rows_total };

    ghost matches_partial_cmp = { λ a b. refl };

    ghost matches_eq = { rows_tested };

    #[inline]
    fn cmp(&self, other: &RowName) -> Ordering {
        // Most rows that are compared are of one table, and whether they are is told at less cost than how tables stand.
        if self.table == other.table {
            self.id.cmp(&other.id)
        } else {
            self.table.cmp(&other.table)
        }
    }
}

impl Hash for RowName {
    ghost hash_input = { λ row. fed.slice fed.u8 row.table ++ fed.u32 row.id };

    ghost respects_eq = { (same_Alike (λ row. fed.slice fed.u8 row.table ++ fed.u32 row.id) rows_decided).fed };

    fn hash<H: Hasher>(&self, state: &mut H) {
        self.table.hash(state);
        self.id.hash(state);
    }
}

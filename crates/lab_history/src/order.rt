//! Lists whose rows ascend strictly.

ghost use Rattle.std.specs.Prelude.{◌≡◌};
ghost use Rattle.std.specs.FinMap as map;
ghost use Rattle.lab_table.specs.Row.{row_cmp};
ghost use Rattle.lab_history.specs.RowOrder as rows;

use lab_table::RowName;

/// Returns whether `row` comes after the row `before`. Without a row before, the result is `true`.
// Not inlined, so that rows are compared where they stand: else their names are taken apart byte by byte.
#[inline(never)]
pub fn follows(before: &Option<RowName>, row: &RowName) -> bool
    ensures { result ≡ rows.follows before.now row.now }
{
    match before {
        None => true,
        Some(before) => before.cmp(row).is_lt(),
    }
}

/// Whether each row comes after the one before it.
#[tactic(auto, using(crate::proofs::Rising::rises_all))]
pub fn rises<X>(entries: &[(RowName, X)]) -> bool
    ensures { result ≡ map.is_sorted row_cmp entries.now }
{
    let mut before = None;
    for (row, _) in entries {
        if !follows(&before, row) {
            return false;
        }
        before = Some(*row);
    }
    true
}

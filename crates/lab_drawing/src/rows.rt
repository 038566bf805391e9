//! The rows of a cycle, and membership in a list of rows.

ghost use Rattle.std.specs.Prelude.{◌≡◌, IfOk};
ghost use Rattle.lab_drawing.specs.Rows.{is_of, rows_of, is_named};

use lab_deps::Edge;
use lab_history::History;
use lab_table::{NoMemory, RowName};
use std::alloc::Global;

/// Whether a dependency of a cycle names a row.
fn is_of(walk: &[Edge], row: RowName) -> bool
    ensures { result ≡ is_of walk.now row }
{
    for edge in walk {
        if edge.row == row {
            return true;
        }
    }
    false
}

/// The rows that the dependencies of a cycle name, by rising row.
pub fn rows_of(alloc: Global, history: &History, walk: &[Edge]) -> Result<Vec<RowName>, NoMemory>
    ensures { IfOk result (λ rows. rows.items ≡ rows_of history.now walk.now) }
{
    let mut rows = Vec::new(alloc);
    for (row, _) in history.installed().entries() {
        if is_of(walk, *row) {
            rows.push(*row)?;
        }
    }
    Ok(rows)
}

/// Returns whether `named` has `row`.
pub fn is_named(named: &[RowName], row: RowName) -> bool
    ensures { result ≡ is_named named.now row }
{
    for other in named {
        if *other == row {
            return true;
        }
    }
    false
}

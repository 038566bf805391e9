//! Which dependencies of a history are meant.

ghost use Rattle.std.specs.Prelude.{◌≡◌, OnOk};
ghost use Rattle.lab_deps.specs.EdgesByRow.{rows_of};
ghost use Rattle.lab_deps.specs.Numbering.{HasPlaces, where_fits};
ghost use Rattle.lab_deps.specs.Scopes.{edges_in};
ghost use Rattle.lab_deps.specs.Sinks.{Grows};

use crate::collect::add_edges_of_txns;
use crate::row_sink::RowSink;
use crate::rows::Rows;
use crate::writes::add_neighbours_of_rows;
use lab_history::History;
use lab_table::NoMemory;

/// Which dependencies are meant.
#[derive(Clone, Copy)]
pub enum Scope {
    /// Those of every kind.
    All,
    /// Write-dependencies.
    Writes,
}

/// Hands a sink the edges that are meant, some of them more than once; NoMemory where an allocation was refused.
pub fn add_edges<S: RowSink>(
    sink: &mut S,
    history: &History,
    scope: Scope,
    rows: &Rows,
) -> Result<(), NoMemory>
    requires { rows.now.versions.entries ≡ rows_of history.now }
    ensures { OnOk result (Grows (where_fits (HasPlaces history.now) S.handed) sink.old sink.new (edges_in scope history.now)) }
{
    match scope {
        Scope::All => add_edges_of_txns(sink, history, rows),
        Scope::Writes => add_neighbours_of_rows(sink, history),
    }
}

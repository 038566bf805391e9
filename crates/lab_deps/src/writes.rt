//! Write-dependencies: between neighbours in the rows' lists of installers.

ghost use Rattle.std.specs.Prelude.{◌≡◌, None, OnOk, IfOk};
ghost use Rattle.std.specs.List.{flat_map};
ghost use Rattle.std.specs.FinMap as map;
ghost use Rattle.lab_deps.specs.Collected.{apart_in, next_of, neighbours, neighbours_at};
ghost use Rattle.lab_deps.specs.Sinks.{Grows};

use crate::edge::{Edge, Kind};
use crate::reading::add_apart;
use crate::sink::EdgeSink;
use lab_history::{History, Installers};
use lab_table::{NoMemory, RowName, TxnNo};
use std::alloc::Global;

/// The edges between neighbours in the lists of all rows. NoMemory where an allocation was refused.
pub fn neighbours_of_rows(alloc: Global, history: &History) -> Result<Vec<Edge>, NoMemory>
    ensures { IfOk result (λ edges. edges.items ≡ flat_map neighbours_at (map.entries history.now.installed)) }
{
    let mut edges = Vec::new(alloc);
    add_neighbours_of_rows(&mut edges, history)?;
    Ok(edges)
}

/// Hands a sink the edges between neighbours in the lists of all rows.
pub fn add_neighbours_of_rows<S: EdgeSink>(sink: &mut S, history: &History) -> Result<(), NoMemory>
    ensures { OnOk result (Grows S.handed sink.old sink.new (flat_map neighbours_at (map.entries history.now.installed))) }
{
    add_rows(sink, history.installed().entries())
}

fn add_rows<S: EdgeSink>(sink: &mut S, rows: &[(RowName, Installers)]) -> Result<(), NoMemory>
    ensures { OnOk result (Grows S.handed sink.old sink.new (flat_map neighbours_at rows.now)) }
{
    for entry in rows {
        add_neighbours(sink, entry.0, entry.1.as_slice())?;
    }
    Ok(())
}

/// Adds the edges between neighbours in a row's list.
pub fn add_neighbours<S: EdgeSink>(
    sink: &mut S,
    row: RowName,
    installers: &[TxnNo],
) -> Result<(), NoMemory>
    ensures { OnOk result (Grows S.handed sink.old sink.new (neighbours row None installers.now)) }
{
    let mut before = None;
    for installer in installers {
        add_next(sink, row, before, *installer)?;
        before = Some(*installer);
    }
    Ok(())
}

/// Adds the edge from an installer to the next one, if there is one before.
fn add_next<S: EdgeSink>(
    sink: &mut S,
    row: RowName,
    before: Option<TxnNo>,
    to: TxnNo,
) -> Result<(), NoMemory>
    ensures { OnOk result (Grows S.handed sink.old sink.new (apart_in (next_of row before to))) }
{
    let Some(from) = before else { return Ok(()) };
    add_apart(
        sink,
        Edge {
            from,
            to,
            kind: Kind::Write,
            row,
        },
    )
}

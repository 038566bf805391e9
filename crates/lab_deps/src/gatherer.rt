//! What finds the kinds of dependencies.

ghost use Rattle.std.specs.Prelude.{OnOk, IfOk};
ghost use Rattle.lab_deps.specs.EdgesByRow.{unlisted, walked};
ghost use Rattle.lab_deps.specs.KindBits.{Tells};
ghost use Rattle.lab_deps.specs.KindsBetween.{IsTold};
ghost use Rattle.lab_deps.specs.Numbering.{AreNodes, FitsVersions, where_fits};
ghost use Rattle.lab_deps.specs.Scopes.{Allows, edges_in};
ghost use Rattle.lab_deps.specs.Sinks.{Grows};

use crate::arrows::Arrows;
use crate::asked::Asked;
use crate::edge::Edge;
use crate::reading::Reading;
use crate::row_sink::RowSink;
use crate::rows::versions_of_rows;
use crate::scope::{Scope, add_edges};
use crate::sink::EdgeSink;
use crate::turns::greatest;
use crate::versions::Versions;
use crate::walk::turned_along;
use lab_history::History;
use lab_table::{NoMemory, TxnNo};
use std::alloc::Global;

/// Cells that are told of edges, and for what a statement answers room.
#[derive(Drop)]
struct Gatherer {
    arrows: Arrows,
    answers: Vec<bool>,
    /// For the versions of a row the places of installers.
    turned: Vec<u16>,
}

/// The kinds of those dependencies of a history that are meant, between its committed transactions. NoMemory where an
/// allocation was refused.
pub fn arrows_of(
    alloc: Global,
    history: &History,
    scope: Scope,
    numbers: &[TxnNo],
) -> Result<Arrows, NoMemory>
    requires allowed { Allows scope history.now }
    requires nodes { AreNodes history.now numbers.now }
    ensures { IfOk result (λ arrows. IsTold (edges_in scope history.now) numbers.now arrows.places.items arrows.width arrows.cells.items) }
{
    let arrows = Arrows::none(alloc, numbers)?;
    let rows = versions_of_rows(alloc, history, arrows.places())?;
    let mut gatherer = Gatherer {
        arrows,
        answers: Vec::new(alloc),
        turned: Vec::new(alloc),
    };
    add_edges(&mut gatherer, history, scope, &rows)?;
    Ok(gatherer.arrows)
}

/// Keeps of each edge its kind.
impl EdgeSink for Gatherer {
    ghost handed = { λ g made es. Tells g.arrows.places.items g.arrows.width g.arrows.cells.items made es };

    fn take(&mut self, edge: Edge) -> Result<(), NoMemory> {
        self.arrows.mark_edge(edge);
        Ok(())
    }
}

impl RowSink for Gatherer {
    fn take_walked(
        &mut self,
        statement: &Asked,
        reading: Reading,
        versions: &Versions,
    ) -> Result<(), NoMemory> {
        reading.add_items(self, versions.as_slice())?;
        self.take_unlisted(statement, reading, versions)
    }
}

impl Gatherer {
    /// Takes all that a reader has to do with a row's versions but for what it lists.
    fn take_unlisted(
        &mut self,
        statement: &Asked,
        reading: Reading,
        versions: &Versions,
    ) -> Result<(), NoMemory>
        ensures { OnOk result (Grows (where_fits (FitsVersions versions.now.items) (λ g made es. Tells g.arrows.places.items g.arrows.width g.arrows.cells.items made es)) self.old self.new (walked statement.now (unlisted reading) versions.now)) }
    {
        match versions.turns(&mut self.answers, statement, reading.row)? {
            None => {
                if statement.is_ready() {
                    return self.take_walk(statement, reading, versions);
                }
                reading.unlisted().add_edges(self, statement, versions)
            }
            Some(kept) => {
                let reader = self.arrows.place(reading.txn);
                if !self.arrows.reaches(reader, kept.turns.most) {
                    return reading.unlisted().add_edges(self, statement, versions);
                }
                self.arrows.mark_turns(&kept.turns, reader, reading.place);
                Ok(())
            }
        }
    }

    /// The same, where it isn't kept at which versions the row turns.
    fn take_walk(
        &mut self,
        statement: &Asked,
        reading: Reading,
        versions: &Versions,
    ) -> Result<(), NoMemory>
        ensures { OnOk result (Grows (where_fits (FitsVersions versions.now.items) (λ g made es. Tells g.arrows.places.items g.arrows.width g.arrows.cells.items made es)) self.old self.new (walked statement.now (unlisted reading) versions.now)) }
    {
        turned_along(
            &mut self.turned,
            statement,
            reading.row,
            versions.initial(),
            versions.first(),
            versions.as_slice(),
        )?;
        let most = greatest(&self.turned);
        let reader = self.arrows.place(reading.txn);
        if !self.arrows.reaches(reader, most) {
            return reading.unlisted().add_edges(self, statement, versions);
        }
        self.arrows
            .mark_installers(&self.turned, most, reader, reading.place);
        Ok(())
    }
}

//! What takes all that a reader has to do with a row's versions at once.

use crate::asked::Asked;
use crate::edge::Edge;
use crate::reading::Reading;
use crate::sink::EdgeSink;
use crate::versions::Versions;
use lab_table::NoMemory;

/// A sink of edges that is handed all that a reader has to do with a row's versions at once, since it may need less
/// than the edges one by one.
pub trait RowSink: EdgeSink {
    ghost use Rattle.std.specs.Prelude.{OnOk};
    ghost use Rattle.lab_deps.specs.EdgesByRow.{walked};
    ghost use Rattle.lab_deps.specs.Numbering.{FitsVersions, where_fits};
    ghost use Rattle.lab_deps.specs.Sinks.{Grows};

    /// Hands it all that a reader has to do with a row's versions; NoMemory where an allocation was refused.
    fn take_walked(
        &mut self,
        statement: &Asked,
        reading: Reading,
        versions: &Versions,
    ) -> Result<(), NoMemory>
        ensures { OnOk result (Grows (where_fits (FitsVersions versions.now.items) Self.handed) self.old self.new (walked statement.now reading versions.now)) };
}

/// A list takes them along the versions.
impl RowSink for Vec<Edge> {
    fn take_walked(
        &mut self,
        statement: &Asked,
        reading: Reading,
        versions: &Versions,
    ) -> Result<(), NoMemory> {
        reading.add_edges(self, statement, versions)
    }
}

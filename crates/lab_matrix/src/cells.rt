//! The matrix: the judgement of each case on each engine.

ghost use Rattle.std.specs.Prelude.{◌≡◌};
ghost use Rattle.lab_matrix.specs.Matrix.{level_of, report_at, row_of, cell_of};

use crate::name::CaseName;
use lab_engine::Level;
use lab_judge::Report;

/// A column of the matrix: the engine of a level.
#[derive(Clone, Copy, Debug, PartialEq, Eq)]
pub enum Column {
    Locking,
    Committed,
    Snapshot,
}

impl Column {
    /// Returns the level of the column.
    pub fn level(self) -> Level
        ensures { result ≡ level_of self }
    {
        match self {
            Column::Locking => Level::Locking,
            Column::Committed => Level::Committed,
            Column::Snapshot => Level::Snapshot,
        }
    }
}

/// The judgements of one case, as each engine of the matrix plays it.
#[derive(Drop)]
pub struct Row {
    pub locking: Report,
    pub committed: Report,
    pub snapshot: Report,
}

/// The judgements of the ten cases.
#[derive(Drop)]
pub struct Matrix {
    pub g0: Row,
    pub g1a: Row,
    pub g1b: Row,
    pub g1c: Row,
    pub otv: Row,
    pub pmp: Row,
    pub p4: Row,
    pub g_single: Row,
    pub g2_item: Row,
    pub g2: Row,
}

impl Row {
    /// The report in a column.
    fn report(&self, column: Column) -> &Report
        ensures { result.now ≡ report_at self.now column }
    {
        match column {
            Column::Locking => &self.locking,
            Column::Committed => &self.committed,
            Column::Snapshot => &self.snapshot,
        }
    }
}

impl Matrix {
    /// The row of a case.
    fn row(&self, case: CaseName) -> &Row
        ensures { result.now ≡ row_of self.now case }
    {
        match case {
            CaseName::G0 => &self.g0,
            CaseName::G1a => &self.g1a,
            CaseName::G1b => &self.g1b,
            CaseName::G1c => &self.g1c,
            CaseName::Otv => &self.otv,
            CaseName::Pmp => &self.pmp,
            CaseName::P4 => &self.p4,
            CaseName::GSingle => &self.g_single,
            CaseName::G2Item => &self.g2_item,
            CaseName::G2 => &self.g2,
        }
    }

    /// Returns the judgement of a case in a column.
    pub fn cell(&self, case: CaseName, column: Column) -> &Report
        ensures { result.now ≡ cell_of self.now case column }
    {
        self.row(case).report(column)
    }
}

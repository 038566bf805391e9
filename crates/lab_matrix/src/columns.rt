//! Plays and judges the cases at given levels.

ghost use Rattle.std.specs.Prelude.{◌≡◌, ◌++◌, ◌∷◌, [], IfOk, IfErr, OnOk};
ghost use Rattle.lab_matrix.specs.Columns.{report_of, AreReports, KeepPromise, IsFirstAt, AreColumns, KeepPromises, IsColumnsFault};

use crate::filling::{MatrixFault, cell_at};
use crate::name::CaseName;
use lab_engine::Level;
use lab_judge::Report;
use lab_table::NoMemory;
use std::alloc::Global;

/// The judgements of the ten cases at a level.
#[derive(Drop)]
pub struct CaseReports {
    pub level: Level,
    pub g0: Report,
    pub g1a: Report,
    pub g1b: Report,
    pub g1c: Report,
    pub otv: Report,
    pub pmp: Report,
    pub p4: Report,
    pub g_single: Report,
    pub g2_item: Report,
    pub g2: Report,
}

impl CaseReports {
    /// Returns the judgement of a case.
    pub fn report(&self, case: CaseName) -> &Report
        ensures { result.now ≡ report_of self.now case }
    {
        match case {
            CaseName::G0 => &self.g0,
            CaseName::G1a => &self.g1a,
            CaseName::G1b => &self.g1b,
            CaseName::G1c => &self.g1c,
            CaseName::Otv => &self.otv,
            CaseName::Pmp => &self.pmp,
            CaseName::P4 => &self.p4,
            CaseName::GSingle => &self.g_single,
            CaseName::G2Item => &self.g2_item,
            CaseName::G2 => &self.g2,
        }
    }
}

/// The judgement of each case at a level: of the recording of a scripted play of the case's script. Each says what the engine
/// of the level promises.
///
/// Refused where a play has no recording (2), which is then true of the first such case; or where an allocation was
/// refused (1).
fn reports_at(alloc: Global, level: Level) -> Result<CaseReports, MatrixFault>
    ensures reports { IfOk result (AreReports level) }
    ensures promised { IfOk result (KeepPromise level) }
    ensures fault { IfErr result (IsFirstAt level) }
{
    Ok(CaseReports {
        level,
        g0: cell_at(alloc, CaseName::G0, level)?,
        g1a: cell_at(alloc, CaseName::G1a, level)?,
        g1b: cell_at(alloc, CaseName::G1b, level)?,
        g1c: cell_at(alloc, CaseName::G1c, level)?,
        otv: cell_at(alloc, CaseName::Otv, level)?,
        pmp: cell_at(alloc, CaseName::Pmp, level)?,
        p4: cell_at(alloc, CaseName::P4, level)?,
        g_single: cell_at(alloc, CaseName::GSingle, level)?,
        g2_item: cell_at(alloc, CaseName::G2Item, level)?,
        g2: cell_at(alloc, CaseName::G2, level)?,
    })
}

/// Adds a column.
fn add(columns: &mut Vec<CaseReports>, column: CaseReports) -> Result<(), NoMemory>
    ensures { OnOk result (columns.new.items ≡ columns.old.items ++ column ∷ []) }
{
    columns.push(column)?;
    Ok(())
}

/// Returns the judgements of the cases at each of these levels, in their order. Each judgement says what the engine of
/// its level promises. Fails with `Play` if a play has no recording: it names the first such level, and the first such
/// case there.
pub fn columns_at(alloc: Global, levels: &[Level]) -> Result<Vec<CaseReports>, MatrixFault>
    ensures columns { IfOk result (λ columns. AreColumns levels.now columns.items) }
    ensures promised { IfOk result (λ columns. KeepPromises columns.items) }
    ensures fault { IfErr result (IsColumnsFault levels.now) }
{
    let mut columns = Vec::with_capacity(alloc, levels.len())?;
    for level in levels {
        let reports = reports_at(alloc, *level)?;
        add(&mut columns, reports)?;
    }
    Ok(columns)
}

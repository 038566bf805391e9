//! Fills the matrix: plays each case on each engine, and judges it.

ghost use Rattle.std.specs.Prelude.{◌≡◌, [], IfOk, IfErr};
ghost use Rattle.lab_matrix.specs.Listings.{case_script};
ghost use Rattle.lab_matrix.specs.Matrix.{IsCell, IsRow, AreCells, KeepsPromises, IsCellFault, IsRowFault, IsMatrixFault};

use crate::cells::{Matrix, Row};
use crate::name::{CaseName, case};
use lab_engine::{Engine, Level};
use lab_judge::{Report, judge_recording};
use lab_levels::on_engine;
use lab_script::Script;
use lab_session::{PlayFault, play_script};
use std::alloc::{AllocError, Global};

/// Why there is no matrix.
#[derive(Clone, Copy, Debug, PartialEq, Eq)]
pub enum MatrixFault {
    /// An allocation failed.
    NoMemory,
    /// The play of this case at this level has no recording.
    Play {
        case: CaseName,
        level: Level,
        fault: PlayFault,
    },
}

impl From<AllocError> for MatrixFault {
    ghost use Rattle.std.specs.Prelude.{◌≡◌};
    ghost use Rattle.lab_matrix.specs.declared.filling.MatrixFault.TheVariants.{NoMemory};

    ghost from_gives = { λ _ fault. fault ≡ NoMemory };

    fn from(_: AllocError) -> MatrixFault {
        MatrixFault::NoMemory
    }
}

/// A case's script, played on an engine that has done nothing yet, and judged.
fn judged<E: Engine + Drop>(
    alloc: Global,
    name: CaseName,
    script: &Script,
    engine: E,
) -> Result<Report, MatrixFault>
    requires fresh { E.events engine ≡ [] }
    requires script { script.now ≡ case_script name }
    requires setup { E.opening engine ≡ script.now.setup }
    ensures cell { IfOk result (IsCell name (E.kind engine)) }
    ensures fault { IfErr result (IsCellFault name (E.kind engine)) }
{
    let level = engine.level();
    match play_script(alloc, engine, script) {
        Ok(recording) => Ok(judge_recording(alloc, &recording)?),
        Err(PlayFault::NoMemory) => Err(MatrixFault::NoMemory),
        Err(fault) => Err(MatrixFault::Play {
            case: name,
            level,
            fault,
        }),
    }
}

/// The judgement of a case at a level: of the recording of a scripted play of its script on the engine of the level.
pub fn cell_at(alloc: Global, name: CaseName, level: Level) -> Result<Report, MatrixFault>
    ensures cell { IfOk result (IsCell name level) }
    ensures fault { IfErr result (IsCellFault name level) }
{
    let script = case(alloc, name)?;
    let setup = script.setup.copy(alloc)?;
    on_engine!(
        level,
        alloc,
        setup,
        |engine| judged(alloc, name, &script, engine)
    )
}

fn row_of_case(alloc: Global, name: CaseName) -> Result<Row, MatrixFault>
    ensures row { IfOk result (IsRow name) }
    ensures fault { IfErr result (IsRowFault name) }
{
    Ok(Row {
        locking: cell_at(alloc, name, Level::Locking)?,
        committed: cell_at(alloc, name, Level::Committed)?,
        snapshot: cell_at(alloc, name, Level::Snapshot)?,
    })
}

/// Returns the judgement of each case on each engine: of the recording of a scripted play of the case's script at the
/// engine's level. Each judgement says what the engine of its level promises (`promise`). Fails with `Play` if a play
/// has no recording: it names the first such case, and the first such level for it.
pub fn matrix(alloc: Global) -> Result<Matrix, MatrixFault>
    ensures cells { IfOk result AreCells }
    ensures promised { IfOk result KeepsPromises }
    ensures fault { IfErr result IsMatrixFault }
{
    Ok(Matrix {
        g0: row_of_case(alloc, CaseName::G0)?,
        g1a: row_of_case(alloc, CaseName::G1a)?,
        g1b: row_of_case(alloc, CaseName::G1b)?,
        g1c: row_of_case(alloc, CaseName::G1c)?,
        otv: row_of_case(alloc, CaseName::Otv)?,
        pmp: row_of_case(alloc, CaseName::Pmp)?,
        p4: row_of_case(alloc, CaseName::P4)?,
        g_single: row_of_case(alloc, CaseName::GSingle)?,
        g2_item: row_of_case(alloc, CaseName::G2Item)?,
        g2: row_of_case(alloc, CaseName::G2)?,
    })
}

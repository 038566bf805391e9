//! What the engine of each level promises.

ghost use Rattle.std.specs.Prelude.{◌≡◌, ◌↔◌};
ghost use Rattle.lab_judge.specs.Promises.{IsPromised};
ghost use Rattle.lab_judge.specs.declared.report.Report.{Report};
ghost use Rattle.lab_matrix.specs.EnginePromise.{Says, promise_of};

use crate::engine_promise::Promise;
use lab_engine::Level;

/// Returns what the engine of a level promises: `Serializable` at locking and optimistic, `NoG1` at committed,
/// `SnapshotRun` at snapshot. A report says so exactly if it says what `judge_recording` is proved to say of every
/// recording of the level. Allocates nothing.
pub fn promise(level: Level) -> Promise
    ensures value { result ≡ promise_of level }
    ensures meaning { (report : Report) → Says result report ↔ IsPromised level report }
{
    match level {
        Level::Locking | Level::Optimistic => Promise::Serializable,
        Level::Committed => Promise::NoG1,
        Level::Snapshot => Promise::SnapshotRun,
    }
}

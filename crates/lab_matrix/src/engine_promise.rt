//! Promises of engines.

ghost use Rattle.std.specs.Prelude.{◌≡◌};
ghost use Rattle.lab_matrix.specs.EnginePromise.{promise_name};

/// A promise of an engine about each of its runs, scripted or free, for any script.
#[derive(Clone, Copy, Debug, PartialEq, Eq)]
pub enum Promise {
    /// The run is serializable.
    Serializable,
    /// The run has no G0, G1a, G1b or G1c.
    NoG1,
    /// The run is a snapshot run.
    SnapshotRun,
}

impl Promise {
    /// Returns the name of the promise in the matrix: `PL-3`, `PL-2` or `SI`.
    pub fn name(self) -> &'static str
        ensures { result.now ≡ promise_name self }
    {
        match self {
            Promise::Serializable => "PL-3",
            Promise::NoG1 => "PL-2",
            Promise::SnapshotRun => "SI",
        }
    }
}

//! An engine for tests that need any engine on which no statement waits.

pub use lab_versions::SnapshotEngine as QuietEngine;

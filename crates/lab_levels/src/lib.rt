//! The isolation levels: their names and their engines.
//!
//! [`level_name`] and [`level_named`] translate between levels and their names. [`on_engine!`] is the one place where a
//! level becomes an engine: it evaluates an expression with a fresh engine of a level.
#![tactic(auto)]

mod naming;

pub use lab_engine::Level;
pub use lab_locking::LockEngine;
pub use lab_optimistic::OptimisticEngine;
pub use lab_versions::{CommittedEngine, SnapshotEngine};
pub use naming::{LEVELS, level_name, level_named};

/// What an expression comes to, in which a name stands for a fresh engine of a level on a setup, as
/// `on_engine!(level, alloc, setup, |engine| play_script(alloc, engine, script))`. The setup is taken.
#[macro_export]
macro_rules! on_engine {
    ($level:expr, $alloc:expr, $setup:expr, |$engine:ident| $body:expr) => {
        match $level {
            $crate::Level::Locking => {
                let $engine = $crate::LockEngine::new($alloc, $setup);
                $body
            }
            $crate::Level::Committed => {
                let $engine = $crate::CommittedEngine::new($alloc, $setup);
                $body
            }
            $crate::Level::Snapshot => {
                let $engine = $crate::SnapshotEngine::new($alloc, $setup);
                $body
            }
            $crate::Level::Optimistic => {
                let $engine = $crate::OptimisticEngine::new($alloc, $setup);
                $body
            }
        }
    };
}

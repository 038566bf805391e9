//! Smaller histories that show the same anomaly.
//!
//! A history has a [`Goal`]: that it isn't serializable, that it isn't a snapshot run, a kind of fault, or a phenomenon.
//! [`shrink`] removes transactions, operations, rows and view entries, as long as the rest shows the goal, and returns a
//! part of the history from which nothing more can be removed. The proved judgement decides whether a part shows the
//! goal. Which parts are tried, and in which order, isn't promised. Functions that allocate return `NoMemory` if an
//! allocation fails.
#![tactic(auto)]

mod block;
mod cycle;
mod following;
mod gathering;
mod goal;
mod known;
mod laws;
mod lead;
mod leads;
mod measure;
mod named;
mod needs;
mod onward;
mod op_name;
mod pass;
mod shrinking;
mod sieve;
mod standing;
mod states;
mod touch;
mod trial;
mod ways_round;
mod window;
mod work;

pub use goal::{FaultKind, Goal};
pub use laws::{judgement_shows_its_goal, sound_stays_sound, what_is_shown_is_so};
pub use shrinking::{Shrunk, Watcher, shrink};

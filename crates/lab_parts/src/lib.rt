//! Theorems on runs that were recorded in parts, and the history that the parts form together.
//!
//! A run is its first part and the later parts, each a history. `whole` defines the history of the run: the
//! transactions of all parts, renumbered, over the initial table of the first part, with the versions that each
//! statement saw. The theorems are contracts of empty functions: if each part has a yes, so does the run; and a run of
//! sound parts has the cycles that its parts have.
#![tactic(auto)]

mod laws;

pub use laws::{
    cycles_are_those_of_parts, dependencies_lead_forward, level_is_the_lowest_of_parts,
    orders_are_one_order, parts_are_sound_together, parts_show_what_the_whole_shows,
    spans_are_one_placing,
};

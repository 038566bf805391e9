//! Reports for programs and pipelines: JSON, phenomena by name, and requirements.
//!
//! [`Phenomenon`] names a phenomenon of a report. [`Violation`] is a phenomenon, or that the history isn't a snapshot
//! run. [`Requirement`] is what a pipeline requires of a report, and [`put_shortfall`] says why the report doesn't meet
//! it. [`print_report_json`] prints a report as one line of JSON; [`print_refusal_json`] and [`print_unreadable_json`]
//! print why there is none.
//!
//! `tree_of` defines the JSON value of a report, and parsing the line gives that value. What a judgement meets is true
//! of its history. Functions that allocate return `NoMemory` if an allocation fails.
#![tactic(auto)]

mod laws;
mod line;
mod parts_json;
mod phenomenon;
mod refusal_json;
mod report_json;
mod requirement;
mod rows;
mod shortfall;
mod to_json;
mod violation;

pub use laws::{met_requirements_are_kept, unmet_levels_are_not};
pub use line::print_line;
pub use phenomenon::{PHENOMENA, Phenomenon};
pub use refusal_json::{print_refusal_json, print_unreadable_json};
pub use report_json::print_report_json;
pub use requirement::{REQUIREMENTS, Requirement};
pub use rows::rows_json;
pub use shortfall::put_shortfall;
pub use violation::Violation;

//! What arguments ask of a report.

use clap::ArgMatches;
use lab_reports::Requirement;
use lab_streams::{Format, Wanted};

/// How a report is to be written, and what is required of it.
pub fn wanted(matches: &ArgMatches<'_>) -> Wanted {
    Wanted {
        format: if matches.get_flag("json") {
            Format::Json
        } else {
            Format::Lines
        },
        requirement: matches.get_str("require").and_then(Requirement::named),
    }
}

//! Options of `chain`.

use lab_reports::Requirement;
use lab_streams::Format;

/// The output format of `chain`, the requirement on the run, the number of parts that it must have, and whether the
/// reports of its parts are written too.
#[derive(Clone, Copy, Debug, PartialEq, Eq)]
pub struct Asked {
    pub format: Format,
    pub requirement: Option<Requirement>,
    pub parts: Option<u64>,
    pub reports: bool,
}

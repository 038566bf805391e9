//! What a history must show.

ghost use Rattle.std.specs.Prelude.{◌≡◌, ◌↔◌, IsTrue};
ghost use Rattle.lab_reports.specs.Shortfall.{is_present};
ghost use Rattle.lab_shrink.specs.Goals.{kind_of, is_of_sound, goal_of, verdict_goal, snapshot_goal, violation_goal, IsFaultOf, IsShownBy};

use lab_deps::{FaultParts, LocalFault, OpFault, RowFault};
use lab_judge::{Finding, Places, Report, Serial};
use lab_reports::{Phenomenon, Violation};

/// A kind of fault: at an operation and a row, or at a row.
#[derive(Clone, Copy, Debug, PartialEq, Eq)]
pub enum FaultKind {
    Operation(OpFault),
    Row(RowFault),
}

/// What a history must show.
#[derive(Clone, Copy, Debug, PartialEq, Eq)]
pub enum Goal {
    /// The history is sound, and no order of its transactions is a serial run.
    NoOrder,
    /// The first fault of the history is of this kind.
    Fault(FaultKind),
    /// The history has the phenomenon, and is sound if `in_sound` is set.
    Present {
        phenomenon: Phenomenon,
        in_sound: bool,
    },
    /// The history is sound, and no start and commit timestamps of its transactions make it a snapshot run.
    NoTimestamps,
}

impl FaultKind {
    /// Returns the kind of a fault.
    pub fn of(fault: LocalFault) -> FaultKind
        ensures { result ≡ kind_of fault }
    {
        match fault.parts() {
            FaultParts::Operation { kind, .. } => FaultKind::Operation(kind),
            FaultParts::Row { kind, .. } => FaultKind::Row(kind),
        }
    }

    /// Whether a verdict is a no by a fault of this kind.
    fn is_of(self, serial: &Serial) -> bool
        ensures { IsTrue result ↔ IsFaultOf self serial.now }
    {
        match serial {
            Serial::NoFault(fault) => FaultKind::of(*fault) == self,
            Serial::Yes(_) | Serial::NoCycle(_) => false,
        }
    }
}

/// Whether a verdict is one of a sound history.
fn is_of_sound(serial: &Serial) -> bool
    ensures { result ≡ is_of_sound serial.now }
{
    matches!(serial, Serial::Yes(_) | Serial::NoCycle(_))
}

/// Whether a phenomenon was found.
fn is_present(finding: &Finding) -> bool
    ensures { result ≡ is_present finding.now }
{
    matches!(finding, Finding::Walk(_) | Finding::At { .. })
}

/// What the no of a verdict shows.
fn verdict_goal(serial: &Serial) -> Option<Goal>
    ensures { result ≡ verdict_goal serial.now }
{
    match serial {
        Serial::Yes(_) => None,
        Serial::NoFault(fault) => Some(Goal::Fault(FaultKind::of(*fault))),
        Serial::NoCycle(_) => Some(Goal::NoOrder),
    }
}

/// What the no of a snapshot verdict shows.
fn snapshot_goal(places: &Places) -> Option<Goal>
    ensures { result ≡ snapshot_goal places.now }
{
    match places {
        Places::Yes(_) => None,
        Places::NoFault(fault) => Some(Goal::Fault(FaultKind::of(*fault))),
        Places::NoCycle(_) => Some(Goal::NoTimestamps),
    }
}

/// What a report shows of a violation.
fn violation_goal(report: &Report, violation: Violation) -> Option<Goal>
    ensures { result ≡ violation_goal report.now violation }
{
    let Violation::Phenomenon(phenomenon) = violation else {
        return snapshot_goal(&report.snapshot);
    };
    if is_present(phenomenon.found_in(report)) {
        Some(Goal::Present {
            phenomenon,
            in_sound: is_of_sound(&report.serial),
        })
    } else {
        None
    }
}

impl Goal {
    /// Returns what a report shows: the no of its serial verdict, by a cycle or by the kind of a fault, or the violation
    /// that is asked for. That is a phenomenon, or the no of the snapshot verdict, by a cycle or by the kind of a fault.
    /// Returns `None` if the verdict is yes, or the phenomenon is absent.
    pub fn of(report: &Report, asked: Option<Violation>) -> Option<Goal>
        ensures { result ≡ goal_of report.now asked }
    {
        match asked {
            None => verdict_goal(&report.serial),
            Some(violation) => violation_goal(report, violation),
        }
    }

    /// Returns whether a report shows the goal.
    pub fn is_shown_by(self, report: &Report) -> bool
        ensures { IsTrue result ↔ IsShownBy self report.now }
    {
        match self {
            Goal::NoOrder => matches!(report.serial, Serial::NoCycle(_)),
            Goal::Fault(kind) => kind.is_of(&report.serial),
            Goal::Present {
                phenomenon,
                in_sound,
            } => {
                is_present(phenomenon.found_in(report))
                    && (!in_sound || is_of_sound(&report.serial))
            }
            Goal::NoTimestamps => matches!(report.snapshot, Places::NoCycle(_)),
        }
    }
}

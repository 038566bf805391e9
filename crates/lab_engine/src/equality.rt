//! Equality of outcomes.

ghost use Rattle.std.specs.Prelude.{◌≡◌, ◌↔◌, IsTrue};

use crate::event::{EngineFault, Outcome, Sessions};
use lab_table::Session;

impl Outcome {
    ghost use Rattle.std.specs.Prelude.{◌≡◌, ◌↔◌, IsTrue};

    /// Returns whether both outcomes are equal.
    pub fn equals(&self, other: &Outcome) -> bool
        ensures { IsTrue result ↔ (self.now ≡ other.now) }
    {
        match self {
            Outcome::Begun(number) => match other {
                Outcome::Begun(begun) => *number == *begun,
                _ => false,
            },
            Outcome::Rows { view, rows, writes } => match other {
                Outcome::Rows {
                    view: other_view,
                    rows: other_rows,
                    writes: other_writes,
                } => {
                    view.equals(other_view)
                        && rows.equals(other_rows)
                        && writes.equals(other_writes)
                }
                _ => false,
            },
            Outcome::Committed => matches!(other, Outcome::Committed),
            Outcome::Aborted => matches!(other, Outcome::Aborted),
            Outcome::Waits { on } => match other {
                Outcome::Waits { on: other_on } => same_orders(on, other_on),
                _ => false,
            },
            Outcome::Refused(fault) => match other {
                Outcome::Refused(refused) => same_faults(fault, refused),
                _ => false,
            },
        }
    }
}

fn same_faults(a: &EngineFault, b: &EngineFault) -> bool
    ensures { IsTrue result ↔ (a.now ≡ b.now) }
{
    match a {
        EngineFault::DuplicateKey { id } => match b {
            EngineFault::DuplicateKey { id: other } => *id == *other,
            _ => false,
        },
        EngineFault::OutOfRange { id } => match b {
            EngineFault::OutOfRange { id: other } => *id == *other,
            _ => false,
        },
        EngineFault::Deadlock { circle } => match b {
            EngineFault::Deadlock { circle: other } => same_orders(circle, other),
            _ => false,
        },
        EngineFault::WriteConflict { row, by } => match b {
            EngineFault::WriteConflict {
                row: other_row,
                by: other_by,
            } => *row == *other_row && *by == *other_by,
            _ => false,
        },
        EngineFault::NoTransaction => matches!(b, EngineFault::NoTransaction),
        EngineFault::AlreadyBegun => matches!(b, EngineFault::AlreadyBegun),
        EngineFault::Busy => matches!(b, EngineFault::Busy),
        EngineFault::ReadConflict { row, by } => match b {
            EngineFault::ReadConflict {
                row: other_row,
                by: other_by,
            } => *row == *other_row && *by == *other_by,
            _ => false,
        },
    }
}

fn same_orders(a: &Sessions, b: &Sessions) -> bool
    ensures { IsTrue result ↔ (a.now ≡ b.now) }
{
    same_sessions(a.as_slice(), b.as_slice())
}

fn same_sessions(a: &[Session], b: &[Session]) -> bool
    ensures { IsTrue result ↔ (a.now ≡ b.now) }
{
    a == b
}

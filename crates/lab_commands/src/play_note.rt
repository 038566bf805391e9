//! Writes hints on a play to standard error.

use lab_hints::{limit_rule, note_rule};
use lab_session::{CloseFault, PlayFault};
use lab_table::Session;
use std::alloc::Global;
use std::io::Write;

/// The session that a fault is about, if it is about one.
fn session_of(fault: &PlayFault) -> Option<Session> {
    match fault {
        PlayFault::Close {
            fault: CloseFault::SeatMissing { session }
            | CloseFault::SeatRepeated { session }
            | CloseFault::ReceiptDiffers { session, .. },
        } => Some(*session),
        _ => None,
    }
}

/// The rule that a run which wasn't closed, or its session, didn't keep; None if memory runs out.
fn rule_of_close(fault: &CloseFault) -> Option<&'static str> {
    match fault {
        CloseFault::NoMemory => None,
        CloseFault::OverLimit { which } => Some(limit_rule(*which)),
        CloseFault::SeatMissing { .. } => Some("it has no seat"),
        CloseFault::SeatRepeated { .. } => Some("it has two seats"),
        CloseFault::ReceiptDiffers { .. } => Some("what it was answered isn't what the log says"),
    }
}

/// The rule that a play which has no recording for this reason didn't keep; None if memory runs out.
fn rule_of(fault: &PlayFault) -> Option<&'static str> {
    match fault {
        PlayFault::NoMemory => None,
        PlayFault::OverLimit { which } => Some(limit_rule(*which)),
        PlayFault::Close { fault } => rule_of_close(fault),
        PlayFault::NoThread => Some("a thread for a session couldn't be made"),
        PlayFault::Full => Some("a log has at most 100,000 events"),
    }
}

/// Writes a hint on a play after its output: on its fault if it has one, else on the fault of its script or of its
/// history's file, or that no transaction begins in it. Writes nothing if memory runs out. The texts aren't promised.
pub fn note_play<N: Write>(
    alloc: Global,
    input: &[u8],
    is_refused: bool,
    fault: Option<PlayFault>,
    notes: &mut N,
) {
    match fault {
        None => lab_hints::note_play(alloc, input, is_refused, notes),
        Some(fault) => {
            if let Some(rule) = rule_of(&fault) {
                note_rule(alloc, session_of(&fault), rule, notes);
            }
        }
    }
}

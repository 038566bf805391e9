//! What a client or a cut, and not the recorder, may have done where a record has a fault. The texts aren't promised.

use lab_deps::{FaultParts, OpFault, RowFault};
use lab_judge::{Report, Serial};

const DANGLING: &[u8] =
    b"or the client kept names of versions beyond a cut, or the run was cut while a transaction was open, or at read \
uncommitted a statement saw what another one wrote before it failed\n";

const ABORTED_READ: &[u8] =
    b"or the client ran a statement on another connection than its transaction, which was rolled back\n";

const ROWS_DIFFER: &[u8] =
    b"or a session runs at another level than its recorder expects, or the run was cut while a transaction was open\n";

const END_DIFFERS: &[u8] =
    b"or the client ran a statement on another connection than its transaction, which was rolled back, or the run was cut \
while a transaction was open\n";

/// What a client or a cut may have done where this fault is; empty if it is the recorder's alone.
fn client_mistake(fault: FaultParts) -> &'static [u8] {
    match fault {
        FaultParts::Operation { kind, .. } => match kind {
            OpFault::Dangling => DANGLING,
            OpFault::AbortedRead => ABORTED_READ,
            OpFault::RowsDiffer => ROWS_DIFFER,
            OpFault::IntermediateRead
            | OpFault::OwnWriteMissed
            | OpFault::LaterThanOwn
            | OpFault::WritesDiffer => b"",
        },
        FaultParts::Row { kind, .. } => match kind {
            RowFault::EndDiffers => END_DIFFERS,
            RowFault::InstallOrder => b"",
        },
    }
}

/// What a client or a cut may have done where a report has a fault; empty if there is none, or if it is the recorder's
/// alone.
pub fn client_mistake_in(report: &Report) -> &'static [u8] {
    match &report.serial {
        Serial::NoFault(fault) => client_mistake(fault.parts()),
        Serial::Yes(_) | Serial::NoCycle(_) => b"",
    }
}

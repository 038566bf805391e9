//! What standard error is told where a run has no answer.

ghost use Rattle.std.specs.Prelude.{◌≡◌};
ghost use Rattle.lab_streams.specs.Status.{fault_status};

use lab_streams::{RunFault, status};

/// Says in one line on standard error why a run didn't write its text, and answers the exit status. Where that line
/// can't be written either, the status alone tells it.
pub fn told(rt: &HostRuntime, fault: RunFault) -> u8
    ensures { result ≡ fault_status fault }
{
    let line = match fault {
        RunFault::NoMemory => "hermitage_lab: out of memory",
        RunFault::Unread => "hermitage_lab: a read failed",
        RunFault::Unwritten => "hermitage_lab: a write failed",
    };
    let _ = rt.eprintln(line);
    status(Err(fault))
}

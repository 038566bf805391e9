//! Prints why a play has no recording.

ghost use Rattle.std.specs.Prelude.{◌≡◌, IfOk};
ghost use Rattle.lab_session.specs.PlayFaultText.{play_fault_text};

use crate::fault::PlayFault;
use lab_table::NoMemory;
use std::alloc::Global;

/// Returns the line that reports a fault, such as `play: OverLimit entries` and a newline. For `NoMemory` the text is
/// empty.
pub fn print_play_fault(alloc: Global, fault: &PlayFault) -> Result<Vec<u8>, NoMemory>
    ensures { IfOk result (λ text. text.items ≡ play_fault_text fault.now) }
{
    let mut text = Vec::new(alloc);
    match fault {
        PlayFault::NoMemory => return Ok(text),
        PlayFault::OverLimit { which } => {
            text.extend_from_slice(b"play: OverLimit ")?;
            text.extend_from_slice(which.name().as_bytes())?;
        }
        PlayFault::Close { .. } => text.extend_from_slice(b"play: Close")?,
        PlayFault::NoThread => text.extend_from_slice(b"play: NoThread")?,
        PlayFault::Full => text.extend_from_slice(b"play: Full")?,
    }
    text.push(b'\n')?;
    Ok(text)
}

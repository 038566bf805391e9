//! Writes a text.

ghost use Rattle.std.specs.Prelude.{◌≡◌, IfErr, OnOk};
ghost use Rattle.std.specs.Io.KnownBytes.{Appends};

use crate::ending::{Ending, RunFault};
use std::io::Write;

/// The output of a run, and how the run ends once that is written.
#[derive(Debug, Drop)]
pub struct Answer {
    pub text: Vec<u8>,
    pub ending: Ending,
}

/// Writes the whole text and flushes the writer. Fails with `Unwritten` if either fails.
pub fn write_text<W: Write>(writer: &mut W, text: &[u8]) -> Result<(), RunFault>
    ensures written { OnOk result (Appends (W.contents writer.old) (W.contents writer.new) text.now) }
    ensures fault { IfErr result (λ fault. fault ≡ RunFault.Unwritten) }
{
    if writer.write_all(text).is_err() || writer.flush().is_err() {
        return Err(RunFault::Unwritten);
    }
    Ok(())
}

/// Writes `text` to `notes` unless it is empty. Ignores write errors.
pub fn note_text<N: Write>(text: &[u8], notes: &mut N) {
    if !text.is_empty() {
        let _ = write_text(notes, text);
    }
}

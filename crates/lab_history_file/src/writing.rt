//! Writes history files.

mod entries;
mod json_text;
mod operations;

ghost use Rattle.std.specs.Prelude.{◌≡◌, ◌++◌, ◌≤◌, ◌<◌, length, Some, Ok, Err, IfOk, OnOk, IsUtf8};
ghost use Rattle.serde_json.specs.Read.{read as read_text};
ghost use Rattle.serde_json.specs.Written.{compact_text};
ghost use Rattle.lab_history_file.specs.FileOf.{IsFileIn};
ghost use Rattle.lab_history_file.specs.Format.{history_in};
ghost use Rattle.lab_history.specs.HistoryRules.{Keeps};
ghost use Rattle.lab_history.specs.Limits.{max_file_bytes};
ghost use Rattle.lab_history_file.specs.Tree.{tree_of};
ghost use Rattle.lab_history_file.specs.declared.file_version.FileVersion.TheVariants.{Two};

use crate::write_fault::WriteFault;
use crate::writing::entries::{put_installed, put_table};
use crate::writing::json_text::put_list;
use lab_history::{History, MAX_FILE_BYTES, Parts};
use lab_table::NoMemory;
use std::alloc::Global;

/// Appends the text of a history. After NoMemory, part of it may stand there.
fn put_parts(out: &mut Vec<u8>, parts: &Parts) -> Result<(), NoMemory>
    requires { Keeps parts.now }
    ensures text { OnOk result (out.new.items ≡ out.old.items ++ compact_text (tree_of parts.now)) }
    ensures file { OnOk result (IsFileIn Two (tree_of parts.now) parts.now) }
{
    out.extend_from_slice(b"{\"end\":")?;
    put_table(out, &parts.end_table)?;
    out.extend_from_slice(b",\"format\":\"hermitage-history\",\"initial\":")?;
    put_table(out, &parts.initial)?;
    out.extend_from_slice(b",\"installed\":")?;
    put_installed(out, &parts.installed)?;
    out.extend_from_slice(b",\"transactions\":")?;
    put_list(out, parts.txns.as_slice())?;
    out.extend_from_slice(b",\"version\":2}")?;
    Ok(())
}

/// Returns the file of a history, of version 2: compact JSON, with the keys of each object in the order of their bytes,
/// without a newline. Fails with `TooLong` if the text would have more than `MAX_FILE_BYTES`.
#[tactic(auto, using(crate::proofs::FileIsRead::file_is_read))]
pub fn write_history(alloc: Global, history: &History) -> Result<Vec<u8>, WriteFault>
    ensures text { IfOk result (λ text. text.items ≡ compact_text (tree_of history.now)) }
    ensures utf8 { IfOk result (λ text. IsUtf8 text.items) }
    // The text, read as JSON, is the value of the history's file.
    ensures value { IfOk result (λ text. read_text text.items ≡ Some (tree_of history.now)) }
    // That value is a file of the history, of version 2.
    ensures file { OnOk result (IsFileIn Two (tree_of history.now) history.now) }
    // It is read as the same history again.
    ensures again { OnOk result (history_in (tree_of history.now) ≡ Ok history.now) }
    ensures within { IfOk result (λ text. length text.items ≤ max_file_bytes) }
    ensures too_long { result ≡ Err WriteFault.TooLong → max_file_bytes < length (compact_text (tree_of history.now)) }
{
    let mut text = Vec::new(alloc);
    put_parts(&mut text, history.parts())?;
    if text.len() > MAX_FILE_BYTES {
        return Err(WriteFault::TooLong);
    }
    Ok(text)
}

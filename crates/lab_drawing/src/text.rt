//! Numbers, states and other short texts of drawings. Functions that take bytes append; on failure, a part of the text
//! may have been appended.

ghost use Rattle.std.specs.Prelude.{◌≡◌, ◌++◌, OnOk};
ghost use Rattle.std.specs.Fmt.{decimal};
ghost use Rattle.lab_history.specs.Version.{outcome_of};
ghost use Rattle.lab_drawing.specs.Text.{escaped, state_text, outcome_name};

use itoa::Buffer;
use lab_history::{History, Outcome};
use lab_table::{NoMemory, TxnNo, Value};

/// Appends a number in decimal.
pub fn put_number(out: &mut Vec<u8>, number: u64) -> Result<(), NoMemory>
    ensures { OnOk result (out.new.items ≡ out.old.items ++ decimal number) }
{
    out.extend_from_slice(Buffer::new().format(number).as_bytes())
}

/// Appends the state of a row; `None` is absent.
pub fn put_state(out: &mut Vec<u8>, state: Option<Value>) -> Result<(), NoMemory>
    ensures { OnOk result (out.new.items ≡ out.old.items ++ state_text state) }
{
    match state {
        None => out.extend_from_slice(b"absent"),
        Some(value) => out.extend_from_slice(Buffer::new().format(value.number()).as_bytes()),
    }
}

/// Returns how a transaction ended.
pub fn outcome_name(history: &History, txn: TxnNo) -> &'static str
    ensures { result.now ≡ outcome_name (outcome_of history.now txn) }
{
    match history.txn(txn) {
        None => "isn't there",
        Some(found) => match found.outcome {
            Outcome::Committed => "committed",
            Outcome::Aborted => "aborted",
        },
    }
}

/// Appends a text, with markup escaped.
pub fn put_escaped(out: &mut Vec<u8>, text: &[u8]) -> Result<(), NoMemory>
    ensures { OnOk result (out.new.items ≡ out.old.items ++ escaped text.now) }
{
    for byte in text {
        let byte = *byte;
        if byte == b'<' {
            out.extend_from_slice(b"&lt;")?;
        } else if byte == b'>' {
            out.extend_from_slice(b"&gt;")?;
        } else if byte == b'&' {
            out.extend_from_slice(b"&amp;")?;
        } else if byte == b'"' {
            out.extend_from_slice(b"&quot;")?;
        } else {
            out.push(byte)?;
        }
    }
    Ok(())
}

//! Names and reasons in messages to people.

ghost use Rattle.std.specs.Prelude.{◌≡◌, ◌++◌, OnOk};
ghost use Rattle.lab_chain.specs.Chain as spec;

use lab_table::NoMemory;

/// The most bytes of a name or of a reason that are shown.
const MAX_SHOWN: usize = 200;

/// The byte itself if it is printable ASCII, else `?`, so that no input controls a terminal.
fn shown_byte(byte: u8) -> u8
    ensures { result ≡ spec.shown_byte byte }
{
    if 32 <= byte && byte <= 126 {
        byte
    } else {
        b'?'
    }
}

/// Appends a text with `?` for each byte that isn't printable ASCII.
fn put_shown(out: &mut Vec<u8>, text: &[u8]) -> Result<(), NoMemory>
    ensures { OnOk result (out.new.items ≡ out.old.items ++ spec.shown text.now) }
{
    for byte in text {
        out.push(shown_byte(*byte))?;
    }
    Ok(())
}

/// Appends up to [`MAX_SHOWN`] bytes of a text, and these dots if it has more.
fn put_cut(out: &mut Vec<u8>, dots: &[u8], text: &[u8]) -> Result<(), NoMemory>
    ensures { OnOk result (out.new.items ≡ out.old.items ++ spec.cut_text dots.now text.now) }
{
    if MAX_SHOWN < text.len() {
        let front = &text[..MAX_SHOWN];
        put_shown(out, front)?;
        out.extend_from_slice(dots)
    } else {
        put_shown(out, text)
    }
}

/// Appends the name of a part, up to [`MAX_SHOWN`] bytes of it, with `?` for each byte that isn't printable ASCII. On
/// failure, a part of it may have been appended.
pub fn put_name(out: &mut Vec<u8>, name: &[u8]) -> Result<(), NoMemory>
    ensures { OnOk result (out.new.items ≡ out.old.items ++ spec.shown_name name.now) }
{
    put_cut(out, b"..", name)
}

/// Appends a reason, up to [`MAX_SHOWN`] bytes of it.
pub fn put_reason(out: &mut Vec<u8>, reason: &[u8]) -> Result<(), NoMemory>
    ensures { OnOk result (out.new.items ≡ out.old.items ++ spec.cut_reason reason.now) }
{
    put_cut(out, b" ..", reason)
}

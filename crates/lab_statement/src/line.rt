//! The code and the comment of a line.

ghost use Rattle.std.specs.Prelude.{◌≡◌};
ghost use Rattle.std.specs.List.{list_all};
ghost use Rattle.lab_statement.specs.Text.{code_of, remark_of, is_code_byte};

use bstr::ByteSlice;

/// Returns the code of a line, and the comment after the first two dashes. The comment is empty if there are no dashes.
pub fn code_and_remark(line: &[u8]) -> (&[u8], &[u8])
    ensures code { result.0.now ≡ code_of line.now }
    ensures remark { result.1.now ≡ remark_of line.now }
{
    match line.find(b"--") {
        None => (line, &[]),
        Some(place) => (&line[..place], &line[place + 2..]),
    }
}

/// A tab or a byte that is printed.
fn is_code_byte(byte: u8) -> bool
    ensures { result ≡ is_code_byte byte }
{
    byte == b'\t' || (b' ' <= byte && byte <= b'~')
}

/// Returns whether all bytes are tabs or printable ASCII.
pub fn is_ascii_code(code: &[u8]) -> bool
    ensures { result ≡ list_all is_code_byte code.now }
{
    // Without an end at the first that isn't, many bytes are looked at side by side.
    let mut all = true;
    for byte in code {
        all &= is_code_byte(*byte);
    }
    all
}

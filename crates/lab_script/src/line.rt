//! The session that the remark of a script's line names.

ghost use Rattle.std.specs.Prelude.{◌≡◌};
ghost use Rattle.lab_script.specs.Script.{ends_word, session_digit, session_of};

use lab_statement::blanks_len;
use lab_table::Session;

/// Whether a word ends here.
fn ends_word(bytes: &[u8]) -> bool
    ensures { result ≡ ends_word bytes.now }
{
    match bytes.first() {
        None => true,
        Some(byte) => !(byte.is_ascii_alphanumeric() || *byte == b'_'),
    }
}

/// The session whose digit, from 1 to 9, is a word's last byte.
fn session_digit(bytes: &[u8]) -> Option<Session>
    ensures { result ≡ session_digit bytes.now }
{
    match bytes.split_first() {
        None => None,
        Some((digit, rest)) => {
            if b'1' <= *digit && *digit <= b'9' && ends_word(rest) {
                Session::new(*digit - b'0')
            } else {
                None
            }
        }
    }
}

/// The session that a remark begins with: blanks, a `T` in either case, and its digit.
pub fn session_of(remark: &[u8]) -> Option<Session>
    ensures { result ≡ session_of remark.now }
{
    let (_, word) = remark.split_at(blanks_len(remark));
    match word.split_first() {
        None => None,
        Some((first, rest)) => {
            if first.to_ascii_lowercase() == b't' {
                session_digit(rest)
            } else {
                None
            }
        }
    }
}

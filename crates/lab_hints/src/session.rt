//! The sessions that remarks name.

use lab_table::Session;

/// Bytes that mark a remark here or elsewhere.
const MARKS: &[u8] = b"#/*- \t";

/// What is said of a line that names no session.
pub const SESSION_RULE: &str =
    "behind its statements a line names its session, as '-- T1', from T1 to T9";

/// The session that a text begins with, whichever marks of a remark stand before it, as in `-- T1`, `# T1` or `T1:`.
pub fn session_in(text: &[u8]) -> Option<Session> {
    let marks = text.iter().take_while(|byte| MARKS.contains(*byte)).count();
    let (_, word) = text.split_at(marks.min(text.len()));
    match word {
        [letter, digit, rest @ ..] if letter.to_ascii_lowercase() == b't' && ends_word(rest) => {
            Session::new(digit.wrapping_sub(b'0'))
        }
        _ => None,
    }
}

fn ends_word(bytes: &[u8]) -> bool {
    match bytes.first() {
        None => true,
        Some(byte) => !(byte.is_ascii_alphanumeric() || *byte == b'_'),
    }
}

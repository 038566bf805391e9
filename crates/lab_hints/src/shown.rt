//! Texts without the characters that control a terminal.

ghost use Rattle.std.specs.Prelude.{◌≡◌, ◌++◌, OnOk, IfOk};
ghost use Rattle.std.specs.String.{string_bytes};
ghost use Rattle.lab_hints.specs.Shown.{is_shown, shown_bytes, shown_text};

use lab_table::NoMemory;
use std::alloc::Global;

/// Whether a terminal shows a character as it is: it is no control character, and doesn't change the direction or the
/// place of others.
pub fn is_shown(sign: char) -> bool
    ensures { result ≡ is_shown sign }
{
    !sign.is_control()
        && !matches!(
            sign,
            '\u{200B}'..='\u{200F}' | '\u{2028}'..='\u{202E}' | '\u{2060}'..='\u{206F}' | '\u{FEFF}'
        )
}

/// Appends a character, or `instead` if a terminal doesn't show the character as it is.
fn push_shown(shown: &mut String, sign: char, instead: char) -> Result<(), NoMemory>
    ensures { OnOk result (string_bytes shown.new ≡ string_bytes shown.old ++ shown_bytes instead sign) }
{
    if is_shown(sign) {
        shown.push(sign)
    } else {
        shown.push(instead)
    }
}

/// Returns a text with `instead` in place of each character that a terminal doesn't show as it is.
pub fn shown_text(alloc: Global, text: &str, instead: char) -> Result<String, NoMemory>
    ensures { IfOk result (λ shown. string_bytes shown ≡ shown_text instead text.now) }
{
    let mut shown = String::with_capacity(alloc, text.len())?;
    for sign in text.chars() {
        push_shown(&mut shown, sign, instead)?;
    }
    Ok(shown)
}

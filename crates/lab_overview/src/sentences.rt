//! Sentences with markup. Functions that take bytes append; on failure, a part of the text may have been appended.

ghost use Rattle.std.specs.Prelude.{◌≡◌, ◌++◌, ◌≤◌, length, OnOk};
ghost use Rattle.lab_overview.specs.Sentences.{lead_length, led_text, paragraph_text};

use lab_drawing::put_escaped;
use lab_table::NoMemory;

/// How many bytes of a sentence stand before its first colon.
fn lead_length(text: &[u8]) -> usize
    ensures value { result ≡ lead_length text.now }
    ensures within { result ≤ length text.now }
{
    text.iter().take_while(|byte| **byte != b':').count()
}

/// Appends a sentence, with the words before its first colon in bold.
#[tactic(auto, unfolding(crate::specs::Sentences::led_text))]
pub fn put_led(out: &mut Vec<u8>, text: &[u8]) -> Result<(), NoMemory>
    ensures { OnOk result (out.new.items ≡ out.old.items ++ led_text text.now) }
{
    let (lead, rest) = text.split_at(lead_length(text));
    out.extend_from_slice(b"<b>")?;
    put_escaped(out, lead)?;
    out.extend_from_slice(b"</b>")?;
    put_escaped(out, rest)
}

/// Appends a sentence as a paragraph.
#[tactic(auto, unfolding(crate::specs::Sentences::paragraph_text))]
pub fn put_paragraph(out: &mut Vec<u8>, text: &[u8]) -> Result<(), NoMemory>
    ensures { OnOk result (out.new.items ≡ out.old.items ++ paragraph_text text.now) }
{
    out.extend_from_slice(b"<p>")?;
    put_escaped(out, text)?;
    out.extend_from_slice(b"</p>\n")
}

//! What the arrows and a thick edge say, above the columns of a picture.

ghost use Rattle.std.specs.Prelude.{◌≡◌, ◌++◌, OnOk};
ghost use Rattle.lab_picture.specs.Heading.{sample_end, sample_path, sample_text, key_words, key_dashed, key_text, marked_text};

use crate::keys::{Key, has_key};
use crate::route::put_style;
use crate::text::{put_pixels, put_text};
use lab_drawing::{Drawing, Spot};
use lab_table::NoMemory;

/// Appends the end of an arrow as it is drawn.
#[tactic(auto, unfolding(crate::specs::Heading::sample_end))]
fn put_sample_end(out: &mut Vec<u8>, y: u128, dashed: bool) -> Result<(), NoMemory>
    ensures { OnOk result (out.new.items ≡ out.old.items ++ sample_end y dashed) }
{
    put_pixels(out, y.saturating_sub(4))?;
    out.extend_from_slice(b" H58")?;
    put_style(out, false, dashed)
}

/// Appends an arrow as it is drawn.
fn put_sample_path(out: &mut Vec<u8>, y: u128, dashed: bool) -> Result<(), NoMemory>
    ensures { OnOk result (out.new.items ≡ out.old.items ++ sample_path y dashed) }
{
    out.extend_from_slice(b"<path d=\"M26 ")?;
    put_sample_end(out, y, dashed)
}

/// Appends an arrow as it is drawn, and what it says.
#[tactic(auto, unfolding(crate::specs::Heading::sample_text))]
fn put_sample(out: &mut Vec<u8>, y: u128, dashed: bool, says: &[u8]) -> Result<(), NoMemory>
    ensures { OnOk result (out.new.items ≡ out.old.items ++ sample_text y dashed says.now) }
{
    put_sample_path(out, y, dashed)?;
    put_text(out, b"", 66, y, says)
}

/// What a key says.
fn key_words(key: Key) -> &'static [u8]
    ensures { result.now ≡ key_words key }
{
    match key {
        Key::Solid => b"dependency: the second saw or overwrote what the first wrote",
        Key::Dashed => b"anti-dependency: the first didn't see what the second wrote",
        Key::Sees => b"sees: the second saw what the first wrote",
    }
}

/// Whether its arrow is dashed.
fn key_dashed(key: Key) -> bool
    ensures { result ≡ key_dashed key }
{
    match key {
        Key::Solid => false,
        Key::Dashed => true,
        Key::Sees => false,
    }
}

/// Appends a key, where a drawing has arrows that it tells of.
#[tactic(auto, unfolding(crate::specs::Heading::key_text))]
pub fn put_key(out: &mut Vec<u8>, y: u128, key: Key, drawing: &Drawing) -> Result<(), NoMemory>
    ensures { OnOk result (out.new.items ≡ out.old.items ++ key_text y key drawing.now) }
{
    if has_key(key, drawing) {
        put_sample(out, y, key_dashed(key), key_words(key))
    } else {
        Ok(())
    }
}

/// Appends what a thick edge says.
#[tactic(auto, unfolding(crate::specs::Heading::marked_text))]
pub fn put_marked(out: &mut Vec<u8>, y: u128, marked: &Option<Spot>) -> Result<(), NoMemory>
    ensures { OnOk result (out.new.items ≡ out.old.items ++ marked_text y marked.now) }
{
    match marked {
        None => Ok(()),
        Some(_) => put_text(out, b"", 26, y, b"thick edge: the operation in question"),
    }
}

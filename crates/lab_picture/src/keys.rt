//! Which kinds of arrows a drawing has, and so which keys stand above its columns.

ghost use Rattle.std.specs.Prelude.{◌≡◌, ◌≤◌};
ghost use Rattle.lab_picture.specs.Keys.{says, some_said, has_key, key_lines};

use lab_drawing::{Arrow, Drawing, Tie, is_dashed};

/// A key: what arrows of a kind say.
#[derive(Clone, Copy)]
pub enum Key {
    /// Dependencies that are no anti-dependencies.
    Solid,
    /// Anti-dependencies.
    Dashed,
    /// Versions that are seen.
    Sees,
}

/// Whether a key says what this is.
fn says(key: Key, tie: Tie) -> bool
    ensures { result ≡ says key tie }
{
    match key {
        Key::Solid => match tie {
            Tie::Dependency(_) => !is_dashed(tie),
            Tie::Version => false,
        },
        Key::Dashed => is_dashed(tie),
        Key::Sees => match tie {
            Tie::Dependency(_) => false,
            Tie::Version => true,
        },
    }
}

/// Whether there is an arrow that a key tells of.
fn some_said(key: Key, arrows: &[Arrow]) -> bool
    ensures { result ≡ some_said key arrows.now }
{
    for arrow in arrows {
        if says(key, arrow.tie) {
            return true;
        }
    }
    false
}

/// Whether a drawing has such an arrow.
pub fn has_key(key: Key, drawing: &Drawing) -> bool
    ensures { result ≡ has_key key drawing.now }
{
    some_said(key, &drawing.arrows) || some_said(key, &drawing.forward)
}

/// How many lines a key has.
pub fn key_lines(key: Key, drawing: &Drawing) -> u128
    ensures value { result ≡ key_lines key drawing.now }
    ensures small { result ≤ 1 }
{
    if has_key(key, drawing) { 1 } else { 0 }
}

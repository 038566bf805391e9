//! The smallest history so far.

ghost use Rattle.std.specs.Prelude.{◌≡◌, unwrap_or};

use lab_history::History;

/// The history that is to be made smaller next: the part found last, or the whole where there is none yet.
pub fn smallest<'h>(found: &'h Option<History>, whole: &'h History) -> &'h History
    ensures { result.now ≡ unwrap_or found.now whole.now }
{
    match found {
        Some(part) => part,
        None => whole,
    }
}

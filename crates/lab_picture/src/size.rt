//! A size.

ghost use Rattle.std.specs.Prelude.{◌≡◌, ◌++◌, OnOk};
ghost use Rattle.lab_picture.specs.Size.{size_text};

use crate::text::put_pixels;
use lab_table::NoMemory;

/// Appends a size as attributes.
#[tactic(auto, unfolding(crate::specs::Size::size_text))]
pub fn put_size(out: &mut Vec<u8>, width: u128, height: u128) -> Result<(), NoMemory>
    ensures { OnOk result (out.new.items ≡ out.old.items ++ size_text width height) }
{
    out.extend_from_slice(b" width=\"")?;
    put_pixels(out, width)?;
    out.extend_from_slice(b"\" height=\"")?;
    put_pixels(out, height)?;
    out.extend_from_slice(b"\"")
}

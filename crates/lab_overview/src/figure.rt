//! The picture of a page. Functions that take bytes append; on failure, a part of the text may have been appended.

ghost use Rattle.std.specs.Prelude.{◌≡◌, ◌++◌, OnOk};
ghost use Rattle.lab_overview.specs.Figure.{fold_open, fold_close, picture_open, picture_close, drawn_text, no_picture, is_wide, figure_text};

use lab_table::{NoMemory, TxnNo};

/// The most bytes of a picture that stands in a page.
const MAX_PICTURE: usize = 65_536;

/// The most columns of a picture that isn't folded.
const MAX_COLUMNS: usize = 12;

/// The beginning of a picture that is wide.
fn fold_open(wide: bool) -> &'static [u8]
    ensures { result.now ≡ fold_open wide }
{
    if wide {
        b"<details>\n<summary>The picture</summary>\n"
    } else {
        b""
    }
}

/// Its end.
fn fold_close(wide: bool) -> &'static [u8]
    ensures { result.now ≡ fold_close wide }
{
    if wide { b"</details>\n" } else { b"" }
}

/// What stands before a picture.
#[tactic(auto, unfolding(crate::specs::Figure::picture_open))]
fn picture_open() -> &'static [u8]
    ensures { result.now ≡ picture_open }
{
    b"<figure>\n<div class=\"wide\" tabindex=\"0\" role=\"region\" aria-label=\"Picture\">\n"
}

/// What stands behind it.
#[tactic(auto, unfolding(crate::specs::Figure::picture_close))]
fn picture_close() -> &'static [u8]
    ensures { result.now ≡ picture_close }
{
    b"</div>\n<figcaption>Each column is a transaction, each box a statement and what it did; an arrow leads from what comes before to what comes behind.</figcaption>\n</figure>\n"
}

/// Appends a picture, as it is.
#[tactic(auto, unfolding(crate::specs::Figure::drawn_text))]
fn put_drawn(out: &mut Vec<u8>, wide: bool, picture: &[u8]) -> Result<(), NoMemory>
    ensures { OnOk result (out.new.items ≡ out.old.items ++ drawn_text wide picture.now) }
{
    out.extend_from_slice(fold_open(wide))?;
    out.extend_from_slice(picture_open())?;
    out.extend_from_slice(picture)?;
    out.extend_from_slice(picture_close())?;
    out.extend_from_slice(fold_close(wide))
}

/// What stands in place of a picture that is too long.
#[tactic(auto, unfolding(crate::specs::Figure::no_picture))]
fn no_picture() -> &'static [u8]
    ensures { result.now ≡ no_picture }
{
    b"<p>The picture has more than 65,536 bytes and isn't here: <code>hermitage_lab picture</code> draws it.</p>\n"
}

fn is_wide(columns: &[TxnNo]) -> bool
    ensures { result ≡ is_wide columns.now }
{
    MAX_COLUMNS < columns.len()
}

/// Appends the picture of these columns, unless it is too long.
pub fn put_figure(out: &mut Vec<u8>, columns: &[TxnNo], picture: &[u8]) -> Result<(), NoMemory>
    ensures { OnOk result (out.new.items ≡ out.old.items ++ figure_text columns.now picture.now) }
{
    if picture.len() <= MAX_PICTURE {
        put_drawn(out, is_wide(columns), picture)
    } else {
        out.extend_from_slice(no_picture())
    }
}

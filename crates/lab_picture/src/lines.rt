//! All lines of a text.

ghost use Rattle.std.specs.Prelude.{◌≡◌, ◌++◌, ◌≤◌, length, OnOk};
ghost use Rattle.lab_picture.specs.Lines.{all_lines, lines_at};

use crate::text::{divided, put_line};
use lab_table::NoMemory;

/// How many lines a text has.
pub fn count_lines(width: usize, text: &[u8]) -> u64
    ensures value { result ≡ length (all_lines width text.now) }
    ensures within { result ≤ length text.now }
{
    let mut count = 0;
    let mut rest = text;
    for _byte in text {
        if rest.len() == 0 {
            return count;
        }
        let (_, next) = divided(width, rest);
        rest = next;
        count += 1;
    }
    count
}

/// Appends all lines of a text, each 13 below the one before.
pub fn put_all_lines(
    out: &mut Vec<u8>,
    x: u128,
    y: u128,
    width: usize,
    text: &[u8],
) -> Result<(), NoMemory>
    requires { y ≤ 1000000000000000000000000000000000 }
    ensures { OnOk result (out.new.items ≡ out.old.items ++ lines_at x y (all_lines width text.now)) }
{
    let mut line_y = y;
    let mut rest = text;
    for _byte in text {
        if rest.len() == 0 {
            return Ok(());
        }
        let (first, next) = divided(width, rest);
        put_line(out, b"", x, line_y, first)?;
        rest = next;
        line_y += 13;
    }
    Ok(())
}

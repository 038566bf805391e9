//! A JSON value as a line.

ghost use Rattle.std.specs.Prelude.{◌≡◌, ◌≤◌, false, Some, IfOk, OnOk, IsUtf8};
ghost use Rattle.serde_json.specs.Data.{depth};
ghost use Rattle.serde_json.specs.Read.{read as read_text, max_depth};
ghost use Rattle.serde_json.specs.View.{view};
ghost use Rattle.serde_json.specs.Written.{compact_text, has_float};
ghost use Rattle.lab_reports.specs.Tree.{line_of};

use lab_table::NoMemory;
use serde_json::Value as Json;
use std::alloc::Global;

/// Returns a value without floats as one line of compact JSON, with its newline.
pub fn print_line(alloc: Global, json: &Json) -> Result<Vec<u8>, NoMemory>
    requires { has_float (view json.now) ≡ false }
    ensures line { IfOk result (λ line. line.items ≡ line_of (view json.now)) }
    ensures utf8 { IfOk result (λ line. IsUtf8 line.items) }
    // What stands before the newline, read as JSON, is the value, unless it nests deeper than JSON is read.
    ensures value { OnOk result (depth (view json.now) ≤ max_depth → read_text (compact_text (view json.now)) ≡ Some (view json.now)) }
{
    let mut line = json.to_vec(alloc)?;
    line.push(b'\n')?;
    Ok(line)
}

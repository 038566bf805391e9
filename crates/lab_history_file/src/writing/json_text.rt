//! Lists as JSON texts, item by item. Each function appends; after NoMemory, part of what was to be appended may stand
//! there.

ghost use Rattle.std.specs.Prelude.{◌≡◌, ◌++◌, nat_lt, OnOk};
ghost use Rattle.std.specs.List.{All};
ghost use Rattle.serde_json.specs.Data.{Data};
ghost use Rattle.serde_json.specs.Written.{comma_if, compact_text};
ghost use Rattle.lab_history_file.specs.FileOf.{IsListOf};
ghost use Rattle.lab_history_file.specs.Tree.{list_tree};

use lab_table::NoMemory;

/// What version 2 of the format has a value for.
pub trait JsonText {
    // What has one.
    ghost Keeps: { Self → Type 0 };

    ghost tree: { Self → Data };

    // What the format says of a value.
    ghost Is: { Data → Self → Type 0 };

    /// Appends the text of its value.
    fn put(&self, out: &mut Vec<u8>) -> Result<(), NoMemory>
        requires { Keeps self.now }
        ensures text { OnOk result (out.new.items ≡ out.old.items ++ compact_text (tree self.now)) }
        ensures file { OnOk result (Is (tree self.now) self.now) };
}

/// Appends the item of a list that has this place, counted from 0, and a comma before it if it isn't the first.
#[inline]
fn put_item<X: JsonText>(out: &mut Vec<u8>, place: usize, item: &X) -> Result<(), NoMemory>
    requires { X.Keeps item.now }
    ensures text { OnOk result (out.new.items ≡ out.old.items ++ (comma_if (nat_lt 0 place) ++ compact_text (X.tree item.now))) }
    ensures file { OnOk result (X.Is (X.tree item.now) item.now) }
{
    if place > 0 {
        out.push(b',')?;
    }
    item.put(out)
}

/// Appends the list of the values of some items.
pub fn put_list<X: JsonText>(out: &mut Vec<u8>, items: &[X]) -> Result<(), NoMemory>
    requires { All X.Keeps items.now }
    ensures text { OnOk result (out.new.items ≡ out.old.items ++ compact_text (list_tree X.tree items.now)) }
    ensures file { OnOk result (IsListOf X.Is (list_tree X.tree items.now) items.now) }
{
    out.push(b'[')?;
    for (place, item) in items.iter().enumerate() {
        put_item(out, place, item)?;
    }
    out.push(b']')?;
    Ok(())
}

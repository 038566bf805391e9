//! What a JSON value is made of, and lists of such.

ghost use Rattle.std.specs.Prelude.{◌≡◌, IfOk, IsUtf8};
ghost use Rattle.serde_json.specs.Data.{Data, string};
ghost use Rattle.serde_json.specs.View.{view};
ghost use Rattle.lab_history_file.specs.Tree.{list_tree};

use lab_table::{NoMemory, TableName};
use serde_json::Value as Json;
use std::alloc::Global;

/// What a report's JSON has lists of.
pub trait ToJson {
    ghost tree: { Self → Data };

    /// Its value.
    fn to_json(&self, alloc: Global) -> Result<Json, NoMemory>
        ensures { IfOk result (λ v. view v ≡ tree self.now) };
}

/// The list of the values of some items.
pub fn list_json<X: ToJson>(alloc: Global, items: &[X]) -> Result<Json, NoMemory>
    ensures { IfOk result (λ v. view v ≡ list_tree X.tree items.now) }
{
    let mut values = Vec::with_capacity(alloc, items.len())?;
    for item in items {
        values.push(item.to_json(alloc)?)?;
    }
    Ok(Json::Array(values))
}

/// A text that is UTF-8.
pub fn text_json(alloc: Global, text: &[u8]) -> Result<Json, NoMemory>
    requires { IsUtf8 text.now }
    ensures { IfOk result (λ v. view v ≡ string text.now) }
{
    let Ok(text) = String::from_utf8(Vec::from_slice(alloc, text)?) else {
        unreachable!()
    };
    Ok(Json::String(text))
}

/// The name of a table.
pub fn table_json(alloc: Global, table: TableName) -> Result<Json, NoMemory>
    ensures { IfOk result (λ v. view v ≡ string table) }
{
    text_json(alloc, table.as_bytes())
}

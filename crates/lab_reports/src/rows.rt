//! The rows of a table as a JSON value.

ghost use Rattle.std.specs.Prelude.{◌≡◌, IfOk};
ghost use Rattle.serde_json.specs.View.{view};
ghost use Rattle.lab_history_file.specs.Tree.{value_tree, pair_tree, map_tree};

use crate::to_json::{ToJson, list_json, table_json};
use lab_table::{NoMemory, RowName, Table, Value};
use serde_json::Value as Json;
use std::alloc::Global;

/// `[table, id, value]`.
impl ToJson for (RowName, Value) {
    ghost tree = { pair_tree value_tree };

    fn to_json(&self, alloc: Global) -> Result<Json, NoMemory> {
        let table = table_json(alloc, self.0.table)?;
        let parts = vec![in alloc;
            table,
            Json::from(self.0.id.number()),
            Json::from(self.1.number()),
        ]?;
        Ok(Json::Array(parts))
    }
}

/// Returns the rows of a table, in ascending order, as in a history file.
pub fn rows_json(alloc: Global, table: &Table) -> Result<Json, NoMemory>
    ensures { IfOk result (λ v. view v ≡ map_tree value_tree table.now) }
{
    list_json(alloc, table.rows())
}

//! The members of lists as JSON texts: a row, and what the list says of it. Each function appends; after NoMemory, part
//! of what was to be appended may stand there.

ghost use Rattle.std.specs.Prelude.{◌≡◌, ◌++◌, ⊤, true, OnOk, Some, codes};
ghost use Rattle.std.specs.Fmt.{decimal};
ghost use Rattle.std.specs.List.{list_all};
ghost use Rattle.std.specs.FinMap as finite;
ghost use Rattle.json.specs.Print.{quoted};
ghost use Rattle.serde_json.specs.Written.{compact_text};
ghost use Rattle.lab_history.specs.HistoryRules.{is_listed, has_installer};
ghost use Rattle.lab_history_file.specs.Entries.{txn_in_number};
ghost use Rattle.lab_history_file.specs.FileOf.{IsMapOf, IsPair, IsValue, IsState, IsVersion, IsInstalled};
ghost use Rattle.lab_history_file.specs.Member.{row_in, key_tree};
ghost use Rattle.lab_history_file.specs.Tree.{natural_tree, value_tree, written_tree, pair_tree, list_tree, map_tree, view_tree, version_tree};
ghost use Rattle.lab_history_file.specs.declared.file_version.FileVersion.TheVariants.{Two};

use crate::part::{Part, put_natural};
use crate::writing::json_text::{JsonText, put_list};
use lab_history::{Installed, Installers, Rows, VersionName, View, Writes};
use lab_table::{NoMemory, RowName, Table, TxnNo};

/// Appends what a member begins with: the two parts of its row's key, and a comma behind each.
fn put_key(out: &mut Vec<u8>, row: RowName) -> Result<(), NoMemory>
    ensures text { OnOk result (out.new.items ≡ out.old.items ++ (codes "[" ++ (quoted row.table ++ (codes "," ++ (decimal row.id ++ codes ","))))) }
    ensures read { OnOk result (row_in Two (key_tree row) ≡ Some row) }
{
    out.extend_from_slice(b"[\"")?;
    out.extend_from_slice(row.table.as_bytes())?;
    out.extend_from_slice(b"\",")?;
    put_natural(out, row.id.number())?;
    out.push(b',')?;
    Ok(())
}

/// `[table, id, part]`.
impl<P: Part> JsonText for (RowName, P) {
    ghost Keeps = { λ _. ⊤ };

    ghost tree = { pair_tree P.part_tree };

    ghost Is = { IsPair Two (λ d x. P.part_in d ≡ Some x) };

    fn put(&self, out: &mut Vec<u8>) -> Result<(), NoMemory> {
        put_key(out, self.0)?;
        self.1.put_part(out)?;
        out.push(b']')?;
        Ok(())
    }
}

/// `[table, id, txn, op]`. No view lists an initial version, which would have neither.
impl JsonText for (RowName, VersionName) {
    ghost Keeps = { λ entry. is_listed entry.1 ≡ true };

    ghost tree = { version_tree };

    ghost Is = { IsVersion Two };

    fn put(&self, out: &mut Vec<u8>) -> Result<(), NoMemory> {
        put_key(out, self.0)?;
        let VersionName::Of { txn, op } = self.1 else {
            unreachable!()
        };
        txn.put_part(out)?;
        out.push(b',')?;
        put_natural(out, op)?;
        out.push(b']')?;
        Ok(())
    }
}

/// A transaction that installed a row.
impl JsonText for TxnNo {
    ghost Keeps = { λ _. ⊤ };

    ghost tree = { natural_tree };

    ghost Is = { λ d txn. txn_in_number d ≡ Some txn };

    fn put(&self, out: &mut Vec<u8>) -> Result<(), NoMemory> {
        self.put_part(out)
    }
}

/// `[table, id, [txn, ..]]`, with at least one.
impl JsonText for (RowName, Installers) {
    ghost Keeps = { λ entry. has_installer entry.1 ≡ true };

    ghost tree = { pair_tree (list_tree natural_tree) };

    ghost Is = { IsInstalled Two };

    fn put(&self, out: &mut Vec<u8>) -> Result<(), NoMemory> {
        put_key(out, self.0)?;
        put_list(out, self.1.as_slice())?;
        out.push(b']')?;
        Ok(())
    }
}

/// Appends the rows of a table.
pub fn put_table(out: &mut Vec<u8>, table: &Table) -> Result<(), NoMemory>
    ensures text { OnOk result (out.new.items ≡ out.old.items ++ compact_text (map_tree value_tree table.now)) }
    ensures file { OnOk result (IsMapOf (IsPair Two IsValue) (map_tree value_tree table.now) table.now) }
{
    put_list(out, table.rows())
}

/// Appends the rows that a statement lists.
pub fn put_rows(out: &mut Vec<u8>, rows: &Rows) -> Result<(), NoMemory>
    ensures text { OnOk result (out.new.items ≡ out.old.items ++ compact_text (map_tree value_tree rows.now)) }
    ensures file { OnOk result (IsMapOf (IsPair Two IsValue) (map_tree value_tree rows.now) rows.now) }
{
    put_list(out, rows.entries())
}

/// Appends written rows with their new states.
#[tactic(auto, using(crate::proofs::PlainWrites::write_trees))]
pub fn put_writes(out: &mut Vec<u8>, writes: &Writes) -> Result<(), NoMemory>
    ensures text { OnOk result (out.new.items ≡ out.old.items ++ compact_text (map_tree written_tree writes.now)) }
    ensures file { OnOk result (IsMapOf (IsPair Two IsState) (map_tree written_tree writes.now) writes.now) }
{
    put_list(out, writes.entries())
}

/// Appends rows with the versions that were seen, none of which is the initial one.
pub fn put_view(out: &mut Vec<u8>, seen: &View) -> Result<(), NoMemory>
    requires { list_all is_listed (finite.values seen.now) ≡ true }
    ensures text { OnOk result (out.new.items ≡ out.old.items ++ compact_text (view_tree seen.now)) }
    ensures file { OnOk result (IsMapOf (IsVersion Two) (view_tree seen.now) seen.now) }
{
    put_list(out, seen.entries())
}

/// Appends rows with the transactions that installed them, at least one each.
pub fn put_installed(out: &mut Vec<u8>, installed: &Installed) -> Result<(), NoMemory>
    requires { list_all has_installer (finite.values installed.now) ≡ true }
    ensures text { OnOk result (out.new.items ≡ out.old.items ++ compact_text (map_tree (list_tree natural_tree) installed.now)) }
    ensures file { OnOk result (IsMapOf (IsInstalled Two) (map_tree (list_tree natural_tree) installed.now) installed.now) }
{
    put_list(out, installed.entries())
}

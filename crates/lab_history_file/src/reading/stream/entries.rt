//! Entries of lists, which begin with a row.

ghost use Rattle.std.specs.Prelude.{◌≡◌, ◌≢◌, ◌≤◌, [], true, Some, IfOk, IfSome};
ghost use Rattle.serde_json.specs.Data.{Data};
ghost use Rattle.lab_history_file.specs.Entries.{txn_in_number};
ghost use Rattle.lab_history_file.specs.FileOf.{IsInstalled, IsListOf, IsPair, IsValue, IsVersion};
ghost use Rattle.lab_history_file.specs.Reads.{IsWritten, KeyTaken, WholeTo};
ghost use Rattle.lab_history_file.specs.Spelled.{Spelled};
ghost use Rattle.lab_history_file.specs.declared.file_version.FileVersion.{FileVersion};
ghost use Rattle.lab_table.specs.Row.{Row};
ghost use Rattle.lab_table.specs.TableName.{is_table_name};

use super::super::cursor::Cursor;
use super::super::stop::Stop;
use crate::file_version::FileVersion;
use lab_history::{Installers, MAX_OPERATIONS, State, VersionName};
use lab_table::{RowId, RowName, TableName, TxnNo, Value};
use std::alloc::Global;

/// What may stand behind the key of a row.
pub trait Member: Sized + Drop {
    ghost stands: { FileVersion → Data → Row × Self → Type 0 };

    /// The member of a list, with its row.
    fn read(
        alloc: Global,
        version: FileVersion,
        cursor: &mut Cursor<'_>,
    ) -> Result<(RowName, Self), Stop>
        ensures { IfOk result (λ entry. Spelled 2 (stands version) cursor.old cursor.new entry) };
}

impl Member for Value {
    ghost stands = { λ version. IsPair version IsValue };

    #[inline(always)]
    fn read(
        _: Global,
        version: FileVersion,
        cursor: &mut Cursor<'_>,
    ) -> Result<(RowName, Value), Stop> {
        cursor.open_list()?;
        let row = row_of(version, cursor)?;
        let value = value_of(cursor)?;
        cursor.close_list()?;
        Ok((row, value))
    }
}

impl Member for State {
    ghost stands = { λ version. IsPair version IsWritten };

    #[inline(always)]
    fn read(
        _: Global,
        version: FileVersion,
        cursor: &mut Cursor<'_>,
    ) -> Result<(RowName, State), Stop> {
        cursor.open_list()?;
        let row = row_of(version, cursor)?;
        let state = state_of(cursor)?;
        cursor.close_list()?;
        Ok((row, state))
    }
}

impl Member for VersionName {
    ghost stands = { IsVersion };

    #[inline(always)]
    fn read(
        _: Global,
        version: FileVersion,
        cursor: &mut Cursor<'_>,
    ) -> Result<(RowName, VersionName), Stop> {
        cursor.open_list()?;
        let row = row_of(version, cursor)?;
        let txn = txn_no_of(cursor)?;
        let op = whole_of(cursor, MAX_OPERATIONS as u32)?;
        cursor.close_list()?;
        Ok((row, VersionName::Of { txn, op }))
    }
}

impl Member for Installers {
    ghost stands = { IsInstalled };

    fn read(
        alloc: Global,
        version: FileVersion,
        cursor: &mut Cursor<'_>,
    ) -> Result<(RowName, Installers), Stop> {
        cursor.open_list()?;
        let row = row_of(version, cursor)?;
        let installers = installers_of(alloc, cursor)?;
        cursor.close_list()?;
        Ok((row, installers))
    }
}

/// A whole number from 1 to this one.
#[inline(always)]
#[tactic(auto, using(crate::proofs::MembersSpell::whole_spelled))]
fn whole_of(cursor: &mut Cursor<'_>, most: u32) -> Result<u32, Stop>
    ensures whole { IfOk result (λ n. WholeTo most cursor.old cursor.new n) }
    ensures low { IfOk result (λ n. 1 ≤ n) }
    ensures high { IfOk result (λ n. n ≤ most) }
{
    let number = cursor.whole()?;
    if 1 <= number && number <= u64::from(most) {
        Ok(number as u32)
    } else {
        Err(Stop::Fault)
    }
}

/// The number of a transaction.
#[inline(always)]
pub fn txn_no_of(cursor: &mut Cursor<'_>) -> Result<TxnNo, Stop>
    ensures { IfOk result (λ n. WholeTo 1000000 cursor.old cursor.new n) }
{
    let number = whole_of(cursor, 1_000_000)?;
    TxnNo::new(number).ok_or(Stop::Fault)
}

#[inline(always)]
#[tactic(auto, using(crate::proofs::MembersSpell::value_spelled))]
fn value_of(cursor: &mut Cursor<'_>) -> Result<Value, Stop>
    ensures { IfOk result (λ z. Spelled 0 IsValue cursor.old cursor.new z) }
{
    let number = cursor.integer()?;
    Value::new(number).ok_or(Stop::Fault)
}

#[inline(always)]
#[tactic(auto, using(crate::proofs::MembersSpell::absent_spelled, crate::proofs::MembersSpell::present_spelled, crate::proofs::MembersSpell::value_spelled))]
fn state_of(cursor: &mut Cursor<'_>) -> Result<State, Stop>
    ensures { IfOk result (λ state. Spelled 0 IsWritten cursor.old cursor.new state) }
{
    match cursor.integer_or_null()? {
        None => Ok(State::Absent),
        Some(number) => Ok(State::Present(Value::new(number).ok_or(Stop::Fault)?)),
    }
}

/// The numbers of the transactions that installed a row: one at least.
fn installers_of(alloc: Global, cursor: &mut Cursor<'_>) -> Result<Installers, Stop>
    ensures stand { IfOk result (λ ns. Spelled 1 (IsListOf (λ number txn. txn_in_number number ≡ Some txn)) cursor.old cursor.new ns) }
    ensures some { IfOk result (λ ns. ns ≢ []) }
{
    cursor.open_list()?;
    let mut found = Vec::new(alloc);
    'numbers: while !cursor.list_ends() {
        let number = txn_no_of(cursor)?;
        found.push(number)?;
    }
    if found.is_empty() {
        return Err(Stop::Fault);
    }
    Ok(Installers::new(found))
}

/// The key of a row.
#[inline(always)]
#[tactic(auto, using(crate::proofs::MembersSpell::id_key, crate::proofs::MembersSpell::full_key))]
fn row_of(version: FileVersion, cursor: &mut Cursor<'_>) -> Result<RowName, Stop>
    ensures { IfOk result (λ row. KeyTaken version cursor.old cursor.new row) }
{
    match version {
        FileVersion::One => {
            let id = id_of(cursor)?;
            Ok(RowName::in_test(id))
        }
        FileVersion::Two => {
            let text = cursor.text()?;
            let table = table_named(text.as_bytes()).ok_or(Stop::Fault)?;
            let id = id_of(cursor)?;
            Ok(RowName { table, id })
        }
    }
}

#[inline(always)]
fn id_of(cursor: &mut Cursor<'_>) -> Result<RowId, Stop>
    ensures { IfOk result (λ n. WholeTo 999999 cursor.old cursor.new n) }
{
    let number = whole_of(cursor, 999_999)?;
    RowId::new(number).ok_or(Stop::Fault)
}

/// The name that a text is, in lower case.
#[inline(always)]
fn table_named(text: &[u8]) -> Option<TableName>
    ensures value { IfSome result (λ table. table ≡ text.now) }
    ensures name { IfSome result (λ _. is_table_name text.now ≡ true) }
{
    // Most names are this one.
    if text == b"test".as_slice() {
        return Some(TableName::test());
    }
    let table = TableName::spelled(text)?;
    if table.as_bytes() == text {
        Some(table)
    } else {
        None
    }
}

//! Who installed which rows, and the table that they leave, read off what is kept of rows.

ghost use Rattle.std.specs.Prelude.{◌≡◌, map, IfOk, unwrap_or};
ghost use Rattle.std.specs.BTreeMap.{IsOrdered};
ghost use Rattle.std.specs.FinMap.{get};
ghost use Rattle.lab_table.specs.Row.{Row, row_cmp};
ghost use Rattle.lab_engine.specs.Chains.{installed_by};
ghost use Rattle.lab_engine.specs.Chains as plain;
ghost use Rattle.lab_engine.specs.EachRow.{with_row, each_row};
ghost use Rattle.lab_engine.specs.KeptRows.{chain_in};
ghost use Rattle.lab_engine.specs.Log.{initial_version};
ghost use Rattle.lab_engine.specs.Recording.{if_any};

use crate::row_state::{Installed as InstalledVersion, RowState};
use crate::row_states::RowStates;
use crate::version::{Version, initial_entries, merged_entries};
use lab_history::{Installed, Installers};
use lab_table::{NoMemory, RowName, Table, TxnNo, Value};
use std::alloc::Global;
use std::collections::BTreeMap;

/// The transactions that installed versions.
fn numbers_of(alloc: Global, installed: &[InstalledVersion]) -> Result<Vec<TxnNo>, NoMemory>
    ensures { IfOk result (λ v. v.items ≡ map (λ i. i.by) installed.now) }
{
    installed
        .iter()
        .map(|installed| installed.by)
        .collect(alloc)
}

/// Those who installed a row, in order of commits; None where nobody did.
#[tactic(auto, using(crate::proofs::InstalledChains::named_by, crate::proofs::InstalledChains::some_named))]
fn installers_of(alloc: Global, kept: &RowState) -> Result<Option<Installers>, NoMemory>
    ensures { IfOk result (λ made. made ≡ if_any (installed_by kept.now.chain)) }
{
    let installed = kept.installed();
    if installed.is_empty() {
        return Ok(None);
    }
    let numbers = numbers_of(alloc, installed)?;
    Ok(Some(Installers::new(numbers)))
}

/// Those who installed each row that somebody did, by rising row.
fn all_installers(
    alloc: Global,
    rows: &BTreeMap<RowName, RowState>,
) -> Result<Vec<(RowName, Installers)>, NoMemory>
    ensures ordered { IfOk result (λ _. IsOrdered row_cmp rows.now) }
    ensures made { IfOk result (λ v. v.items ≡ each_row (λ row kept. if_any (installed_by kept.chain)) rows.now.entries) }
{
    let mut entries = Vec::new(alloc);
    for (row, kept) in rows {
        if let Some(installers) = installers_of(alloc, kept)? {
            entries.push((*row, installers))?;
        }
    }
    Ok(entries)
}

/// Those who installed each row, in order of commits. NoMemory where an allocation was refused.
pub fn installed_of(alloc: Global, rows: &RowStates) -> Result<Installed, NoMemory>
    ensures { IfOk result (λ installed. (row : Row) → get installed row ≡ if_any (installed_by (chain_in rows.now row))) }
{
    Ok(Installed::new(all_installers(alloc, rows.by_row())?))
}

/// The last version of each row that was installed before a place, by rising row.
fn last_versions(
    alloc: Global,
    rows: &BTreeMap<RowName, RowState>,
    place: usize,
) -> Result<Vec<(RowName, Version)>, NoMemory>
    ensures ordered { IfOk result (λ _. IsOrdered row_cmp rows.now) }
    ensures made { IfOk result (λ v. v.items ≡ each_row (λ row kept. plain.last_before place kept.chain) rows.now.entries) }
{
    let mut versions = Vec::new(alloc);
    for (row, kept) in rows {
        if let Some(version) = kept.last_before(place) {
            versions.push((*row, version))?;
        }
    }
    Ok(versions)
}

fn present(entry: &(RowName, Version)) -> Option<(RowName, Value)>
    ensures { result ≡ with_row entry.now.0 entry.now.1.state }
{
    let value = entry.1.state?;
    Some((entry.0, value))
}

fn all_present(
    alloc: Global,
    entries: &[(RowName, Version)],
) -> Result<Vec<(RowName, Value)>, NoMemory>
    ensures { IfOk result (λ v. v.items ≡ each_row (λ row version. version.state) entries.now) }
{
    entries
        .iter()
        .filter_map(|entry| present(entry))
        .collect(alloc)
}

/// The setup with what was installed before a place over it. NoMemory where an allocation was refused.
pub fn end_table(
    alloc: Global,
    setup: &Table,
    rows: &RowStates,
    place: usize,
) -> Result<Table, NoMemory>
    ensures { IfOk result (λ table. (row : Row) → get table row ≡ (unwrap_or (plain.last_before place (chain_in rows.now row)) (initial_version setup.now row)).state) }
{
    let initial = initial_entries(alloc, setup.rows())?;
    let installed = last_versions(alloc, rows.by_row(), place)?;
    let versions = merged_entries(alloc, &initial, &installed)?;
    Ok(Table::from_rising(all_present(alloc, &versions)?))
}

//! How many different ids the lists of a history name.

ghost use Rattle.std.specs.Prelude.{◌≡◌, ◌≤◌, nat_le, length, IfOk, OnOk};
ghost use Rattle.std.specs.BTreeSet.{insert_key};
ghost use Rattle.lab_table.specs.Row.{row_cmp};
ghost use Rattle.lab_table.specs.Placed.{is_row_at};
ghost use Rattle.lab_history.specs.HistoryRules.{named_rows, distinct_rows};
ghost use Rattle.lab_history.specs.Limits.{max_ids};
ghost use Rattle.lab_history.specs.RunningCounts.{only_if, rows_within, op_within, ops_within, txns_within, parts_within};

use crate::id_range::are_few_at_a_glance;
use crate::limits::MAX_IDS;
use crate::operation::Op;
use crate::parts::Parts;
use crate::transaction::Txn;
use lab_table::{ByRow, NoMemory, RowName, place_of};
use std::alloc::Global;
use std::marker::Model;

/// Whether the lists of these parts name no more different ids than a history may have. It reads no further than the
/// first row that is one too many.
pub fn has_few_ids(alloc: Global, parts: &Parts) -> Result<bool, NoMemory>
    ensures { IfOk result (λ few. few ≡ nat_le (distinct_rows (named_rows parts.now)) max_ids) }
{
    if are_few_at_a_glance(parts) {
        return Ok(true);
    }
    count_few(alloc, parts)
}

/// Counts the different rows of all lists, up to the first that is one too many.
fn count_few(alloc: Global, parts: &Parts) -> Result<bool, NoMemory>
    ensures { IfOk result (λ few. few ≡ nat_le (distinct_rows (named_rows parts.now)) max_ids) }
{
    let mut ids = Ids {
        seen: ByRow::new(alloc),
    };
    if !ids.add_parts(parts)? {
        return Ok(false);
    }
    Ok(ids.are_few())
}

/// The different rows found so far. Every `add_..` stops at the first row past [`MAX_IDS`], so inserting a row moves
/// at most that many others.
#[derive(Drop)]
struct Ids {
    seen: ByRow<()>,
}

impl Model for Ids {
    ghost use Rattle.std.specs.Prelude.{List};
    ghost use Rattle.std.specs.FinMap as finite;
    ghost use Rattle.lab_table.specs.Row.{Row};

    ghost Value = { List Row };

    ghost view = { λ ids. finite.keys ids.seen };
}

impl Ids {
    /// Whether a history may have this many.
    fn are_few(&self) -> bool
        ensures { result ≡ nat_le (length self.now) max_ids }
    {
        self.seen.entries().len() <= MAX_IDS
    }

    /// Adds a row and returns the index after it. The row is looked for first where it is likely to be, seen from
    /// `place`.
    #[inline]
    fn add(&mut self, place: usize, row: RowName) -> Result<usize, NoMemory>
        ensures { OnOk result (self.new ≡ insert_key row_cmp self.old row) }
    {
        let place = likely_place(self.seen.entries(), place, row);
        if stands_at(self.seen.entries(), place, row) {
            return Ok(place + 1);
        }
        let place = place_of(self.seen.entries(), row);
        if !stands_at(self.seen.entries(), place, row) {
            self.seen.put(row, ())?;
        }
        Ok(place + 1)
    }

    /// Adds the rows of a list until there are too many; returns whether there are few. The rows of a list rise, so each
    /// is looked for after the one before it.
    fn add_rows<X>(&mut self, entries: &[(RowName, X)]) -> Result<bool, NoMemory>
        ensures { IfOk result (λ few. only_if few self.new ≡ rows_within self.old entries.now) }
    {
        let mut place = 0;
        for entry in entries {
            place = self.add(place, entry.0)?;
            if !self.are_few() {
                return Ok(false);
            }
        }
        Ok(true)
    }

    fn add_op(&mut self, op: &Op) -> Result<bool, NoMemory>
        ensures { IfOk result (λ few. only_if few self.new ≡ op_within self.old op.now) }
    {
        if !self.add_rows(op.view.entries())? {
            return Ok(false);
        }
        if !self.add_rows(op.rows.entries())? {
            return Ok(false);
        }
        self.add_rows(op.writes.entries())
    }

    fn add_ops(&mut self, ops: &[Op]) -> Result<bool, NoMemory>
        ensures { IfOk result (λ few. only_if few self.new ≡ ops_within self.old ops.now) }
    {
        for op in ops {
            if !self.add_op(op)? {
                return Ok(false);
            }
        }
        Ok(true)
    }

    fn add_txns(&mut self, txns: &[Txn]) -> Result<bool, NoMemory>
        ensures { IfOk result (λ few. only_if few self.new ≡ txns_within self.old txns.now) }
    {
        for txn in txns {
            if !self.add_ops(txn.ops.as_slice())? {
                return Ok(false);
            }
        }
        Ok(true)
    }

    fn add_parts(&mut self, parts: &Parts) -> Result<bool, NoMemory>
        ensures { IfOk result (λ few. only_if few self.new ≡ parts_within self.old parts.now) }
    {
        if !self.add_rows(parts.initial.rows())? {
            return Ok(false);
        }
        if !self.add_txns(parts.txns.as_slice())? {
            return Ok(false);
        }
        if !self.add_rows(parts.installed.entries())? {
            return Ok(false);
        }
        self.add_rows(parts.end_table.rows())
    }
}

/// Where a row stands if those from a place up to it are of one table and leave no number out, as most rows of a history
/// do. It is a guess, which costs less than halving.
fn likely_place(entries: &[(RowName, ())], place: usize, row: RowName) -> usize
    ensures { place ≤ result }
{
    match entries.get(place) {
        Some(entry) => place + row.id.number().saturating_sub(entry.0.id.number()) as usize,
        None => place,
    }
}

/// Whether this row is the one at a place.
fn stands_at(entries: &[(RowName, ())], place: usize, row: RowName) -> bool
    ensures { result ≡ is_row_at entries.now place row }
{
    match entries.get(place) {
        Some(entry) => row == entry.0,
        None => false,
    }
}

//! Ranges of ids, which show at little cost that the lists of a history name few different rows.

ghost use Rattle.std.specs.Prelude.{◌≡◌, ◌≤◌, ◌+◌, T, true, IfSome};
ghost use Rattle.std.specs.List.{list_all, list_any, sum_by};
ghost use Rattle.std.specs.FinMap as finite;
ghost use Rattle.lab_table.specs.Row.{row_cmp};
ghost use Rattle.lab_history.specs.HistoryRules.{op_rows, named_rows, distinct_rows};
ghost use Rattle.lab_history.specs.IdRanges.{rows_in, has_row, has_ends, have_row};
ghost use Rattle.lab_history.specs.Limits.{max_ids};

use crate::limits::MAX_IDS;
use crate::operation::Op;
use crate::parts::Parts;
use crate::transaction::Txn;
use lab_table::{MAX_TABLES, RowName, TableName};

/// Whether a glance shows that the lists of these parts name no more different rows than a history may have. Where it
/// doesn't, they may all the same. It takes no memory, and of a list of one table only the first and the last row are
/// looked at.
pub fn are_few_at_a_glance(parts: &Parts) -> bool
    ensures { result ≡ true → distinct_rows (named_rows parts.now) ≤ max_ids }
{
    let ranges = IdRanges::around(parts);
    room_beside(&ranges.ranges).is_some() && ranges.have_all(parts)
}

/// The rows of a table whose ids are at least `least` and less than `end`. None are where `end` is 0.
#[derive(Clone, Copy)]
struct IdRange {
    table: TableName,
    least: u32,
    end: u32,
}

impl IdRange {
    /// How many rows these are.
    fn count(&self) -> u32
        ensures { result ≡ rows_in self.now }
    {
        self.end.saturating_sub(self.least)
    }

    fn has(&self, row: RowName) -> bool
        ensures { result ≡ has_row self.now row }
    {
        let id = row.id.number();
        self.table == row.table && self.least <= id && id < self.end
    }

    /// Whether it has the first and the last row of a list that rises, and so all of them.
    fn has_ends(&self, first: &RowName, last: &RowName) -> bool
        ensures { result ≡ has_ends self.now first.now last.now }
    {
        self.table == first.table
            && self.table == last.table
            && self.least <= first.id.number()
            && last.id.number() < self.end
    }
}

/// Ranges of ids, one for each of a few tables.
#[derive(Drop)]
struct IdRanges {
    ranges: [IdRange; MAX_TABLES],
}

impl IdRanges {
    /// Ranges that likely have all rows of these parts: they begin with those of the initial and the installed rows.
    fn around(parts: &Parts) -> IdRanges {
        let none = IdRange {
            table: TableName::test(),
            least: 0,
            end: 0,
        };
        let mut ranges = IdRanges {
            ranges: [none; MAX_TABLES],
        };
        ranges.add_rows(parts.initial.rows());
        ranges.add_rows(parts.installed.entries());
        ranges.widen();
        ranges
    }

    fn add_rows<X>(&mut self, entries: &[(RowName, X)]) {
        for entry in entries {
            self.add(entry.0);
        }
    }

    /// Stretches the range of its table as far as this row, if there is one or room for one.
    fn add(&mut self, row: RowName) {
        let id = row.id.number();
        for range in &mut self.ranges {
            if range.end == 0 {
                *range = IdRange {
                    table: row.table,
                    least: id,
                    end: id + 1,
                };
                return;
            }
            if range.table == row.table {
                range.least = range.least.min(id);
                range.end = range.end.max(id + 1);
                return;
            }
        }
    }

    /// Stretches each range on both sides as far as there is room, for rows that were only written by what aborted.
    fn widen(&mut self) {
        let share = room_beside(&self.ranges).unwrap_or(0) / (2 * MAX_TABLES as u32);
        for range in &mut self.ranges {
            range.least = range.least.saturating_sub(share);
            range.end = range.end.saturating_add(share);
        }
    }

    fn has(&self, row: RowName) -> bool
        ensures { result ≡ have_row self.now.ranges row }
    {
        self.ranges.iter().any(|range| range.has(row))
    }

    /// Whether a range has the first and the last row of a list that rises.
    fn has_ends(&self, first: &RowName, last: &RowName) -> bool
        ensures { result ≡ list_any (λ range. has_ends range first.now last.now) self.now.ranges }
    {
        self.ranges.iter().any(|range| range.has_ends(first, last))
    }

    /// Whether a range has the first and the last of these rows, which rise strictly.
    fn have_ends<X>(&self, entries: &[(RowName, X)]) -> bool
        requires { T (finite.is_sorted row_cmp entries.now) }
        ensures { result ≡ true → list_all (λ e. have_row self.now.ranges e.0) entries.now ≡ true }
    {
        match entries.first() {
            None => true,
            Some(first) => match entries.last() {
                None => true,
                Some(last) => self.has_ends(&first.0, &last.0),
            },
        }
    }

    /// Whether each of these rows, which rise strictly, is in a range. Most lists are of one table, and then no row between
    /// the first and the last is looked at.
    fn have_rows<X>(&self, entries: &[(RowName, X)]) -> bool
        requires { T (finite.is_sorted row_cmp entries.now) }
        ensures { result ≡ list_all (λ e. have_row self.now.ranges e.0) entries.now }
    {
        self.have_ends(entries) || entries.iter().all(|entry| self.has(entry.0))
    }

    #[tactic(auto, using(crate::proofs::NamedRows::op_passes, crate::proofs::NamedRows::states_pass))]
    fn have_op(&self, op: &Op) -> bool
        ensures { result ≡ list_all (have_row self.now.ranges) (op_rows op.now) }
    {
        self.have_rows(op.view.entries())
            && self.have_rows(op.rows.entries())
            && self.have_rows(op.writes.entries())
    }

    fn have_ops(&self, ops: &[Op]) -> bool
        ensures { result ≡ list_all (λ op. list_all (have_row self.now.ranges) (op_rows op)) ops.now }
    {
        ops.iter().all(|op| self.have_op(op))
    }

    fn have_txns(&self, txns: &[Txn]) -> bool
        ensures { result ≡ list_all (λ txn. list_all (λ op. list_all (have_row self.now.ranges) (op_rows op)) txn.ops) txns.now }
    {
        txns.iter().all(|txn| self.have_ops(txn.ops.as_slice()))
    }

    #[tactic(auto, using(crate::proofs::NamedRows::all_pass))]
    fn have_all(&self, parts: &Parts) -> bool
        ensures { result ≡ list_all (have_row self.now.ranges) (named_rows parts.now) }
    {
        self.have_rows(parts.initial.rows())
            && self.have_txns(parts.txns.as_slice())
            && self.have_rows(parts.installed.entries())
            && self.have_rows(parts.end_table.rows())
    }
}

/// How many rows more than those of these ranges a history may have, or None where they have too many.
fn room_beside(ranges: &[IdRange]) -> Option<u32>
    ensures { IfSome result (λ room. room + sum_by rows_in ranges.now ≡ max_ids) }
{
    let mut room = MAX_IDS as u32;
    for range in ranges {
        room = room.checked_sub(range.count())?;
    }
    Some(room)
}

//! Gathering what the operations of a history did with its rows.

use crate::known::Known;
use crate::measure::{count_operations, count_viewed};
use crate::op_name::writer_seen;
use crate::touch::{NONE, Touch, Touched, fits};
use lab_history::{History, Op, Outcome, Txn};
use lab_table::{NoMemory, RowName, TxnNo};
use std::alloc::Global;

/// The most tests of operations on rows.
const MOST_TESTS: usize = 4_000_000;

/// The most touches; each takes 72 bytes.
const MOST_TOUCHES: usize = 200_000;

/// What is gathered.
#[derive(Drop)]
pub struct Touches {
    pub touches: Vec<Touch>,
    /// Of each view's entry, whether what is left without it certainly isn't sound.
    pub needed: Vec<bool>,
    /// The places of rows that an insert adds.
    pub inserted: Vec<usize>,
    /// How many transactions there are.
    pub txns: usize,
}

/// The operation that is looked at.
#[derive(Clone, Copy)]
struct Here {
    txn: TxnNo,
    place: usize,
    op: usize,
    /// The number of its view's first entry.
    entry: usize,
}

impl Here {
    /// How it touched a version of the row at a place, where it saw no version that an operation wrote.
    fn touch(&self, touched: Touched, fits_initial: bool) -> Touch {
        Touch {
            touched,
            txn: self.place,
            op: self.op,
            entry: NONE,
            seen_op: NONE,
            seen_txn: NONE,
            is_own: false,
            fits_initial,
        }
    }
}

/// What an operation saw of the row at a place.
fn reader(
    known: &Known,
    history: &History,
    here: &Here,
    op: &Op,
    at: usize,
    row: RowName,
) -> Touch {
    let touched = Touched {
        row: at,
        version: 0,
        is_seen: true,
    };
    let mut touch = here.touch(touched, fits(op, row, &history.initial().get(row)));
    if let Some(writer) = writer_seen(op, row) {
        let entries = op.view.entries();
        let before = entries.partition_point(|entry| entry.0 < row);
        touch.entry = here.entry.saturating_add(before);
        touch.is_own = writer.txn == here.txn;
        touch.touched.version = history.installer_place(row, writer.txn).unwrap_or(0);
        if let Some(standing) = known.standings.find(writer.txn) {
            touch.seen_txn = standing.place;
            touch.seen_op = standing.number_of(writer.op);
        }
    }
    touch
}

impl Touches {
    /// Nothing yet, of a history.
    fn none(alloc: Global, history: &History) -> Result<Touches, NoMemory> {
        Ok(Touches {
            touches: Vec::new(alloc),
            needed: vec![in alloc; false; count_viewed(history)]?,
            inserted: Vec::new(alloc),
            txns: history.txns().as_slice().len(),
        })
    }

    /// Adds what an operation saw of the row at a place.
    fn push_reader(&mut self, reader: Touch) -> Result<(), NoMemory> {
        if let Some(needed) = self.needed.get_mut(reader.entry) {
            *needed = reader.is_own || !reader.fits_initial;
        }
        self.touches.push(reader)?;
        Ok(())
    }

    /// Adds what an operation did with the row at a place.
    fn push_row(
        &mut self,
        known: &Known,
        history: &History,
        here: &Here,
        op: &Op,
        at: usize,
    ) -> Result<(), NoMemory> {
        let Some(row) = known.row_at(at) else {
            return Ok(());
        };
        if self.touches.len() > MOST_TOUCHES {
            return Ok(());
        }
        self.push_reader(reader(known, history, here, op, at, row))?;
        if op.writes.get(row).is_some()
            && let Some(version) = history.installer_place(row, here.txn)
        {
            let touched = Touched {
                row: at,
                version,
                is_seen: false,
            };
            self.touches.push(here.touch(touched, true))?;
        }
        Ok(())
    }

    /// Adds what an operation did.
    fn push_op(
        &mut self,
        alloc: Global,
        known: &Known,
        history: &History,
        here: &Here,
        op: &Op,
    ) -> Result<(), NoMemory> {
        let places = known.touched(alloc, op)?;
        for at in places.iter() {
            self.push_row(known, history, here, op, *at)?;
        }
        if let Some((row, _)) = op.statement.inserted()
            && let Some(at) = known.place_of(row)
        {
            self.inserted.push(at)?;
        }
        Ok(())
    }

    /// Adds what the operations of a transaction did, the first of which has this number, and its view's first entry that one;
    /// answers the numbers behind the last.
    fn push_txn(
        &mut self,
        alloc: Global,
        known: &Known,
        history: &History,
        txn: &Txn,
        first: Here,
    ) -> Result<Here, NoMemory> {
        let mut here = first;
        for op in txn.ops.as_slice() {
            if txn.outcome == Outcome::Committed {
                self.push_op(alloc, known, history, &here, op)?;
            }
            here.op = here.op.saturating_add(1);
            here.entry = here.entry.saturating_add(op.view.entries().len());
        }
        Ok(here)
    }
}

/// What the committed transactions of a history did with its rows, in order; None where that would be too much to look
/// at.
pub fn touches_of(alloc: Global, history: &History) -> Result<Option<Touches>, NoMemory> {
    let known = Known::of(alloc, history)?;
    let tests = count_operations(history).saturating_mul(known.changing.len());
    if tests > MOST_TESTS {
        return Ok(None);
    }
    let mut found = Touches::none(alloc, history)?;
    let mut op = 0usize;
    let mut entry = 0usize;
    for (place, txn) in history.txns().as_slice().iter().enumerate() {
        let here = Here {
            txn: txn.no,
            place,
            op,
            entry,
        };
        let next = found.push_txn(alloc, &known, history, txn, here)?;
        op = next.op;
        entry = next.entry;
    }
    if found.touches.len() > MOST_TOUCHES {
        return Ok(None);
    }
    found.touches.sort_by_key(|touch| touch.touched)?;
    found.inserted.sort()?;
    found.inserted.dedup();
    Ok(Some(found))
}

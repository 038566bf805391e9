//! Removes rows from a history.

ghost use Rattle.std.specs.Prelude.{◌≡◌, map, IfOk, IfSome};
ghost use Rattle.std.specs.FinMap.{retain_keys};
ghost use Rattle.std.specs.FinMap.Entries.{where_key};
ghost use Rattle.lab_table.specs.Row.{Row, row_cmp};
ghost use Rattle.lab_cut.specs.PartOf.{IsPartOf};
ghost use Rattle.lab_cut.specs.InRows as spec;
ghost use Rattle.lab_cut.specs.Chosen.{has};

use crate::made::made;
use lab_history::{History, Installed, Installers, Op, Ops, Parts, Rows, Txn, Txns, View, Writes};
use lab_table::{ByRow, NoMemory, RowName, Table};
use std::alloc::Global;

/// Returns the history with only these rows in its lists, and the same statements. Returns `None` if the rest isn't a
/// history.
pub fn with_rows(
    alloc: Global,
    history: &History,
    rows: &[RowName],
) -> Result<Option<History>, NoMemory>
    ensures part { IfOk result (λ left. IfSome left (λ part. IsPartOf part history.now)) }
    ensures exact { IfOk result (λ left. IfSome left (λ part. part ≡ spec.in_rows (spec.is_among rows.now) history.now)) }
{
    let chosen = Chosen::of(alloc, rows)?;
    made(alloc, chosen.parts(alloc, history)?)
}

/// Rows that are chosen.
#[derive(Drop)]
pub struct Chosen {
    rows: ByRow<()>,
}

impl Chosen {
    /// These rows.
    fn of(alloc: Global, rows: &[RowName]) -> Result<Chosen, NoMemory>
        ensures { IfOk result (λ chosen. (row : Row) → has chosen row ≡ spec.is_among rows.now row) }
    {
        let mut chosen = Chosen {
            rows: ByRow::new(alloc),
        };
        for row in rows {
            chosen.rows.put(*row, ())?;
        }
        Ok(chosen)
    }

    fn has(&self, row: RowName) -> bool
        ensures { result ≡ has self.now row }
    {
        self.rows.get(row).is_some()
    }

    /// The entries of these rows.
    fn entries<X: Copy>(
        &self,
        alloc: Global,
        entries: &[(RowName, X)],
    ) -> Result<Vec<(RowName, X)>, NoMemory>
        ensures { IfOk result (λ left. left.items ≡ where_key row_cmp (has self.now) entries.now) }
    {
        let mut left = Vec::with_capacity(alloc, entries.len())?;
        for entry in entries {
            if self.has(entry.0) {
                left.push(*entry)?;
            }
        }
        Ok(left)
    }

    fn table(&self, alloc: Global, table: &Table) -> Result<Table, NoMemory>
        ensures { IfOk result (λ left. left ≡ retain_keys table.now (has self.now)) }
    {
        let left = self.entries(alloc, table.rows())?;
        Ok(Table::from_rising(left))
    }

    fn view(&self, alloc: Global, view: &View) -> Result<View, NoMemory>
        ensures { IfOk result (λ left. left ≡ retain_keys view.now (has self.now)) }
    {
        let left = self.entries(alloc, view.entries())?;
        Ok(View::new(left))
    }

    fn rows(&self, alloc: Global, rows: &Rows) -> Result<Rows, NoMemory>
        ensures { IfOk result (λ left. left ≡ retain_keys rows.now (has self.now)) }
    {
        let left = self.entries(alloc, rows.entries())?;
        Ok(Rows::new(left))
    }

    fn writes(&self, alloc: Global, writes: &Writes) -> Result<Writes, NoMemory>
        ensures { IfOk result (λ left. left ≡ retain_keys writes.now (has self.now)) }
    {
        let left = self.entries(alloc, writes.entries())?;
        Ok(Writes::new(left))
    }

    /// The installers of these rows, of a list.
    fn lists(
        &self,
        alloc: Global,
        entries: &[(RowName, Installers)],
    ) -> Result<Vec<(RowName, Installers)>, NoMemory>
        ensures { IfOk result (λ left. left.items ≡ where_key row_cmp (has self.now) entries.now) }
    {
        let mut left = Vec::with_capacity(alloc, entries.len())?;
        for (row, installers) in entries {
            if self.has(*row) {
                left.push((*row, installers.copy(alloc)?))?;
            }
        }
        Ok(left)
    }

    fn installed(&self, alloc: Global, installed: &Installed) -> Result<Installed, NoMemory>
        ensures { IfOk result (λ left. left ≡ retain_keys installed.now (has self.now)) }
    {
        let left = self.lists(alloc, installed.entries())?;
        Ok(Installed::new(left))
    }

    fn op(&self, alloc: Global, op: &Op) -> Result<Op, NoMemory>
        ensures { IfOk result (λ left. left ≡ spec.op_in_rows (has self.now) op.now) }
    {
        Ok(Op {
            statement: op.statement.copy(alloc)?,
            view: self.view(alloc, &op.view)?,
            rows: self.rows(alloc, &op.rows)?,
            writes: self.writes(alloc, &op.writes)?,
        })
    }

    fn ops(&self, alloc: Global, ops: &[Op]) -> Result<Vec<Op>, NoMemory>
        ensures { IfOk result (λ left. left.items ≡ map (spec.op_in_rows (has self.now)) ops.now) }
    {
        let mut left = Vec::with_capacity(alloc, ops.len())?;
        for op in ops {
            left.push(self.op(alloc, op)?)?;
        }
        Ok(left)
    }

    fn txns(&self, alloc: Global, txns: &[Txn]) -> Result<Vec<Txn>, NoMemory>
        ensures { IfOk result (λ left. left.items ≡ map (spec.txn_in_rows (has self.now)) txns.now) }
    {
        let mut left = Vec::with_capacity(alloc, txns.len())?;
        for txn in txns {
            left.push(Txn {
                no: txn.no,
                outcome: txn.outcome,
                ops: Ops::new(self.ops(alloc, txn.ops.as_slice())?),
            })?;
        }
        Ok(left)
    }

    /// The parts of a history of these rows.
    fn parts(&self, alloc: Global, history: &History) -> Result<Parts, NoMemory>
        ensures { IfOk result (λ parts. parts ≡ spec.in_rows (has self.now) history.now) }
    {
        Ok(Parts {
            initial: self.table(alloc, history.initial())?,
            txns: Txns::new(self.txns(alloc, history.txns().as_slice())?),
            installed: self.installed(alloc, history.installed())?,
            end_table: self.table(alloc, history.end_table())?,
        })
    }
}

//! Tests of building histories from parts.

use crate::alike::alike_parts;
use lab_history::{
    FileFault, History, Installed, Installers, Limit, ListPlace, Op, Ops, Outcome, Parts, Path,
    Rows, State, Txn, Txns, VersionName, View, Writes,
};
use lab_refusal_tests::{refuse, was_refused};
use lab_table::{Expr, RowId, RowName, Statement, StatementKind, Table, TableName, TxnNo, Value};
use std::alloc::Global;
use std::process::Abort;
use std::test::Fail;

fn row(number: u32) -> Option<RowName> {
    Some(RowName::in_test(RowId::new(number)?))
}

/// The table of this number: `test` at 1, and `b`, `c` and so on behind it.
fn table_name(alloc: Global, number: u32) -> Option<TableName> {
    if number <= 1 {
        return Some(TableName::test());
    }
    let letter = [b'a' + number.min(26) as u8 - 1];
    TableName::new(alloc, &letter).ok()?
}

/// The initial version, or that of this operation of transaction 1.
fn version(op: Option<u32>) -> Option<VersionName> {
    match op {
        None => Some(VersionName::Initial),
        Some(op) => {
            let txn = TxnNo::new(1)?;
            Some(VersionName::Of { txn, op })
        }
    }
}

fn view_of(alloc: Global, version: VersionName) -> Option<View> {
    let entries = vec![in alloc; (row(1)?, version)].ok()?;
    View::from_entries(entries).ok()
}

fn rows_of(alloc: Global, value: Value) -> Option<Rows> {
    let entries = vec![in alloc; (row(1)?, value)].ok()?;
    Rows::from_entries(entries).ok()
}

fn writes_of(alloc: Global, value: Value) -> Option<Writes> {
    let entries = vec![in alloc; (row(2)?, State::Present(value))].ok()?;
    Writes::from_entries(entries).ok()
}

/// An update of a table that saw this version of row 1, and wrote row 2.
fn update(alloc: Global, value: Value, version: VersionName, table: TableName) -> Option<Op> {
    let lists = view_of(alloc, version).zip(rows_of(alloc, value));
    let ((view, rows), writes) = lists.zip(writes_of(alloc, value))?;
    let kind = StatementKind::Update {
        expr: Expr::Plus(value),
        pred: None,
    };
    Some(Op {
        statement: Statement { table, kind },
        view,
        rows,
        writes,
    })
}

/// A transaction with one update of a table, which saw row 1 as this operation of transaction 1 left it, or as it was
/// initially.
fn txn(alloc: Global, number: u32, op: Option<u32>, table: TableName) -> Option<Txn> {
    let no = TxnNo::new(number)?;
    let value = Value::new(i64::from(number))?;
    let op = update(alloc, value, version(op)?, table)?;
    let ops = Ops::new(vec![in alloc; op].ok()?);
    let outcome = if number % 2 == 0 {
        Outcome::Aborted
    } else {
        Outcome::Committed
    };
    Some(Txn { no, outcome, ops })
}

/// Rows 1 to a number; transactions 1 to a number and one more, which see this operation; and so many installers of
/// row 1. Of so many tables the last one is named by the last transaction's statement alone, and each of the others has
/// a row.
#[derive(Clone, Copy, Debug)]
struct Shape {
    tables: u32,
    rows: u32,
    txns: u32,
    last: u32,
    op: Option<u32>,
    installers: usize,
}

/// Adds the rows of `test`, and one of each other table but the last.
fn add_rows(alloc: Global, table: &mut Table, shape: Shape) -> Option<()> {
    let value = Value::new(0)?;
    for number in 1..=shape.rows {
        table.add(alloc, row(number)?, value).ok()?;
    }
    for number in 2..shape.tables {
        let mut row = row(1)?;
        row.table = table_name(alloc, number)?;
        table.add(alloc, row, value).ok()?;
    }
    Some(())
}

fn initial(alloc: Global, shape: Shape) -> Option<Table> {
    let mut table = Table::new(alloc);
    add_rows(alloc, &mut table, shape).and(Some(table))
}

fn end_table(alloc: Global) -> Option<Table> {
    let mut table = Table::new(alloc);
    let added = table.add(alloc, row(2)?, Value::new(7)?);
    added.ok().and(Some(table))
}

fn add_txns(alloc: Global, txns: &mut Vec<Txn>, shape: Shape) -> Option<()> {
    for number in 1..=shape.txns {
        txns.push(txn(alloc, number, shape.op, TableName::test())?)
            .ok()?;
    }
    let table = table_name(alloc, shape.tables)?;
    txns.push(txn(alloc, shape.last, shape.op, table)?).ok()
}

fn txns(alloc: Global, shape: Shape) -> Option<Vec<Txn>> {
    let mut txns = Vec::new(alloc);
    add_txns(alloc, &mut txns, shape).and(Some(txns))
}

fn installed(alloc: Global, shape: Shape) -> Option<Installed> {
    let numbers = vec![in alloc; TxnNo::new(1)?; shape.installers].ok()?;
    let entry = (row(1)?, Installers::new(numbers));
    Installed::from_entries(vec![in alloc; entry].ok()?).ok()
}

fn parts(alloc: Global, shape: Shape) -> Option<Parts> {
    let tables = initial(alloc, shape).zip(end_table(alloc));
    let lists = installed(alloc, shape).zip(txns(alloc, shape));
    let ((initial, end_table), (installed, txns)) = tables.zip(lists)?;
    Some(Parts {
        initial,
        txns: Txns::new(txns),
        installed,
        end_table,
    })
}

const USUAL: Shape = Shape {
    tables: 1,
    rows: 2,
    txns: 1,
    last: 2,
    op: Some(1),
    installers: 1,
};

/// The view of the first transaction's first operation.
const VIEW: ListPlace = ListPlace::View { txn: 0, op: 0 };

fn wrong(place: ListPlace) -> Option<FileFault> {
    let path = Path::Member {
        list: place,
        index: 0,
    };
    Some(FileFault::WrongFormat { path })
}

fn over(which: Limit) -> Option<FileFault> {
    Some(FileFault::OverLimit { which })
}

/// Whether the parts came back as they were, where there is a fault; and the fault.
fn came_back(
    alloc: Global,
    made: &Result<History, (Parts, FileFault)>,
    given: &Parts,
) -> (bool, Option<FileFault>) {
    match made {
        Ok(_) => (true, None),
        Err((parts, fault)) => (alike_parts(alloc, parts, given), Some(*fault)),
    }
}

/// The same of the history of these parts.
fn made_of(alloc: Global, parts: Parts, given: &Parts) -> (bool, Option<FileFault>) {
    let made = History::from_parts(alloc, parts);
    let answer = came_back(alloc, &made, given);
    drop(made);
    answer
}

/// The same of a shape.
fn made(alloc: Global, shape: Shape) -> Option<(bool, Option<FileFault>)> {
    let (parts, given) = parts(alloc, shape).zip(parts(alloc, shape))?;
    let answer = made_of(alloc, parts, &given);
    drop(given);
    Some(answer)
}

/// What is due of parts.
#[derive(Clone, Copy)]
enum Due {
    Made,
    Over(Limit),
    /// Transaction 1 is there twice.
    Repeated,
    /// A list's first entry.
    Wrong(ListPlace),
}

fn fault_of(due: Due) -> Option<FileFault> {
    match due {
        Due::Made => None,
        Due::Over(which) => over(which),
        Due::Repeated => {
            let no = TxnNo::new(1)?;
            Some(FileFault::RepeatedTxn { no })
        }
        Due::Wrong(place) => wrong(place),
    }
}

/// What a shape has, and what is due of it.
static SHAPES: [(u32, u32, u32, u32, Option<u32>, usize, Due); 14] = [
    (1, 1_000, 999, 1_000, Some(1), 1, Due::Made),
    (1, 1_001, 1, 2, Some(1), 1, Due::Over(Limit::Ids)),
    (1, 2, 1_000, 1, Some(1), 1, Due::Over(Limit::Transactions)),
    (1, 2, 3, 1, Some(1), 1, Due::Repeated),
    (1, 2, 1, 2, None, 1, Due::Wrong(VIEW)),
    (1, 2, 1, 2, Some(0), 1, Due::Wrong(VIEW)),
    (1, 2, 1, 2, Some(10_000), 1, Due::Made),
    (1, 2, 1, 2, Some(10_001), 1, Due::Wrong(VIEW)),
    (1, 2, 1, 2, Some(1), 0, Due::Wrong(ListPlace::Installed)),
    (4, 996, 1, 2, Some(1), 1, Due::Made),
    (4, 999, 1, 2, Some(1), 1, Due::Over(Limit::Ids)),
    (5, 2, 1, 2, Some(1), 1, Due::Over(Limit::Tables)),
    (5, 1_001, 1, 2, Some(1), 1, Due::Over(Limit::Tables)),
    (5, 2, 1_000, 1, Some(1), 1, Due::Over(Limit::Transactions)),
];

#[test]
fn parts_that_are_no_history(rt: HostRuntime) -> Result<(), Fail> {
    for (tables, rows, txns, last, op, installers, due) in &SHAPES {
        let shape = Shape {
            tables: *tables,
            rows: *rows,
            txns: *txns,
            last: *last,
            op: *op,
            installers: *installers,
        };
        let made = made(rt.alloc(), shape);
        assert!(rt; made == Some((true, fault_of(*due))), "{shape:?}");
    }
    Ok(())
}

/// Whether with an allocation refused parts of this shape are what they are due to be, or come back for want of memory;
/// and whether an allocation was refused.
fn tried(
    alloc: Global,
    growth: u16,
    shape: Shape,
    given: &Parts,
    due: &Option<FileFault>,
) -> Option<(bool, bool)> {
    let parts = parts(alloc, shape)?;
    refuse(alloc, growth);
    let made = History::from_parts(alloc, parts);
    let refused = was_refused(alloc);
    let (came_back, fault) = came_back(alloc, &made, given);
    drop(made);
    let right = came_back && (fault == *due || refused && fault == Some(FileFault::NoMemory));
    Some((right, refused))
}

/// Fails where it isn't so at each allocation.
fn shows_tried(
    rt: &impl Abort,
    alloc: Global,
    shape: Shape,
    given: &Parts,
    due: &Option<FileFault>,
) -> Result<(), &'static str> {
    for growth in 1..1_000u16 {
        let (right, refused) = tried(alloc, growth, shape, given, due).ok_or("parts")?;
        assert!(rt; right, "{shape:?} at growth {growth}");
        if !refused {
            return Ok(());
        }
    }
    Err("no end of growths")
}

#[test]
fn parts_that_are_refused_memory_come_back(rt: HostRuntime) -> Result<(), Fail> {
    // Rows are counted only where they don't lie close together, as these 1,001 don't.
    let many = Shape {
        rows: 1_001,
        ..USUAL
    };
    for (shape, due) in [(USUAL, None), (many, over(Limit::Ids))] {
        let given = parts(rt.alloc(), shape).ok_or("parts")?;
        let shown = shows_tried(&rt, rt.alloc(), shape, &given, &due);
        drop(given);
        shown?;
    }
    Ok(())
}

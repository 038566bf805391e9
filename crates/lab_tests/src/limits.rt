//! Values that no text can spell, and the faults that printing them returns.

use lab_printing::{PrintFault, check_statement};
use lab_script::{Line, Lines, Script, print_script, print_transcript, run_serial};
use lab_statement::print_statement;
use lab_table::{
    Col, Command, Numbers, Pred, PredKind, RowId, RowName, Session, Statement, StatementKind,
    Table, TableName, Value,
};
use std::alloc::Global;
use std::test::Fail;

fn select_of(table: TableName, pred: Option<Pred>) -> Statement {
    Statement {
        table,
        kind: StatementKind::Select { pred },
    }
}

/// `select * from test where not not .. id in (1, 1, ..)`: 31 bytes, 4 for each `not` and 3 for each number.
fn select(alloc: Global, nots: usize, numbers: usize) -> Option<Statement> {
    let one = Value::new(1)?;
    let numbers = Numbers::new(vec![in alloc; one; numbers].ok()?);
    let col = Col::Id;
    let mut pred = Pred {
        kind: PredKind::OneOf { col, numbers },
    };
    for _ in 0..nots {
        pred = Pred {
            kind: PredKind::Not(Box::new(alloc, pred).ok()?),
        };
    }
    Some(select_of(TableName::test(), Some(pred)))
}

/// Adds so many rows from row 100 on, all 0 but the last.
fn add_rows(alloc: Global, table: &mut Table, count: u32, last: i64) -> Option<()> {
    for index in 0..count.min(1_000) {
        let value = if index + 1 == count { last } else { 0 };
        let row = RowName::in_test(RowId::new(100 + index)?);
        table.add(alloc, row, Value::new(value)?).ok()?;
    }
    Some(())
}

/// The table of these rows.
fn table(alloc: Global, count: u32, last: i64) -> Option<Table> {
    let mut table = Table::new(alloc);
    add_rows(alloc, &mut table, count, last).and(Some(table))
}

fn put(lines: &mut Lines, command: Command) -> Option<()> {
    let Some(session) = Session::new(1) else {
        drop(command);
        return None;
    };
    let text_line = 0;
    lines
        .push(Line {
            session,
            command,
            text_line,
        })
        .ok()
}

fn put_begins(lines: &mut Lines, count: usize) -> Option<()> {
    for _ in 0..count {
        put(lines, Command::Begin)?;
    }
    Some(())
}

/// Adds a select from each table whose name is one of the first letters.
fn put_selects(alloc: Global, lines: &mut Lines, letters: u8) -> Option<()> {
    for number in 0..letters.min(26) {
        let name = TableName::new(alloc, &[b'a' + number]).ok()??;
        put(lines, Command::Run(select_of(name, None)))?;
    }
    Some(())
}

/// A script of so many begins and this statement.
fn script(alloc: Global, begins: usize, statement: Statement) -> Option<Script> {
    let mut lines = Lines::new(Vec::new(alloc));
    let put = match put_begins(&mut lines, begins) {
        Some(()) => put(&mut lines, Command::Run(statement)),
        None => {
            drop(statement);
            None
        }
    };
    let setup = Table::new(alloc);
    put.and(Some(Script { setup, lines }))
}

/// Why a script's transcript isn't printed.
fn transcript(alloc: Global, script: &Script) -> Option<Option<PrintFault>> {
    let output = run_serial(alloc, script).ok()?;
    let fault = print_transcript(alloc, &output).err();
    drop(output);
    Some(fault)
}

/// Whether a script has this fault, and its transcript that one.
fn has_faults(
    alloc: Global,
    script: Script,
    fault: Option<PrintFault>,
    of_transcript: Option<PrintFault>,
) -> bool {
    let right = print_script(alloc, &script).err() == fault
        && transcript(alloc, &script) == Some(of_transcript);
    drop(script);
    right
}

/// Whether a statement's text is as long as this, or it has none by this fault.
fn is_long(alloc: Global, statement: &Statement, expected: Result<usize, PrintFault>) -> bool {
    let length = print_statement(alloc, statement).map(|text| text.len());
    length == expected && check_statement(statement).err() == expected.err()
}

/// Whether it is so of a select, also in a script where no transaction has begun, whose transcript shows nothing of it,
/// and behind a begin.
fn is_long_throughout(
    alloc: Global,
    nots: usize,
    numbers: usize,
    expected: Result<usize, PrintFault>,
) -> Option<bool> {
    let fault = expected.err();
    let statement = select(alloc, nots, numbers)?;
    let is_long = is_long(alloc, &statement, expected);
    let left_out = has_faults(alloc, script(alloc, 0, statement)?, fault, None);
    let statement = select(alloc, nots, numbers)?;
    let shown = has_faults(alloc, script(alloc, 1, statement)?, fault, fault);
    Some(is_long && left_out && shown)
}

/// How many `not`s and numbers a select has, and how long its text is, or why it has none.
static SELECTS: [(usize, usize, Result<usize, PrintFault>); 7] = [
    (16, 1, Ok(98)),
    (17, 1, Err(PrintFault::TooDeep)),
    (0, 323, Ok(1000)),
    (0, 324, Err(PrintFault::TooLong)),
    (1, 322, Err(PrintFault::TooLong)),
    // too long as well
    (300, 1, Err(PrintFault::TooDeep)),
    (17, 400, Err(PrintFault::TooDeep)),
];

#[test]
fn statements_past_their_limits_are_not_printed(rt: HostRuntime) -> Result<(), Fail> {
    for (nots, numbers, expected) in &SELECTS {
        let so = is_long_throughout(rt.alloc(), *nots, *numbers, *expected);
        assert_eq!(rt; so, Some(true), "{nots} {numbers}");
    }
    Ok(())
}

/// A script of a table of so many rows, so many begins, a select from `test`, and one from each of so many tables.
fn script_of(alloc: Global, rows: u32, last: i64, begins: usize, letters: u8) -> Option<Script> {
    let setup = table(alloc, rows, last)?;
    let Some(script) = script(alloc, begins, select_of(TableName::test(), None)) else {
        drop(setup);
        return None;
    };
    let Script { lines, .. } = script;
    let mut lines = lines;
    let put = put_selects(alloc, &mut lines, letters);
    put.and(Some(Script { setup, lines }))
}

/// Whether its text is as long as this, or it has none by this fault.
fn is_script_long(
    alloc: Global,
    script: Option<Script>,
    expected: Result<usize, PrintFault>,
) -> Option<bool> {
    let script = script?;
    let length = print_script(alloc, &script).map(|text| text.len());
    drop(script);
    Some(length == expected)
}

/// The rows, the last value, the begins and the letters of a script, and how long its text is, or why it has none.
static SCRIPTS: [(u32, i64, usize, u8, Result<usize, PrintFault>); 6] = [
    (399, 100_000, 1_998, 0, Ok(4_001 + 1_998 * 13 + 26)),
    (399, 100_000, 1_999, 0, Err(PrintFault::TooLong)),
    (399, 1_000_000, 0, 0, Err(PrintFault::TooLong)),
    (0, 0, 0, 0, Ok(10 + 26)),
    (0, 0, 0, 3, Ok(10 + 26 + 3 * 23)),
    (0, 0, 0, 4, Err(PrintFault::TooManyTables)),
];

#[test]
fn scripts_past_their_limits_are_not_printed(rt: HostRuntime) -> Result<(), Fail> {
    // 399 rows with a last value of six digits have a setup line of 4,000 bytes; a begin has 13 with its newline,
    // the statement 26, and one of a table whose name is a letter 23.
    for (rows, last, begins, letters, expected) in &SCRIPTS {
        let script = script_of(rt.alloc(), *rows, *last, *begins, *letters);
        let long = is_script_long(rt.alloc(), script, *expected);
        assert_eq!(rt; long, Some(true), "{rows} {last} {begins} {letters}");
    }
    Ok(())
}

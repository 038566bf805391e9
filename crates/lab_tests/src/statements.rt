//! Texts of one statement with their faults, and statements built in code.

use lab_statement::{ScriptFault, parse_statement, print_script_fault};
use lab_table::{NoMemory, RowId, RowName, TableFault, TableName};
use std::alloc::{AllocError, Global};
use std::test::Fail;

/// The line that tells a text's fault; nothing where it is read.
fn outcome(alloc: Global, text: &[u8]) -> Result<Vec<u8>, NoMemory> {
    match parse_statement(alloc, text).err() {
        None => Ok(Vec::new(alloc)),
        Some(ScriptFault::NoMemory) => Err(AllocError),
        Some(fault) => print_script_fault(alloc, &fault),
    }
}

/// Whether this line tells the fault of a text behind so many spaces.
fn is_told(alloc: Global, spaces: usize, text: &str, fault: &str) -> Result<bool, NoMemory> {
    let mut code = vec![in alloc; b' '; spaces]?;
    code.extend_from_slice(text.as_bytes())?;
    let told = outcome(alloc, &code)?;
    Ok(told.as_slice() == fault.as_bytes())
}

/// Texts behind so many spaces, and the lines of their faults.
static TEXTS: [(usize, &str, &str); 14] = [
    (0, "select * from test", ""),
    (1, "\tSELECT * FROM test ; ", ""),
    (3_982, "select * from test", ""),
    (3_983, "select * from test", "line 1: TooLong\n"),
    (0, "", "line 1: UnknownStatement\n"),
    (0, "begin", "line 1: UnknownStatement\n"),
    (0, "delete from test; begin", "line 1: UnknownStatement\n"),
    (0, "select * from test;;", "line 1: UnknownStatement\n"),
    (0, "select * from test\n", "line 1: NotAscii\n"),
    (0, "select * from test -- T1", "line 1: UnknownStatement\n"),
    (0, "select * from test; --", "line 1: UnknownStatement\n"),
    (
        0,
        "select * from test where id = --1",
        "line 1: BadPredicate\n",
    ),
    (
        0,
        "select * from test where id = 1000000001 --",
        "line 1: NumberOutOfRange\n",
    ),
    (0, "select * from test -- \u{e9}", "line 1: NotAscii\n"),
];

#[test]
fn a_statement_is_code_alone(rt: HostRuntime) -> Result<(), Fail> {
    for (spaces, text, fault) in &TEXTS {
        assert!(rt;
            is_told(rt.alloc(), *spaces, text, fault)?,
            "{spaces} {text}"
        );
    }
    Ok(())
}

/// Whether a refusal has these words.
fn has_words(alloc: Global, fault: TableFault, words: &str) -> Result<bool, NoMemory> {
    let text = format!(in alloc; "{fault}")?;
    Ok(text.as_str() == words)
}

#[test]
fn refusals_of_a_table_have_words(rt: HostRuntime) -> Result<(), Fail> {
    let id = RowName::in_test(RowId::new(3).ok_or("a row")?);
    for (fault, words) in [
        (TableFault::NoMemory, "no memory"),
        (TableFault::DuplicateKey { id }, "the row is present"),
        (TableFault::OutOfRange { id }, "a new value is out of range"),
    ] {
        assert!(rt; has_words(rt.alloc(), fault, words)?, "{words}");
    }
    Ok(())
}

/// Texts in either case, and whether each is the name of a table.
static NAMES: [(&str, bool); 36] = [
    ("test", true),
    ("TEST", true),
    ("a", true),
    ("Z", true),
    ("_", true),
    ("New_Stock", true),
    ("tests", true),
    ("sixteen_letters_", true),
    ("seventeen_letters", false),
    ("", false),
    ("stock2", false),
    ("no stock", false),
    ("stock-", false),
    ("setup", false),
    ("begin", false),
    ("commit", false),
    ("abort", false),
    ("rollback", false),
    ("set", false),
    ("transaction", false),
    ("isolation", false),
    ("level", false),
    ("select", false),
    ("from", false),
    ("where", false),
    ("update", false),
    ("Value", false),
    ("insert", false),
    ("into", false),
    ("ID", false),
    ("values", false),
    ("delete", false),
    ("and", false),
    ("or", false),
    ("not", false),
    ("in", false),
];

/// Whether a table has this name, and is `test` where the name is, as its rows and their copies are.
fn is_table(table: TableName, id: RowId, name: &str) -> bool {
    let is_test = name == "test";
    table.as_bytes() == name.as_bytes()
        && table.copy() == table
        && (table == TableName::test()) == is_test
        && is_row(RowName { table, id }, is_test)
}

/// Whether a row is of `test` where that is said, as its copy is.
fn is_row(row: RowName, is_test: bool) -> bool {
    row.copy() == row && (row == RowName::in_test(row.id)) == is_test
}

/// Whether the table of a name has it in lower case; nothing where the text is no name.
fn is_named(alloc: Global, id: RowId, text: &str) -> Result<Option<bool>, NoMemory> {
    match TableName::new(alloc, text.as_bytes())? {
        None => Ok(None),
        Some(table) => {
            let lower = text.to_ascii_lowercase(alloc)?;
            Ok(Some(is_table(table, id, lower.as_str())))
        }
    }
}

/// Whether a text is the name of a table or not, as is due.
fn is_due(alloc: Global, id: RowId, text: &str, named: bool) -> bool {
    match is_named(alloc, id, text) {
        Ok(Some(is_right)) => named && is_right,
        Ok(None) => !named,
        Err(_) => false,
    }
}

#[test]
fn tables_are_named_by_short_words(rt: HostRuntime) -> Result<(), Fail> {
    let id = RowId::new(3).ok_or("a row")?;
    for (text, named) in &NAMES {
        assert!(rt; is_due(rt.alloc(), id, text, *named), "{text}");
    }
    Ok(())
}

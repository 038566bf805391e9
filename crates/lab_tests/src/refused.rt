//! Calls with each of their allocations failing in turn. They return `NoMemory`, and what they would change is
//! unchanged; or, if they can do without the allocation, they return the usual result.

use crate::alike::alike_operations;
use lab_history::{FileFault, History, Op};
use lab_history_file::{WriteFault, read_history, write_history};
use lab_printing::PrintFault;
use lab_refusal_tests::{refuse, was_refused};
use lab_script::{Script, parse_script, print_script, print_transcript, run_serial};
use lab_statement::{ScriptFault, parse_statement, print_script_fault, print_statement};
use lab_table::{Command, Statement, Table, TableFault};
use std::alloc::Global;
use std::process::Abort;
use std::test::Fail;

/// The table of a setup.
fn table(alloc: Global, setup: &str) -> Option<Table> {
    let script = parse_script(alloc, setup.as_bytes()).ok()?;
    let Script { setup, .. } = script;
    Some(setup)
}

/// Runs a statement on a copy of a table with an allocation refused. Whether the copy is as it has to be then, and
/// whether a allocation was refused.
fn ran(
    alloc: Global,
    growth: u16,
    statement: &Statement,
    before: &Table,
    after: &Table,
) -> Option<(bool, bool)> {
    let mut table = before.copy(alloc).ok()?;
    refuse(alloc, growth);
    let fault = table.run(alloc, statement).err();
    let refused = was_refused(alloc);
    let right = match fault {
        None => table.rows() == after.rows(),
        Some(fault) => { refused && fault == TableFault::NoMemory && table.rows() == before.rows() }
    };
    drop(table);
    Some((right, refused))
}

/// Fails where it isn't so at each allocation.
fn shows_runs(
    rt: &impl Abort,
    alloc: Global,
    text: &str,
    statement: &Statement,
    before: &Table,
    after: &Table,
) -> Result<(), &'static str> {
    for growth in 1..100u16 {
        let (right, refused) = ran(alloc, growth, statement, before, after).ok_or("a table")?;
        assert!(rt; right, "{text}, at growth {growth}");
        if !refused {
            return Ok(());
        }
    }
    Err("no end of growths")
}

/// Fails where it isn't so of the statement and the setup of these texts.
fn shows_text(
    rt: &impl Abort,
    alloc: Global,
    before: &Table,
    text: &str,
    after: &str,
) -> Result<(), &'static str> {
    let after = table(alloc, after).ok_or("a setup")?;
    let Some(statement) = parse_statement(alloc, text.as_bytes()).ok() else {
        drop(after);
        return Err("a statement");
    };
    let shown = shows_runs(rt, alloc, text, &statement, before, &after);
    drop(statement);
    drop(after);
    shown
}

/// Statements, and the setup of the table that each leaves.
static RUNS: [(&str, &str); 6] = [
    (
        "select * from test",
        "setup (1, 10), (2, 20), (3, 30), stock (3, 24)",
    ),
    (
        "update test set value = 7 where id > 2",
        "setup (1, 10), (2, 20), (3, 7), stock (3, 24)",
    ),
    (
        "delete from test where value < 25",
        "setup (3, 30), stock (3, 24)",
    ),
    ("delete from stock", "setup (1, 10), (2, 20), (3, 30)"),
    (
        "insert into test (id, value) values (9, 90)",
        "setup (1, 10), (2, 20), (3, 30), (9, 90), stock (3, 24)",
    ),
    (
        "insert into stock (id, value) values (2, 90)",
        "setup (1, 10), (2, 20), (3, 30), stock (2, 90), stock (3, 24)",
    ),
];

/// Fails where it isn't so of each.
fn shows_texts(rt: &impl Abort, alloc: Global, before: &Table) -> Result<(), &'static str> {
    for (text, after) in &RUNS {
        shows_text(rt, alloc, before, text, after)?;
    }
    Ok(())
}

#[test]
fn a_table_that_is_refused_memory_is_as_before(rt: HostRuntime) -> Result<(), Fail> {
    // Four rows, so that a fifth needs an allocation.
    let before = table(rt.alloc(), "setup (1, 10), (2, 20), (3, 30), stock (3, 24)");
    let before = before.ok_or("a setup")?;
    let shown = shows_texts(&rt, rt.alloc(), &before);
    drop(before);
    shown?;
    Ok(())
}

/// A statement with every kind of condition.
const EVERY_KIND: &str =
    "update test set value = value - 1 where not value % 3 = -1 and (id in (3, -1, 3) or value <= 10)";

/// The text of a copied statement.
fn text_of(alloc: Global, command: &Command) -> Result<Vec<u8>, PrintFault> {
    match command {
        Command::Run(statement) => print_statement(alloc, statement),
        _ => Ok(Vec::new(alloc)),
    }
}

/// The text of a command's copy.
fn copied(alloc: Global, command: &Command) -> Result<Vec<u8>, PrintFault> {
    let copy = command.copy(alloc)?;
    let text = text_of(alloc, &copy);
    drop(copy);
    text
}

/// The transcript of a script.
fn transcript(alloc: Global, script: &Script) -> Result<Vec<u8>, PrintFault> {
    let output = run_serial(alloc, script)?;
    let text = print_transcript(alloc, &output);
    drop(output);
    text
}

/// The text of a script, with its transcript.
fn with_transcript(alloc: Global, script: &Script) -> Result<Vec<u8>, PrintFault> {
    let mut printed = print_script(alloc, script)?;
    printed.extend_from_slice(&transcript(alloc, script)?)?;
    Ok(printed)
}

/// A text of a script, printed, with its transcript; or the line of its fault.
fn printed(alloc: Global, text: &[u8]) -> Result<Vec<u8>, PrintFault> {
    match parse_script(alloc, text) {
        Ok(script) => {
            let printed = with_transcript(alloc, &script);
            drop(script);
            printed
        }
        Err(ScriptFault::NoMemory) => Err(PrintFault::NoMemory),
        Err(fault) => Ok(print_script_fault(alloc, &fault)?),
    }
}

/// Whether a text was made with an allocation refused, or there was no memory where one was.
fn is_right(made: &Result<Vec<u8>, PrintFault>, expected: &str, refused: bool) -> bool {
    match made {
        Ok(text) => text.as_slice() == expected.as_bytes(),
        Err(fault) => refused && *fault == PrintFault::NoMemory,
    }
}

/// Fails where it isn't so at each allocation of a text's printing; of no text, of that of a command's copy.
fn shows_printed(rt: &impl Abort, alloc: Global, command: &Command, text: &str, expected: &str) {
    let mut succeeded = false;
    for growth in 1..2_000u16 {
        refuse(alloc, growth);
        let made = if text.is_empty() {
            copied(alloc, command)
        } else {
            printed(alloc, text.as_bytes())
        };
        let refused = was_refused(alloc);
        let right = is_right(&made, expected, refused);
        drop(made);
        assert!(rt; right, "at growth {growth}");
        if !refused {
            succeeded = true;
            break;
        }
    }
    assert!(rt; succeeded, "{text}");
}

/// Texts of scripts, and what is printed of each; of no text, of a command's copy.
static PRINTED: [(&str, &str); 3] = [
    ("", EVERY_KIND),
    ("setup ();\nbegin", "line 2: NoSession\n"),
    (
        "Setup (2,20),(1,10)\nbegin; select*from test where not (id=1 and (id=2 or id in(1,2))) -- T1\ncommit -- T1",
        "setup (1, 10), (2, 20);\nbegin; -- T1\nselect * from test where not (id = 1 and (id = 2 or id in (1, 2))); -- T1\ncommit; -- T1\ntxn 1 T1\nselect * from test where not (id = 1 and (id = 2 or id in (1, 2))) -> (2, 20)\ncommit\nend (1, 10), (2, 20)\n",
    ),
];

#[test]
fn texts_that_are_refused_memory_are_not_made(rt: HostRuntime) -> Result<(), Fail> {
    let statement = parse_statement(rt.alloc(), EVERY_KIND.as_bytes());
    let command = Command::Run(statement.ok().ok_or("a statement")?);
    for (text, expected) in &PRINTED {
        shows_printed(&rt, rt.alloc(), &command, text, expected);
    }
    drop(command);
    Ok(())
}

/// A row that is inserted, changed and removed, which another transaction sees.
const SHORT_LIFE: &str =
    r#"{"end":[["test",1,10]],"format":"hermitage-history","initial":[["test",1,10]],"installed":[["test",3,[1]]],"transactions":[{"no":1,"ops":[{"rows":[],"statement":"insert into test (id, value) values (3, 30)","view":[],"writes":[["test",3,30]]},{"rows":[["test",3,30]],"statement":"update test set value = 31 where id = 3","view":[["test",3,1,1]],"writes":[["test",3,31]]},{"rows":[["test",3,31]],"statement":"delete from test where id = 3","view":[["test",3,1,2]],"writes":[["test",3,null]]}],"outcome":"committed"},{"no":2,"ops":[{"rows":[["test",1,10]],"statement":"select * from test","view":[["test",3,1,3]],"writes":[]}],"outcome":"aborted"}],"version":2}"#;

/// The same with its version in front, which is read by way of a value.
const VERSION_FIRST: &str =
    r#"{"version":2,"end":[["test",1,10]],"format":"hermitage-history","initial":[["test",1,10]],"installed":[["test",3,[1]]],"transactions":[{"no":1,"ops":[{"rows":[],"statement":"insert into test (id, value) values (3, 30)","view":[],"writes":[["test",3,30]]},{"rows":[["test",3,30]],"statement":"update test set value = 31 where id = 3","view":[["test",3,1,1]],"writes":[["test",3,31]]},{"rows":[["test",3,31]],"statement":"delete from test where id = 3","view":[["test",3,1,2]],"writes":[["test",3,null]]}],"outcome":"committed"},{"no":2,"ops":[{"rows":[["test",1,10]],"statement":"select * from test","view":[["test",3,1,3]],"writes":[]}],"outcome":"aborted"}]}"#;

/// What a call came to.
#[derive(Clone, Copy, Debug, PartialEq, Eq)]
enum Made {
    Right,
    Wrong,
    NoMemory,
}

/// Whether a history has two transactions.
fn has_two(history: &History) -> Made {
    if history.txns().as_slice().len() == 2 {
        Made::Right
    } else {
        Made::Wrong
    }
}

/// Reads one of those files, and looks whether it gives two transactions.
fn read(alloc: Global, text: &str) -> Made {
    match read_history(alloc, text.as_bytes()) {
        Ok(history) => {
            let made = has_two(&history);
            drop(history);
            made
        }
        Err(FileFault::NoMemory) => Made::NoMemory,
        Err(_) => Made::Wrong,
    }
}

/// Writes a history, and looks whether it gives the first of them.
fn written(alloc: Global, history: &History) -> Made {
    match write_history(alloc, history) {
        Ok(text) => {
            if text.as_slice() == SHORT_LIFE.as_bytes() {
                Made::Right
            } else {
                Made::Wrong
            }
        }
        Err(WriteFault::NoMemory) => Made::NoMemory,
        Err(_) => Made::Wrong,
    }
}

fn copied_alike(alloc: Global, copy: &Op, operation: &Op) -> Made {
    if alike_operations(alloc, copy, operation) {
        Made::Right
    } else {
        Made::Wrong
    }
}

/// Copies the first transaction's second operation, and looks whether it is alike, for which there is memory again. And
/// whether an allocation was refused.
fn copied_operation(alloc: Global, history: &History) -> (Made, bool) {
    let [first, ..] = history.txns().as_slice() else {
        return (Made::Wrong, false);
    };
    let [_, second, ..] = first.ops.as_slice() else {
        return (Made::Wrong, false);
    };
    let copy = second.copy(alloc);
    let refused = was_refused(alloc);
    let made = match &copy {
        Ok(copy) => copied_alike(alloc, copy, second),
        Err(_) => Made::NoMemory,
    };
    drop(copy);
    (made, refused)
}

/// One of the four calls, and whether an allocation was refused.
fn outcome(alloc: Global, history: &History, call: u8) -> (Made, bool) {
    if call == 3 {
        return copied_operation(alloc, history);
    }
    let made = if call == 0 {
        read(alloc, SHORT_LIFE)
    } else if call == 1 {
        read(alloc, VERSION_FIRST)
    } else {
        written(alloc, history)
    };
    (made, was_refused(alloc))
}

/// Fails where a call isn't right with one of its allocations refused, or has no last allocation.
fn shows_outcome(rt: &impl Abort, alloc: Global, history: &History, call: u8) {
    let mut succeeded = false;
    for growth in 1..5_000u16 {
        refuse(alloc, growth);
        let (made, refused) = outcome(alloc, history, call);
        assert!(rt; made != Made::Wrong, "{call}, at growth {growth}");
        assert!(rt;
            refused || made == Made::Right,
            "{call}, at growth {growth}"
        );
        if !refused {
            succeeded = true;
            break;
        }
    }
    assert!(rt; succeeded, "{call}");
}

#[test]
fn histories_that_are_refused_memory_are_not_made(rt: HostRuntime) -> Result<(), Fail> {
    let whole = read_history(rt.alloc(), SHORT_LIFE.as_bytes());
    let whole = whole.ok().ok_or("a history")?;
    for call in 0..4u8 {
        shows_outcome(&rt, rt.alloc(), &whole, call);
    }
    drop(whole);
    Ok(())
}

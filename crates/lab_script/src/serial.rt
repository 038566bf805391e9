//! Runs the transactions of a script one after another.

ghost use Rattle.std.specs.Prelude.{◌≡◌, ◌++◌, ◌&&◌, not, None, Some, cond, IfOk, IfSome, OnOk};
ghost use Rattle.std.specs.Option.{option_or};
ghost use Rattle.lab_script.specs.Limits.{AllPrint, SomeLine};
ghost use Rattle.lab_script.specs.TranscriptView.{Breaks, ended_by, first_broken, limit_broken, shown_of, unprintable};
ghost use Rattle.lab_script.specs.Transcript.{body_of, end_text, inside_after, is_begin, sessions_in, statement_text, table_after, table_with, transcript, transaction_of, transaction_text};

use crate::script::{Line, Script};
use crate::transcript::{
    Transcript, spell_end, spell_fault, spell_heading, spell_rows, spell_table,
};
use lab_printing::append_result;
use lab_table::{Command, NoMemory, PerSession, Session, Statement, Table};
use std::alloc::{AllocError, Global};

/// Runs the transactions of a script one after another, each as a whole, in the order of their begins. Ignores a begin
/// inside a transaction, and any other command outside of one.
pub fn run_serial(alloc: Global, script: &Script) -> Result<Transcript, NoMemory>
    ensures text { IfOk result (λ output. output.text ≡ transcript script.now) }
    ensures unprintable { IfOk result (λ output. output.unprintable ≡ unprintable script.now) }
    ensures printed { IfOk result (λ output. AllPrint script.now.lines → output.unprintable ≡ None) }
    ensures broken { IfOk result (λ output. IfSome output.unprintable (λ fault. SomeLine (Breaks fault) script.now)) }
{
    let mut table = script.setup.copy(alloc)?;
    let mut output = Transcript::new(alloc);
    let mut inside = PerSession::all(false);
    let mut number = 0;
    let mut rest = script.lines.as_slice();
    // A session's transactions don't overlap: all of them together pass over a line once a session at most.
    while let Some((line, later)) = rest.split_first() {
        rest = later;
        let starts = begins(&inside, line);
        note(&mut inside, line);
        if !starts {
            continue;
        }
        number += 1;
        run_transaction(alloc, &mut output, &mut table, number, line.session, later)?;
    }
    if spell_table(&mut output.text, table.rows()) {
        Ok(output)
    } else {
        Err(AllocError)
    }
}

/// Whether a line begins a transaction.
fn begins(inside: &PerSession<bool>, line: &Line) -> bool
    ensures { result ≡ (is_begin line.now.command && not (sessions_in inside.now line.now.session)) }
{
    matches!(line.command, Command::Begin) && !inside.get(line.session)
}

/// Notes whether a line's session is inside a transaction after it.
fn note(inside: &mut PerSession<bool>, line: &Line)
    ensures { sessions_in inside.new ≡ inside_after (sessions_in inside.old) line.now.session line.now.command }
{
    match line.command {
        Command::Begin => inside.set(line.session, true),
        Command::Commit | Command::Abort => inside.set(line.session, false),
        Command::Run(_) => {}
    }
}

/// Runs the transaction of a session whose begin stands before these lines, and appends its lines.
/// An abort puts the table back.
fn run_transaction(
    alloc: Global,
    output: &mut Transcript,
    table: &mut Table,
    number: usize,
    session: Session,
    lines: &[Line],
) -> Result<(), NoMemory>
    ensures text { OnOk result (output.new.text ≡ output.old.text ++ transaction_text number table.old (transaction_of session lines.now)) }
    ensures unprintable { OnOk result (output.new.unprintable ≡ first_broken output.old.unprintable (shown_of table.old (body_of session lines.now).0)) }
    ensures table { OnOk result (table.new ≡ table_after table.old (transaction_of session lines.now)) }
{
    if !spell_heading(&mut output.text, number, session) {
        return Err(AllocError);
    }
    let before = table.copy(alloc)?;
    match run_body(alloc, output, table, session, lines) {
        Ok(commits) => {
            drop(if commits {
                before
            } else {
                std::mem::replace(table, before)
            });
            append_result(spell_end(&mut output.text, commits))
        }
        Err(refused) => {
            drop(before);
            Err(refused)
        }
    }
}

/// Runs a statement and appends its line. Answers whether it ran: one that is refused leaves the table as it was.
fn run_statement(
    alloc: Global,
    output: &mut Transcript,
    table: &mut Table,
    statement: &Statement,
) -> Result<bool, NoMemory>
    ensures text { OnOk result (output.new.text ≡ output.old.text ++ statement_text statement.now table.old) }
    ensures unprintable { OnOk result (output.new.unprintable ≡ option_or output.old.unprintable (limit_broken statement.now)) }
    ensures table { IfOk result (λ ran. table_with statement.now table.old ≡ cond ran (Some table.new) None) }
{
    if !output.spell_statement(statement) {
        return Err(AllocError);
    }
    match table.run(alloc, statement) {
        Ok(rows) if spell_rows(&mut output.text, &rows) => Ok(true),
        Err(fault) if spell_fault(&mut output.text, &fault) => Ok(false),
        _ => Err(AllocError),
    }
}

/// Runs a session's statements up to its first commit or abort, and appends their lines.
/// Answers whether they commit: where they don't, the table is left as the last of them made it.
fn run_body(
    alloc: Global,
    output: &mut Transcript,
    table: &mut Table,
    session: Session,
    lines: &[Line],
) -> Result<bool, NoMemory>
    ensures { IfOk result (λ commits. record { text = output.new.text ++ end_text commits; unprintable = output.new.unprintable; table = cond commits (Some table.new) None }
        ≡ ended_by session output.old table.old lines.now) }
{
    for line in lines {
        if line.session == session {
            match &line.command {
                Command::Begin => {}
                Command::Commit => return Ok(true),
                Command::Abort => return Ok(false),
                Command::Run(statement) => {
                    if !run_statement(alloc, output, table, statement)? {
                        return Ok(false);
                    }
                }
            }
        }
    }
    // A transaction without an end aborts.
    Ok(false)
}

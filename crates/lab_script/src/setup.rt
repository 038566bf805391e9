//! The setup, read from tokens.

ghost use Rattle.std.specs.Prelude.{◌≤◌, length, ◌≡◌, [], Some, None, IfOk, MatchBool};
ghost use Rattle.lab_statement.specs.Stopping.{Comes};
ghost use Rattle.lab_script.specs.FirstFaults.{named_row_read, row_table_read, row_onto_read, rows_read, setup_end_read, setup_fault, setup_read, table_read};
ghost use Rattle.lab_script.specs.Grammar.{IsSetup};
ghost use Rattle.lab_statement.specs.FirstFaults.{no_rows_at, HasFault};
ghost use Rattle.lab_script.specs.Tables.{setup_tables};

use crate::command::read_before;
use crate::spelling::setup_fits;
use crate::tables::{add_few, add_setup_tokens, behind_tables};
use lab_statement::{Parser, Refusal, ScriptFaultKind, Token};
use lab_table::{RowName, Table, TableName, TableSet, Value, Word};
use std::alloc::Global;

/// The table of a row of a setup: the name before the row, or `test` where no word stands there.
#[tactic(auto, unfolding(crate::specs::FirstFaults::row_table_read, lab_statement::specs::Stopping::name_read))]
fn row_table(parser: &mut Parser) -> Result<TableName, Refusal>
    ensures reads { Comes (λ x. (x, parser.new)) result parser.new (row_table_read parser.old) }
    ensures shorter { length parser.new ≤ length parser.old }
{
    match parser.tokens().split_first() {
        Some((first, _)) if first.is_word() => parser.name(),
        _ => Ok(TableName::test()),
    }
}

/// A row of a setup with its value.
#[tactic(auto, unfolding(crate::specs::FirstFaults::named_row_read))]
pub fn named_row(parser: &mut Parser) -> Result<(RowName, Value), Refusal>
    ensures reads { Comes (λ x. (x, parser.new)) result parser.new (named_row_read parser.old) }
    ensures shorter { length parser.new ≤ length parser.old }
{
    let table = row_table(parser)?;
    let (id, value) = parser.row()?;
    Ok((RowName { table, id }, value))
}

/// Adds a row to the table; DuplicateSetupRow where it is present.
#[tactic(auto, unfolding(crate::specs::FirstFaults::row_onto_read))]
fn row_onto(alloc: Global, parser: &mut Parser, table: &mut Table) -> Result<(), Refusal>
    ensures reads { Comes (λ x. (table.new, parser.new)) result parser.new (row_onto_read table.old parser.old) }
    ensures shorter { length parser.new ≤ length parser.old }
{
    let row = named_row(parser)?;
    if table.add(alloc, row.0, row.1)? {
        Ok(())
    } else {
        Err(Refusal::Fault(ScriptFaultKind::DuplicateSetupRow))
    }
}

/// The table of one row or more.
fn rows(alloc: Global, parser: &mut Parser) -> Result<Table, Refusal>
    ensures { Comes (λ x. (x, parser.new)) result parser.new (rows_read parser.old) }
{
    let mut table = Table::new(alloc);
    loop {
        row_onto(alloc, parser, &mut table)?;
        if !parser.took(Token::Comma) {
            return Ok(table);
        }
    }
}

/// Takes the parentheses that stand for no row, if they are the first.
#[tactic(auto, unfolding(lab_statement::specs::FirstFaults::no_rows_at))]
fn took_no_rows(parser: &mut Parser) -> bool
    ensures { MatchBool result (no_rows_at parser.old ≡ Some parser.new) ((no_rows_at parser.old ≡ None) × (parser.new ≡ parser.old)) }
{
    let mut ahead = Parser::new(parser.tokens());
    if ahead.took(Token::Open) && ahead.took(Token::Close) {
        *parser = ahead;
        true
    } else {
        false
    }
}

/// The table of a setup.
#[tactic(auto, unfolding(crate::specs::FirstFaults::table_read))]
fn table(alloc: Global, parser: &mut Parser) -> Result<Table, Refusal>
    ensures { Comes (λ x. (x, parser.new)) result parser.new (table_read parser.old) }
{
    if took_no_rows(parser) {
        Ok(Table::new(alloc))
    } else {
        rows(alloc, parser)
    }
}

/// The end of the setup of this table, which is its `;` or the end of the line.
/// TooLong where the printed line is over 4,000 bytes; then what stands behind the `;` doesn't matter.
#[tactic(auto, unfolding(crate::specs::FirstFaults::setup_end_read))]
fn setup_end(parser: &mut Parser, table: &Table) -> Result<(), Refusal>
    ensures { Comes (λ x. x) result parser.new (setup_end_read table.now parser.old) }
{
    if !parser.took(Token::Semicolon) {
        parser.nothing_left()?;
    }
    if setup_fits(table) {
        parser.nothing_left()
    } else {
        Err(Refusal::Fault(ScriptFaultKind::TooLong))
    }
}

/// A setup, all of the line.
#[tactic(auto, unfolding(crate::specs::FirstFaults::setup_read))]
fn setup(alloc: Global, parser: &mut Parser) -> Result<Table, Refusal>
    ensures { Comes (λ x. x) result parser.new (setup_read parser.old) }
{
    parser.expect(Token::Word(Word::Setup))?;
    let table = table(alloc, parser)?;
    setup_end(parser, &table).and(Ok(table))
}

/// The table that the tokens of a setup spell; all of them must belong to it. Its rows' tables come to those that are handed
/// in, which are none.
///
/// Of its faults the first from the left counts: UnknownStatement for a token, or the end, that no setup
/// has there; NumberOutOfRange for an id or a value out of its range; TooManyTables at the name of a fifth table, or where a row
/// without a name is one of it; DuplicateSetupRow at the end of a row
/// that came before; TooLong at the end of a setup whose printed line is over 4,000 bytes.
/// NoMemory may come in place of any other answer.
pub fn read_setup(alloc: Global, tokens: &[Token], tables: &mut TableSet) -> Result<Table, Refusal>
    requires none { tables.old.names ≡ [] }
    // What is read is in the grammar.
    ensures found { IfOk result (λ table. IsSetup tokens.now table) }
    ensures tables { IfOk result (λ table. tables.new.names ≡ setup_tables table) }
    // Of the faults from the left it is the first.
    ensures first { HasFault (setup_fault tokens.now) result }
{
    let mut parser = Parser { rest: tokens };
    match setup(alloc, &mut parser) {
        Ok(table) => add_few(tables, table.rows()).and(Ok(table)),
        Err(refusal) => {
            let few = add_setup_tokens(tables, read_before(tokens, parser.left()));
            Err(behind_tables(few, refusal))
        }
    }
}

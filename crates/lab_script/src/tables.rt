//! The names of tables that a script uses, of which there are at most four.

ghost use Rattle.std.specs.Prelude.{◌≡◌, ◌<◌, ℕ, length, List, MatchBool, OnOk, Option, if◌then◌else◌};
ghost use Rattle.lab_statement.specs.declared.fault.ScriptFaultKind.TheVariants.{TooManyTables};
ghost use Rattle.lab_statement.specs.FirstFaults.{HasFault, fifth_table, refusal_as};
ghost use Rattle.lab_table.specs.TableSet.{max_tables};
ghost use Rattle.lab_script.specs.Tables.{command_table, line_table, row_table, with_all, with_any};
ghost use Rattle.lab_script.specs.PassedTables.{is_behind_set, setup_table, statement_table, token_table, with_setup_tokens, with_tokens};

use crate::script::Line;
use lab_statement::{Refusal, ScriptFaultKind, Token};
use lab_table::{Command, RowName, TableName, TableSet, Value, Word};

/// What may name a table.
pub trait NamesTable {
    // The name, if there is one.
    ghost named: { Self → Option (List ℕ) };

    /// The name, if there is one.
    fn table(&self) -> Option<TableName>
        ensures { result ≡ named self.now };
}

impl NamesTable for Command {
    ghost named = { command_table };

    fn table(&self) -> Option<TableName> {
        match self {
            Command::Run(statement) => Some(statement.table),
            _ => None,
        }
    }
}

impl NamesTable for Line {
    ghost named = { line_table };

    fn table(&self) -> Option<TableName> {
        self.command.table()
    }
}

impl NamesTable for (RowName, Value) {
    ghost named = { row_table };

    fn table(&self) -> Option<TableName> {
        Some(self.0.table)
    }
}

/// Adds the tables that these name; false where a fifth comes among them.
pub fn add_all<T: NamesTable>(tables: &mut TableSet, items: &[T]) -> bool
    ensures { MatchBool result (tables.new.names ≡ with_all T.named tables.old.names items.now) (max_tables < length (with_all T.named tables.old.names items.now)) }
{
    for item in items {
        if !add_any(tables, item.table()) {
            return false;
        }
    }
    true
}

/// Adds the tables that these name; TooManyTables where a fifth comes among them.
pub fn add_few<T: NamesTable>(tables: &mut TableSet, items: &[T]) -> Result<(), Refusal>
    ensures tables { OnOk result (tables.new.names ≡ with_all T.named tables.old.names items.now) }
    ensures first { HasFault (fifth_table (with_all T.named tables.old.names items.now)) result }
{
    if add_all(tables, items) {
        Ok(())
    } else {
        Err(Refusal::Fault(ScriptFaultKind::TooManyTables))
    }
}

/// Adds the table that a word names, if one stands there; false where that would be a fifth.
fn add_any(tables: &mut TableSet, name: Option<TableName>) -> bool
    ensures { MatchBool result (tables.new.names ≡ with_any tables.old.names name) (max_tables < length (with_any tables.old.names name)) }
{
    match name {
        None => true,
        Some(name) => tables.add(name),
    }
}

/// Adds the tables that are named among the tokens of a line of statements; false where a fifth comes among them.
pub fn add_tokens(tables: &mut TableSet, tokens: &[Token]) -> bool
    ensures { MatchBool result (tables.new.names ≡ with_tokens tables.old.names tokens.now) (max_tables < length (with_tokens tables.old.names tokens.now)) }
{
    let mut behind = false;
    for token in tokens {
        if !add_any(tables, statement_table(behind, token)) {
            return false;
        }
        behind = is_behind_set(behind, token);
    }
    true
}

/// Adds the tables that are named among the tokens of a setup; false where a fifth comes among them.
pub fn add_setup_tokens(tables: &mut TableSet, tokens: &[Token]) -> bool
    ensures { MatchBool result (tables.new.names ≡ with_setup_tokens tables.old.names tokens.now) (max_tables < length (with_setup_tokens tables.old.names tokens.now)) }
{
    let mut named = false;
    for token in tokens {
        if !add_any(tables, setup_table(named, token)) {
            return false;
        }
        named = table_of(token).is_some();
    }
    true
}

/// Why reading stopped behind tables that are few or not: where they aren't, a fifth came first.
pub fn behind_tables(few: bool, refusal: Refusal) -> Refusal
    ensures { result ≡ refusal_as (λ kind. if few then kind else TooManyTables) refusal }
{
    match refusal {
        Refusal::Fault(_) if !few => Refusal::Fault(ScriptFaultKind::TooManyTables),
        refusal => refusal,
    }
}

/// The table that a token of a line of statements names, which may stand behind a `set`.
fn statement_table(behind: bool, token: &Token) -> Option<TableName>
    ensures { result ≡ statement_table behind token.now }
{
    if behind { None } else { table_of(token) }
}

/// The table that a token of a setup names: a parenthesis with no name before it opens a row of `test`.
fn setup_table(named: bool, token: &Token) -> Option<TableName>
    ensures { result ≡ setup_table named token.now }
{
    if *token == Token::Open && !named {
        Some(TableName::test())
    } else {
        table_of(token)
    }
}

/// The table that a token names, if it is a name.
fn table_of(token: &Token) -> Option<TableName>
    ensures { result ≡ token_table token.now }
{
    match token {
        Token::Name(name) => Some(*name),
        _ => None,
    }
}

/// Whether the next token of a line stands behind a `set`, and so names no table.
fn is_behind_set(behind: bool, token: &Token) -> bool
    ensures { result ≡ is_behind_set behind token.now }
{
    if *token == Token::Word(Word::Set) {
        true
    } else if *token == Token::Semicolon {
        false
    } else {
        behind
    }
}

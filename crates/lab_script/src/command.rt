//! The commands of a line, read from tokens.

ghost use Rattle.std.specs.Prelude.{◌≡◌, ◌≤◌, Some, length, OnOk};
ghost use Rattle.std.specs.List.{prefix_len};
ghost use Rattle.lab_statement.specs.Stopping.{Comes};
ghost use Rattle.lab_statement.specs.Token.{is_word};
ghost use Rattle.lab_statement.specs.FirstFaults.{is_short, HasFault};
ghost use Rattle.lab_script.specs.FirstFaults.{added_read, command_read, commands_read, level_read, step_read, commands_fault, passed};
ghost use Rattle.lab_script.specs.Grammar.{IsCommands};
ghost use Rattle.lab_script.specs.Tables.{with_commands};

use crate::tables::{add_few, add_tokens, behind_tables};
use lab_statement::{Parser, Refusal, ScriptFaultKind, Token, check_length, placed};
use lab_table::{Command, TableSet, Word};
use std::alloc::Global;

/// Puts the commands of all statements of a line, of which there is room for so many, in place of others.
#[tactic(auto, unfolding(crate::specs::FirstFaults::commands_read))]
pub fn commands_into(
    alloc: Global,
    parser: &mut Parser,
    room: usize,
    commands: &mut Vec<Command>,
) -> Result<(), Refusal>
    ensures { Comes (λ _. commands.new.items) result parser.new (commands_read room parser.old) }
{
    commands.clear();
    loop {
        push_ended_command(alloc, parser, room, commands)?;
        if parser.is_done() {
            return Ok(());
        }
    }
}

/// Reads a statement with its end, and adds its command, for which there must be room.
#[tactic(auto, unfolding(crate::specs::FirstFaults::step_read))]
fn push_ended_command(
    alloc: Global,
    parser: &mut Parser,
    room: usize,
    commands: &mut Vec<Command>,
) -> Result<(), Refusal>
    ensures { Comes (λ x. (commands.new.items, parser.new)) result parser.new (step_read room commands.old.items parser.old) }
{
    let short = push(alloc, parser, commands)?;
    parser.ended()?;
    if short && commands.len() <= room {
        Ok(())
    } else {
        Err(Refusal::Fault(ScriptFaultKind::TooLong))
    }
}

/// Reads a statement without its end, and adds its command, if it gives one. Answers whether its printed form is as short
/// as it must be.
#[tactic(auto, unfolding(crate::specs::FirstFaults::added_read))]
fn push(alloc: Global, parser: &mut Parser, commands: &mut Vec<Command>) -> Result<bool, Refusal>
    ensures { Comes (λ short. ((commands.new.items, short), parser.new)) result parser.new (added_read commands.old.items parser.old) }
{
    let Some(command) = command(alloc, parser)? else {
        return Ok(true);
    };
    let short = is_short(&command);
    commands.push(command)?;
    Ok(short)
}

/// A statement, and its command if it gives one.
#[tactic(auto, unfolding(crate::specs::FirstFaults::command_read))]
fn command(alloc: Global, parser: &mut Parser) -> Result<Option<Command>, Refusal>
    ensures { Comes (λ x. (x, parser.new)) result parser.new (command_read parser.old) }
{
    if parser.took(Token::Word(Word::Begin)) {
        Ok(Some(Command::Begin))
    } else if parser.took(Token::Word(Word::Commit)) {
        Ok(Some(Command::Commit))
    } else if parser.took(Token::Word(Word::Abort)) {
        Ok(Some(Command::Abort))
    } else if parser.took(Token::Word(Word::Rollback)) {
        Ok(Some(Command::Abort))
    } else if parser.took(Token::Word(Word::Set)) {
        level(parser)?;
        Ok(None)
    } else {
        let statement = parser.statement(alloc)?;
        Ok(Some(Command::Run(statement)))
    }
}

/// The words that set a level, from behind the first on: behind `level` any words, at least one.
#[tactic(auto, unfolding(crate::specs::FirstFaults::level_read, crate::specs::FirstFaults::words_read))]
fn level(parser: &mut Parser) -> Result<(), Refusal>
    ensures { Comes (λ x. parser.new) result parser.new (level_read parser.old) }
{
    parser.expect_all(&[
        Token::Word(Word::Transaction),
        Token::Word(Word::Isolation),
        Token::Word(Word::Level),
    ])?;
    match parser.tokens().split_first() {
        Some((first, rest)) if first.is_word() => {
            let (_, behind) = rest.split_at(words_len(rest));
            *parser = Parser::new(behind);
            Ok(())
        }
        _ => Err(Refusal::Fault(ScriptFaultKind::UnknownStatement)),
    }
}

/// How many words there are at the front.
fn words_len(tokens: &[Token]) -> usize
    ensures value { result ≡ prefix_len is_word tokens.now }
    ensures within { result ≤ length tokens.now }
{
    tokens.iter().take_while(|token| token.is_word()).count()
}

/// Whether the printed form of a command is as short as it must be.
fn is_short(command: &Command) -> bool
    ensures { result ≡ is_short (Some command.now) }
{
    match command {
        Command::Run(statement) => check_length(statement).is_ok(),
        _ => true,
    }
}

/// Puts the commands of a line, of which there is room for so many, behind lines that name these tables, in place of
/// others. The tables of the commands come to them; a fifth comes before whatever is wrong behind it.
/// NoMemory may come in place of any other answer.
pub fn read_commands(
    alloc: Global,
    tokens: &[Token],
    room: usize,
    tables: &mut TableSet,
    commands: &mut Vec<Command>,
) -> Result<(), Refusal>
    // What is read is in the grammar.
    ensures found { OnOk result (IsCommands tokens.now commands.new.items) }
    ensures within { OnOk result (length commands.new.items ≤ room) }
    ensures tables { OnOk result (tables.new.names ≡ with_commands tables.old.names commands.new.items) }
    // Of the faults from the left it is the first.
    ensures first { HasFault (commands_fault tables.old.names room tokens.now) result }
{
    let mut parser = Parser { rest: tokens };
    match commands_into(alloc, &mut parser, room, commands) {
        Ok(()) => add_few(tables, commands),
        Err(refusal) => {
            let left = parser.left();
            let few = add_tokens(tables, read_before(tokens, left));
            Err(behind_tables(few, placed(refusal, tokens, left)))
        }
    }
}

/// The tokens that were read before so many were left.
pub fn read_before(tokens: &[Token], left: usize) -> &[Token]
    ensures { result.now ≡ passed tokens.now left }
{
    &tokens[..tokens.len().saturating_sub(left)]
}

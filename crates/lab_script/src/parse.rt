//! Parses the text of a script line by line.

ghost use Rattle.std.specs.Prelude.{◌≡◌, [], IfOk, OnOk, IfErr, IfSome, MatchResult, List, ℕ, Some, None};
ghost use Rattle.lab_script.specs.declared.script.Script.{Script as PlainScript};
ghost use Rattle.lab_script.specs.Script.{Spells, LineSpells, TokensSpell, begins_setup};
ghost use Rattle.lab_script.specs.Fault.{IsFaultAt, IsFaultOf, first_fault, is_over, tokens_fault};
ghost use Rattle.lab_script.specs.Limits.{ScriptPrints};
ghost use Rattle.lab_script.specs.Tables.{script_tables, tables_so_far};

use crate::command::read_commands;
use crate::limits::{MAX_COMMANDS, MAX_LINES};
use crate::line::session_of;
use crate::script::{Lines, Script};
use crate::setup::read_setup;
use bstr::ByteSlice;
use lab_printing::MAX_LINE_BYTES;
use lab_statement::{
    ScriptFault, ScriptFaultKind, Token, code_and_remark, is_ascii_code, tokens_into,
};
use lab_table::{Command, TableSet, Word};
use std::alloc::Global;

/// Parses the text of a script: the setup, then lines of statements whose comments name a session. Fails with the first
/// faulty line of the text and its fault. A text that ends before its setup fails with `NoSetup`, at one more than its
/// number of lines.
pub fn parse_script(alloc: Global, text: &[u8]) -> Result<Script, ScriptFault>
    ensures found { IfOk result (λ script. Spells text.now script) }
    // A text spells one script at most, and it is read unless memory runs out.
    ensures only { (script : PlainScript) → Spells text.now script → MatchResult result (λ read. read ≡ script) (λ fault. fault ≡ ScriptFault.NoMemory) }
    ensures prints { IfOk result ScriptPrints }
    ensures fault { IfErr result (IsFaultOf text.now) }
{
    let mut room = Room {
        tokens: Vec::new(alloc),
        commands: Vec::new(alloc),
    };
    let mut script = None;
    let mut tables = TableSet::new();
    let mut number: u32 = 0;
    for line in text.lines() {
        number += 1;
        read_line(alloc, &mut script, &mut tables, number, line, &mut room)?;
    }
    script.ok_or(ScriptFault::At {
        line: number + 1,
        kind: ScriptFaultKind::NoSetup,
    })
}

/// Room for what a line has, which serves each line anew.
#[derive(Drop)]
struct Room {
    tokens: Vec<Token>,
    commands: Vec<Command>,
}

/// Reads a line with this number behind lines that spell nothing yet or a script, and name these tables.
fn read_line(
    alloc: Global,
    script: &mut Option<Script>,
    tables: &mut TableSet,
    number: u32,
    line: &[u8],
    room: &mut Room,
) -> Result<(), ScriptFault>
    requires prints { IfSome script.old ScriptPrints }
    requires named { tables.old.names ≡ tables_so_far script.old }
    ensures found { OnOk result (LineSpells number line.now script.old script.new) }
    ensures named { OnOk result (tables.new.names ≡ tables_so_far script.new) }
    ensures fault { IfErr result (IsFaultAt number (first_fault number line.now script.old)) }
{
    if is_over(number, line) {
        return Err(at(number, ScriptFaultKind::TooLong));
    }
    let (code, remark) = code_and_remark(line);
    if !is_ascii_code(code) {
        return Err(at(number, ScriptFaultKind::NotAscii));
    }
    tokens_into(&mut room.tokens, code)?;
    let tokens = room.tokens.as_slice();
    if tokens.is_empty() {
        return Ok(());
    }
    match script {
        None => {
            *script = Some(setup_script(alloc, number, tokens, tables)?);
            Ok(())
        }
        Some(script) => add_commands(
            alloc,
            script,
            tables,
            number,
            tokens,
            remark,
            &mut room.commands,
        ),
    }
}

/// Whether a line is longer than a line may be, or comes after the last that a text may have.
fn is_over(number: u32, line: &[u8]) -> bool
    ensures { result ≡ is_over number line.now }
{
    number > MAX_LINES || line.len() > MAX_LINE_BYTES
}

/// This kind of fault at a line.
fn at(line: u32, kind: ScriptFaultKind) -> ScriptFault
    ensures { result ≡ ScriptFault.At line kind }
{
    ScriptFault::At { line, kind }
}

/// Whether the first token is `setup`.
fn begins_setup(tokens: &[Token]) -> bool
    ensures { result ≡ begins_setup tokens.now }
{
    match tokens.split_first() {
        None => false,
        Some((first, _)) => *first == Token::Word(Word::Setup),
    }
}

/// The script with the setup of the line that has these tokens.
fn setup_script(
    alloc: Global,
    number: u32,
    tokens: &[Token],
    tables: &mut TableSet,
) -> Result<Script, ScriptFault>
    requires none { tables.old.names ≡ [] }
    ensures found { (remark : List ℕ) → IfOk result (λ script. TokensSpell number tokens.now remark None (Some script)) }
    ensures named { IfOk result (λ script. tables.new.names ≡ script_tables script) }
    ensures fault { (remark : List ℕ) → IfErr result (IsFaultAt number (tokens_fault tokens.now remark None)) }
{
    if !begins_setup(tokens) {
        return Err(at(number, ScriptFaultKind::NoSetup));
    }
    match read_setup(alloc, tokens, tables) {
        Ok(setup) => Ok(Script {
            setup,
            lines: Lines::new(Vec::new(alloc)),
        }),
        Err(refusal) => Err(refusal.at(number)),
    }
}

/// Adds the commands of the line that has these tokens and this remark. Others that stand in `commands` are room for them.
fn add_commands(
    alloc: Global,
    script: &mut Script,
    tables: &mut TableSet,
    number: u32,
    tokens: &[Token],
    remark: &[u8],
    commands: &mut Vec<Command>,
) -> Result<(), ScriptFault>
    requires prints { ScriptPrints script.old }
    requires named { tables.old.names ≡ script_tables script.old }
    ensures found { OnOk result (TokensSpell number tokens.now remark.now (Some script.old) (Some script.new)) }
    ensures named { OnOk result (tables.new.names ≡ script_tables script.new) }
    ensures fault { IfErr result (IsFaultAt number (tokens_fault tokens.now remark.now (Some script.old))) }
{
    if begins_setup(tokens) {
        return Err(at(number, ScriptFaultKind::SetupRepeated));
    }
    let room = MAX_COMMANDS - script.lines.as_slice().len();
    match read_commands(alloc, tokens, room, tables, commands) {
        Ok(()) => (),
        Err(refusal) => return Err(refusal.at(number)),
    }
    let Some(session) = session_of(remark) else {
        return Err(at(number, ScriptFaultKind::NoSession));
    };
    script.take(session, number, commands)?;
    Ok(())
}

//! Parses the text of one statement.

ghost use Rattle.std.specs.Prelude.{◌≡◌, ◌≢◌, Some, None, IfOk, IfErr, MatchResult};
ghost use Rattle.lab_table.specs.declared.statement.Statement.{Statement as Spelled};
ghost use Rattle.lab_statement.specs.Text.{AreStatementTokens, SpellsStatement};
ghost use Rattle.lab_statement.specs.Fault.{IsFirstInText, IsStatementFault};
ghost use Rattle.lab_statement.specs.StatementText.{statement_in};

use crate::fault::{ScriptFault, ScriptFaultKind};
use crate::line::{code_and_remark, is_ascii_code};
use crate::parser::read_statement;
use crate::token::{Token, tokens_into};
use lab_printing::MAX_LINE_BYTES;
use lab_table::{NoMemory, Statement};
use std::alloc::Global;

/// Parses a text of one statement, with or without a `;`. The text is code of at most 4,000 bytes, without a newline or
/// a comment. Fails with what is wrong, on line 1.
#[tactic(auto, using(crate::proofs::StatementRead::none_in))]
pub fn parse_statement(alloc: Global, text: &[u8]) -> Result<Statement, ScriptFault>
    ensures found { IfOk result (λ statement. SpellsStatement text.now statement) }
    // A text spells one statement at most, and it is read unless memory runs out.
    ensures only { (statement : Spelled) → SpellsStatement text.now statement → MatchResult result (λ read. read ≡ statement) (λ fault. fault ≡ ScriptFault.NoMemory) }
    ensures fault { IfErr result (IsStatementFault text.now) }
    // Of the faults of its tokens it is the first from the left.
    ensures first { IfErr result (IsFirstInText text.now) }
    // The same as a function of the text: what it gives is read, or memory ran out.
    ensures read { MatchResult result (λ statement. statement_in text.now ≡ Some statement) (λ fault. fault ≢ ScriptFault.NoMemory → statement_in text.now ≡ None) }
{
    if text.len() > MAX_LINE_BYTES {
        return Err(ScriptFault::At {
            line: 1,
            kind: ScriptFaultKind::TooLong,
        });
    }
    if !is_ascii_code(text) {
        return Err(ScriptFault::At {
            line: 1,
            kind: ScriptFaultKind::NotAscii,
        });
    }
    let tokens = statement_tokens(alloc, text)?;
    match read_statement(alloc, &tokens) {
        Ok(statement) => Ok(statement),
        Err(refusal) => Err(refusal.at(1)),
    }
}

/// The tokens of a statement's text: two dashes begin no token.
#[tactic(auto, using(crate::proofs::StatementText::all_code))]
fn statement_tokens(alloc: Global, text: &[u8]) -> Result<Vec<Token>, NoMemory>
    ensures { IfOk result (λ found. AreStatementTokens text.now found.items) }
{
    let (code, _) = code_and_remark(text);
    let mut tokens = Vec::new(alloc);
    tokens_into(&mut tokens, code)?;
    if code.len() < text.len() {
        tokens.extend_from_slice(&[Token::Unknown])?;
    }
    Ok(tokens)
}

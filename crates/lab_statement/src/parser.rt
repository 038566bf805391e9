//! The parser of tokens: reads tokens, numbers and names, and is the base of the parser of statements.

ghost use Rattle.std.specs.Prelude.{◌≡◌, ◌==◌, ◌≤◌, ◌<◌, length, List, Some, None, IfOk, MatchBool, false};
ghost use Rattle.lab_statement.specs.Grammar.{IsWholeStatement};
ghost use Rattle.lab_statement.specs.Reading.{after};
ghost use Rattle.lab_statement.specs.Stopping.{Comes, digits_read, magnitude_read, name_read, number_read, token_read, tokens_read};
ghost use Rattle.lab_statement.specs.FirstFaults.{HasFault, in_predicate, nothing_read, placed_kind, refusal_as, statement_fault};

use crate::fault::{Refusal, ScriptFaultKind};
use crate::token::Token;
use lab_table::{Statement, TableName, Value, Word};
use std::alloc::Global;
use std::marker::Model;

/// A parser: the tokens that are left.
#[derive(Drop)]
pub struct Parser<'a> {
    pub rest: &'a [Token],
}

impl<'a> Model for Parser<'a> {
    ghost use Rattle.std.specs.Prelude.{List};
    ghost use Rattle.lab_statement.specs.declared.token.Token.{Token};

    ghost Value = { List Token };

    ghost view = { λ p. p.rest.now };
}

impl<'a> Parser<'a> {
    /// Returns a parser of these tokens.
    pub fn new(tokens: &'a [Token]) -> Parser<'a>
        ensures { result ≡ tokens.now }
    {
        Parser { rest: tokens }
    }

    /// Returns the tokens that are left.
    pub fn tokens(&self) -> &'a [Token]
        ensures { result.now ≡ self.now }
    {
        self.rest
    }

    /// Returns whether no token is left.
    pub fn is_done(&self) -> bool
        ensures { result ≡ (length self.now == 0) }
    {
        self.rest.is_empty()
    }

    /// Returns how many tokens are left.
    pub fn left(&self) -> usize
        ensures { result ≡ length self.now }
    {
        self.rest.len()
    }

    /// Fails if a token is left.
    pub fn nothing_left(&self) -> Result<(), Refusal>
        ensures { Comes (λ x. x) result self.now (nothing_read self.now) }
    {
        if self.is_done() {
            Ok(())
        } else {
            Err(Refusal::Fault(ScriptFaultKind::UnknownStatement))
        }
    }

    /// Takes `token` if it is next. Returns whether it was.
    #[inline(always)]
    pub fn took(&mut self, token: Token) -> bool
        ensures gives { MatchBool result (after token self.old ≡ Some self.new) ((after token self.old ≡ None) × (self.new ≡ self.old)) }
        ensures shorter { MatchBool result (length self.new < length self.old) (length self.new ≤ length self.old) }
    {
        match self.rest {
            [first, rest @ ..] if token == *first => {
                self.rest = rest;
                true
            }
            _ => false,
        }
    }

    /// Takes `token`, which must be next.
    #[inline(always)]
    pub fn expect(&mut self, token: Token) -> Result<(), Refusal>
        ensures reads { Comes (λ x. self.new) result self.new (token_read token self.old) }
        ensures shorter { length self.new ≤ length self.old }
    {
        if self.took(token) {
            Ok(())
        } else {
            Err(Refusal::Fault(ScriptFaultKind::UnknownStatement))
        }
    }

    /// Takes these tokens, which must be next.
    pub fn expect_all(&mut self, tokens: &[Token]) -> Result<(), Refusal>
        ensures { Comes (λ x. self.new) result self.new (tokens_read tokens.now self.old) }
    {
        for token in tokens {
            self.expect(*token)?;
        }
        Ok(())
    }

    /// Parses the name of a table. Fails with `BadTableName` at any other word.
    #[tactic(auto, unfolding(crate::specs::Stopping::name_read))]
    pub fn name(&mut self) -> Result<TableName, Refusal>
        ensures reads { Comes (λ x. (x, self.new)) result self.new (name_read self.old) }
        ensures shorter { length self.new ≤ length self.old }
    {
        match self.rest {
            [Token::Name(name), rest @ ..] => {
                self.rest = rest;
                Ok(*name)
            }
            [Token::Word(_) | Token::OtherWord, ..] => {
                Err(Refusal::Fault(ScriptFaultKind::BadTableName))
            }
            _ => Err(Refusal::Fault(ScriptFaultKind::UnknownStatement)),
        }
    }

    /// Parses digits, and returns their number.
    #[tactic(auto, unfolding(crate::specs::Stopping::digits_read))]
    pub fn digits(&mut self) -> Result<u32, Refusal>
        ensures reads { Comes (λ x. (x, self.new)) result self.new (digits_read self.old) }
        ensures shorter { length self.new ≤ length self.old }
    {
        match self.rest {
            [Token::Digits(number), rest @ ..] => {
                self.rest = rest;
                Ok(*number)
            }
            _ => Err(Refusal::Fault(ScriptFaultKind::UnknownStatement)),
        }
    }

    /// Parses a number without a sign, up to 1,000,000,000.
    #[tactic(auto, unfolding(crate::specs::Stopping::magnitude_read))]
    pub fn magnitude(&mut self) -> Result<u32, Refusal>
        ensures reads { Comes (λ x. (x, self.new)) result self.new (magnitude_read self.old) }
        ensures shorter { length self.new ≤ length self.old }
        ensures below { IfOk result (λ x. x ≤ 1000000000) }
    {
        let number = self.digits()?;
        if number <= 1_000_000_000 {
            Ok(number)
        } else {
            Err(Refusal::Fault(ScriptFaultKind::NumberOutOfRange))
        }
    }

    /// Parses a number, from -1,000,000,000 to 1,000,000,000.
    #[tactic(auto, unfolding(crate::specs::Stopping::number_read))]
    pub fn number(&mut self) -> Result<Value, Refusal>
        ensures reads { Comes (λ x. (x, self.new)) result self.new (number_read self.old) }
        ensures shorter { length self.new ≤ length self.old }
    {
        let number = if self.took(Token::Minus) {
            -i64::from(self.magnitude()?)
        } else {
            i64::from(self.magnitude()?)
        };
        Value::new(number).ok_or(Refusal::Fault(ScriptFaultKind::NumberOutOfRange))
    }
}

/// One statement, with a semicolon behind it or none.
/// NoMemory may come in place of any other answer.
pub fn read_statement(alloc: Global, tokens: &[Token]) -> Result<Statement, Refusal>
    // What is read is in the grammar.
    ensures found { IfOk result (IsWholeStatement tokens.now) }
    // Of the faults from the left it is the first.
    ensures first { HasFault (statement_fault tokens.now) result }
{
    let mut parser = Parser { rest: tokens };
    match parser.whole_statement(alloc) {
        Ok(statement) => Ok(statement),
        Err(refusal) => Err(placed(refusal, tokens, parser.left())),
    }
}

/// Returns the fault of a line at which `left` tokens are left: after a `where` of the statement, an unknown token is
/// `BadPredicate`.
pub fn placed(refusal: Refusal, tokens: &[Token], left: usize) -> Refusal
    ensures { result ≡ refusal_as (λ kind. placed_kind tokens.now kind left) refusal }
{
    match refusal {
        Refusal::Fault(ScriptFaultKind::UnknownStatement)
            if ends_in_predicate(&tokens[..tokens.len().saturating_sub(left)]) => {
            Refusal::Fault(ScriptFaultKind::BadPredicate)
        }
        other => other,
    }
}

/// Whether a `where` stands in these tokens, and no semicolon behind it.
fn ends_in_predicate(tokens: &[Token]) -> bool
    ensures { result ≡ in_predicate false tokens.now }
{
    let mut inside = false;
    for token in tokens {
        if *token == Token::Word(Word::Where) {
            inside = true;
        } else if *token == Token::Semicolon {
            inside = false;
        }
    }
    inside
}

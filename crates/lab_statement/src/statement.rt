//! Parses statements.

ghost use Rattle.std.specs.Prelude.{◌≡◌, nat_le, true, false, length, OnOk, IfErr};
ghost use Rattle.lab_statement.specs.Grammar.{over};
ghost use Rattle.lab_printing.specs.Limits.{max_statement_bytes};
ghost use Rattle.lab_printing.specs.Printed.{printed_statement};
ghost use Rattle.lab_statement.specs.declared.fault.ScriptFaultKind.TheVariants.{TooLong};
ghost use Rattle.lab_statement.specs.Stopping.{Comes};
ghost use Rattle.lab_statement.specs.FirstFaults.{delete_read, end_read, ended_read, expr_read, insert_read, select_read, statement_read, update_read, whole_statement_read};

use crate::fault::{Refusal, ScriptFaultKind};
use crate::parser::Parser;
use crate::token::Token;
use lab_printing::statement_fits;
use lab_table::{Expr, Statement, StatementKind, TableName, Word};
use std::alloc::Global;

impl Parser<'_> {
    /// Parses a statement that uses up all tokens, with or without a semicolon.
    #[tactic(auto, unfolding(crate::specs::FirstFaults::whole_statement_read))]
    pub fn whole_statement(&mut self, alloc: Global) -> Result<Statement, Refusal>
        ensures { Comes (λ x. x) result self.new (whole_statement_read self.old) }
    {
        let statement = self.statement(alloc)?;
        self.nothing_behind(&statement).and(Ok(statement))
    }

    /// The end of this statement, which is all that is left.
    fn nothing_behind(&mut self, statement: &Statement) -> Result<(), Refusal>
        ensures { Comes (λ x. statement.now) result self.new (ended_read statement.now self.old) }
    {
        self.ended()?;
        check_length(statement)?;
        self.nothing_left()
    }

    /// Parses one of the four kinds of statement.
    #[tactic(auto, unfolding(crate::specs::FirstFaults::statement_read))]
    pub fn statement(&mut self, alloc: Global) -> Result<Statement, Refusal>
        ensures { Comes (λ x. (x, self.new)) result self.new (statement_read self.old) }
    {
        if self.took(Token::Word(Word::Select)) {
            self.select(alloc)
        } else if self.took(Token::Word(Word::Update)) {
            self.update(alloc)
        } else if self.took(Token::Word(Word::Insert)) {
            self.insert()
        } else {
            self.expect(Token::Word(Word::Delete))?;
            self.delete(alloc)
        }
    }

    /// A select, from behind its first word on.
    #[tactic(auto, unfolding(crate::specs::FirstFaults::select_read))]
    fn select(&mut self, alloc: Global) -> Result<Statement, Refusal>
        ensures { Comes (λ x. (x, self.new)) result self.new (select_read self.old) }
    {
        self.expect_all(&[Token::Star, Token::Word(Word::From)])?;
        let table = self.name()?;
        let pred = self.where_clause(alloc)?;
        Ok(over(table, StatementKind::Select { pred }))
    }

    /// An update, from behind its first word on.
    #[tactic(auto, unfolding(crate::specs::FirstFaults::update_read))]
    fn update(&mut self, alloc: Global) -> Result<Statement, Refusal>
        ensures { Comes (λ x. (x, self.new)) result self.new (update_read self.old) }
    {
        let table = self.name()?;
        self.expect_all(&[
            Token::Word(Word::Set),
            Token::Word(Word::Value),
            Token::Equal,
        ])?;
        let expr = self.expr()?;
        let pred = self.where_clause(alloc)?;
        Ok(over(table, StatementKind::Update { expr, pred }))
    }

    /// The new value of an update.
    #[tactic(auto, unfolding(crate::specs::FirstFaults::expr_read))]
    fn expr(&mut self) -> Result<Expr, Refusal>
        ensures { Comes (λ x. (x, self.new)) result self.new (expr_read self.old) }
    {
        if !self.took(Token::Word(Word::Value)) {
            self.number().map(Expr::Set)
        } else if self.took(Token::Plus) {
            self.number().map(Expr::Plus)
        } else {
            self.expect(Token::Minus)?;
            self.number().map(Expr::Minus)
        }
    }

    /// An insert, from behind its first word on.
    #[tactic(auto, unfolding(crate::specs::FirstFaults::insert_read))]
    fn insert(&mut self) -> Result<Statement, Refusal>
        ensures { Comes (λ x. (x, self.new)) result self.new (insert_read self.old) }
    {
        self.expect(Token::Word(Word::Into))?;
        let table = self.name()?;
        self.expect_all(&[
            Token::Open,
            Token::Word(Word::Id),
            Token::Comma,
            Token::Word(Word::Value),
            Token::Close,
            Token::Word(Word::Values),
        ])?;
        let (id, value) = self.row()?;
        Ok(over(table, StatementKind::Insert { id, value }))
    }

    /// A delete, from behind its first word on.
    #[tactic(auto, unfolding(crate::specs::FirstFaults::delete_read))]
    fn delete(&mut self, alloc: Global) -> Result<Statement, Refusal>
        ensures { Comes (λ x. (x, self.new)) result self.new (delete_read self.old) }
    {
        self.expect(Token::Word(Word::From))?;
        let table = self.name()?;
        let pred = self.where_clause(alloc)?;
        Ok(over(table, StatementKind::Delete { pred }))
    }

    /// Parses the end of a statement: a semicolon, or the end of the tokens.
    #[tactic(auto, unfolding(crate::specs::FirstFaults::end_read))]
    pub fn ended(&mut self) -> Result<(), Refusal>
        ensures { Comes (λ x. self.new) result self.new (end_read self.old) }
    {
        if !self.took(Token::Semicolon) {
            self.nothing_left()?;
        }
        Ok(())
    }
}

/// A statement of this kind on the rows of a table.
fn over(table: TableName, kind: StatementKind) -> Statement
    ensures { result ≡ over table kind }
{
    Statement { table, kind }
}

/// Checks that the printed form of a statement has at most 1,000 bytes; otherwise fails with `TooLong`.
#[tactic(auto, using(crate::proofs::Bounds::same_test))]
pub fn check_length(statement: &Statement) -> Result<(), Refusal>
    ensures short { OnOk result (nat_le (length (printed_statement statement.now)) max_statement_bytes ≡ true) }
    ensures long { IfErr result (λ e. (e ≡ Refusal.Fault TooLong) × (nat_le (length (printed_statement statement.now)) max_statement_bytes ≡ false)) }
{
    if statement_fits(statement) {
        Ok(())
    } else {
        Err(Refusal::Fault(ScriptFaultKind::TooLong))
    }
}

//! Parses conditions.

ghost use Rattle.std.specs.Prelude.{◌≡◌, ◌≤◌, length, IfOk, MatchResult};
ghost use Rattle.lab_table.specs.Predicate as predicate;
ghost use Rattle.lab_statement.specs.Stopping.{Comes, conj_read, pred_read, term_read, where_read};

use crate::fault::{Refusal, ScriptFaultKind};
use crate::parser::Parser;
use crate::token::Token;
use lab_printing::MAX_DEPTH;
use lab_table::{NoMemory, Pred, PredKind, Word};
use std::alloc::Global;

impl Parser<'_> {
    /// Parses a `where` and its condition, if the next token is `where`.
    #[tactic(auto, unfolding(crate::specs::Stopping::where_read))]
    pub fn where_clause(&mut self, alloc: Global) -> Result<Option<Pred>, Refusal>
        ensures { Comes (λ x. (x, self.new)) result self.new (where_read self.old) }
    {
        if self.took(Token::Word(Word::Where)) {
            self.pred(alloc, MAX_DEPTH).map(Some)
        } else {
            Ok(None)
        }
    }

    /// A predicate that may have an `or` at its top, under which this many parentheses and `not`s may still be open.
    #[cycle(pred)]
    #[tactic(auto, unfolding(crate::specs::Stopping::pred_read, crate::specs::Stopping::joined_read))]
    fn pred(&mut self, alloc: Global, depth: u8) -> Result<Pred, Refusal>
        ensures reads { Comes (λ x. (x, self.new)) result self.new (pred_read depth self.old) }
        ensures shorter { length self.new ≤ length self.old }
    {
        let mut pred = self.conj(alloc, depth)?;
        while self.took(Token::Word(Word::Or)) {
            let right = self.conj(alloc, depth)?;
            pred = disjunction(alloc, pred, right)?;
        }
        Ok(pred)
    }

    /// A predicate that may have an `and` at its top.
    #[cycle(pred)]
    #[tactic(auto, unfolding(crate::specs::Stopping::conj_read, crate::specs::Stopping::joined_read))]
    fn conj(&mut self, alloc: Global, depth: u8) -> Result<Pred, Refusal>
        ensures reads { Comes (λ x. (x, self.new)) result self.new (conj_read depth self.old) }
        ensures shorter { length self.new ≤ length self.old }
    {
        let mut pred = self.term(alloc, depth)?;
        while self.took(Token::Word(Word::And)) {
            let right = self.term(alloc, depth)?;
            pred = conjunction(alloc, pred, right)?;
        }
        Ok(pred)
    }

    /// A predicate with neither at its top.
    #[cycle(pred)]
    #[tactic(auto, unfolding(crate::specs::Stopping::term_read, crate::specs::Stopping::pred_read, crate::specs::Stopping::conj_read))]
    fn term(&mut self, alloc: Global, depth: u8) -> Result<Pred, Refusal>
        ensures reads { Comes (λ x. (x, self.new)) result self.new (term_read depth self.old) }
        ensures shorter { length self.new ≤ length self.old }
    {
        if self.took(Token::Word(Word::Not)) {
            if depth == 0 {
                return Err(Refusal::Fault(ScriptFaultKind::TooDeep));
            }
            let pred = self.term(alloc, depth - 1)?;
            return negation(alloc, pred);
        }
        if self.took(Token::Open) {
            if depth == 0 {
                return Err(Refusal::Fault(ScriptFaultKind::TooDeep));
            }
            let pred = self.pred(alloc, depth - 1)?;
            return self.expect(Token::Close).and(Ok(pred));
        }
        self.atom(alloc)
    }
}

fn negation(alloc: Global, pred: Pred) -> Result<Pred, Refusal>
    ensures { MatchResult result (λ x. x ≡ predicate.Not pred) (λ e. e ≡ Refusal.NoMemory) }
{
    Ok(Pred {
        kind: PredKind::Not(Box::new(alloc, pred)?),
    })
}

fn conjunction(alloc: Global, left: Pred, right: Pred) -> Result<Pred, NoMemory>
    ensures { IfOk result (λ x. x ≡ predicate.And left right) }
{
    Ok(Pred {
        kind: PredKind::And(Box::new(alloc, left)?, Box::new(alloc, right)?),
    })
}

fn disjunction(alloc: Global, left: Pred, right: Pred) -> Result<Pred, NoMemory>
    ensures { IfOk result (λ x. x ≡ predicate.Or left right) }
{
    Ok(Pred {
        kind: PredKind::Or(Box::new(alloc, left)?, Box::new(alloc, right)?),
    })
}

//! Parses comparisons, remainders and lists.

ghost use Rattle.std.specs.Prelude.{◌≡◌, ◌≤◌, length};
ghost use Rattle.lab_statement.specs.Stopping.{cmp_of, Comes, atom_read, cmp_read, col_read, compare_read, number_list_read, numbers_read, one_of_read, positive_read, remainder_read};

use crate::fault::{Refusal, ScriptFaultKind};
use crate::parser::Parser;
use crate::token::Token;
use lab_table::{Cmp, Col, Modulus, Numbers, Pred, PredKind, Value, Word};
use std::alloc::Global;

/// The comparison that a token is.
fn cmp_of(token: Token) -> Option<Cmp>
    ensures { result ≡ cmp_of token }
{
    match token {
        Token::Equal => Some(Cmp::Eq),
        Token::Unequal => Some(Cmp::Ne),
        Token::Less => Some(Cmp::Lt),
        Token::AtMost => Some(Cmp::Le),
        Token::Greater => Some(Cmp::Gt),
        Token::AtLeast => Some(Cmp::Ge),
        _ => None,
    }
}

impl Parser<'_> {
    /// Parses a comparison, a remainder or a list.
    #[tactic(auto, unfolding(crate::specs::Stopping::atom_read))]
    pub fn atom(&mut self, alloc: Global) -> Result<Pred, Refusal>
        ensures reads { Comes (λ x. (x, self.new)) result self.new (atom_read self.old) }
        ensures shorter { length self.new ≤ length self.old }
    {
        let col = self.col()?;
        if self.took(Token::Word(Word::In)) {
            self.one_of(alloc, col)
        } else if self.took(Token::Percent) {
            self.remainder(col)
        } else {
            self.compare(col)
        }
    }

    /// A column.
    #[tactic(auto, unfolding(crate::specs::Stopping::col_read))]
    fn col(&mut self) -> Result<Col, Refusal>
        ensures reads { Comes (λ x. (x, self.new)) result self.new (col_read self.old) }
        ensures shorter { length self.new ≤ length self.old }
    {
        if self.took(Token::Word(Word::Id)) {
            Ok(Col::Id)
        } else {
            self.expect(Token::Word(Word::Value)).and(Ok(Col::Value))
        }
    }

    /// What stands behind the column of a comparison.
    #[tactic(auto, unfolding(crate::specs::Stopping::compare_read))]
    fn compare(&mut self, col: Col) -> Result<Pred, Refusal>
        ensures reads { Comes (λ x. (x, self.new)) result self.new (compare_read col self.old) }
        ensures shorter { length self.new ≤ length self.old }
    {
        let cmp = self.cmp()?;
        let number = self.number()?;
        Ok(Pred {
            kind: PredKind::Compare { col, cmp, number },
        })
    }

    /// A sign that compares.
    #[tactic(auto, unfolding(crate::specs::Stopping::cmp_read))]
    fn cmp(&mut self) -> Result<Cmp, Refusal>
        ensures reads { Comes (λ x. (x, self.new)) result self.new (cmp_read self.old) }
        ensures shorter { length self.new ≤ length self.old }
    {
        if let [first, rest @ ..] = self.rest
            && let Some(cmp) = cmp_of(*first)
        {
            self.rest = rest;
            return Ok(cmp);
        }
        Err(Refusal::Fault(ScriptFaultKind::UnknownStatement))
    }

    /// What stands behind the percent sign of a remainder.
    #[tactic(auto, unfolding(crate::specs::Stopping::remainder_read))]
    fn remainder(&mut self, col: Col) -> Result<Pred, Refusal>
        ensures reads { Comes (λ x. (x, self.new)) result self.new (remainder_read col self.old) }
        ensures shorter { length self.new ≤ length self.old }
    {
        let modulus = self.modulus()?;
        self.expect(Token::Equal)?;
        let rest = self.number()?;
        Ok(Pred {
            kind: PredKind::Remainder { col, modulus, rest },
        })
    }

    /// A modulus, from 1 to 1,000,000. Digits behind a minus are a number that is out of this range.
    #[tactic(auto, unfolding(crate::specs::Stopping::positive_read))]
    fn modulus(&mut self) -> Result<Modulus, Refusal>
        ensures reads { Comes (λ x. (x, self.new)) result self.new (positive_read 1000000 self.old) }
        ensures shorter { length self.new ≤ length self.old }
    {
        let negative = self.took(Token::Minus);
        let number = self.digits()?;
        if negative {
            return Err(Refusal::Fault(ScriptFaultKind::NumberOutOfRange));
        }
        Modulus::new(number).ok_or(Refusal::Fault(ScriptFaultKind::NumberOutOfRange))
    }

    /// What stands behind the `in` of a list.
    #[tactic(auto, unfolding(crate::specs::Stopping::one_of_read))]
    fn one_of(&mut self, alloc: Global, col: Col) -> Result<Pred, Refusal>
        ensures reads { Comes (λ x. (x, self.new)) result self.new (one_of_read col self.old) }
        ensures shorter { length self.new ≤ length self.old }
    {
        let numbers = self.number_list(alloc)?;
        Ok(Pred {
            kind: PredKind::OneOf { col, numbers },
        })
    }

    /// Numbers in parentheses, which may be none.
    #[tactic(auto, unfolding(crate::specs::Stopping::number_list_read))]
    fn number_list(&mut self, alloc: Global) -> Result<Numbers, Refusal>
        ensures reads { Comes (λ x. (x, self.new)) result self.new (number_list_read self.old) }
        ensures shorter { length self.new ≤ length self.old }
    {
        self.expect(Token::Open)?;
        if self.took(Token::Close) {
            return Ok(Numbers::new(Vec::new(alloc)));
        }
        let numbers = self.numbers(alloc)?;
        self.expect(Token::Close).and(Ok(Numbers::new(numbers)))
    }

    /// Numbers with a comma between two of them.
    #[tactic(auto, unfolding(crate::specs::Stopping::numbers_read, crate::specs::Stopping::joined_read))]
    fn numbers(&mut self, alloc: Global) -> Result<Vec<Value>, Refusal>
        ensures reads { Comes (λ x. (x.items, self.new)) result self.new (numbers_read self.old) }
        ensures shorter { length self.new ≤ length self.old }
    {
        let mut numbers = Vec::new(alloc);
        let first = self.number()?;
        numbers.push(first)?;
        while self.took(Token::Comma) {
            let number = self.number()?;
            numbers.push(number)?;
        }
        Ok(numbers)
    }
}

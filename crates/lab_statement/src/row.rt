//! Parses a row of a statement with its value.

ghost use Rattle.std.specs.Prelude.{◌≤◌, length};
ghost use Rattle.lab_statement.specs.Stopping.{Comes, positive_read, row_read};

use crate::fault::{Refusal, ScriptFaultKind};
use crate::parser::Parser;
use crate::token::Token;
use lab_table::{RowId, Value};

impl Parser<'_> {
    /// Parses a row number, from 1 to 999,999. Digits after a minus are a number out of range.
    #[tactic(auto, unfolding(crate::specs::Stopping::positive_read))]
    pub fn id(&mut self) -> Result<RowId, Refusal>
        ensures reads { Comes (λ x. (x, self.new)) result self.new (positive_read 999999 self.old) }
        ensures shorter { length self.new ≤ length self.old }
    {
        let negative = self.took(Token::Minus);
        let number = self.digits()?;
        if negative {
            return Err(Refusal::Fault(ScriptFaultKind::NumberOutOfRange));
        }
        RowId::new(number).ok_or(Refusal::Fault(ScriptFaultKind::NumberOutOfRange))
    }

    /// Parses a row number and a value, in parentheses and separated by a comma.
    #[tactic(auto, unfolding(crate::specs::Stopping::row_read))]
    pub fn row(&mut self) -> Result<(RowId, Value), Refusal>
        ensures reads { Comes (λ x. (x, self.new)) result self.new (row_read self.old) }
        ensures shorter { length self.new ≤ length self.old }
    {
        self.expect(Token::Open)?;
        let id = self.id()?;
        self.expect(Token::Comma)?;
        let value = self.number()?;
        self.expect(Token::Close).and(Ok((id, value)))
    }
}

//! A cursor over the tokens of a JSON text, with one method for each kind of token that a history file has.

ghost use Rattle.std.specs.Prelude.{◌≡◌, ◌∷◌, [], true, IfOk, MatchOption};
ghost use Rattle.std.specs.Bool.{MatchBool};
ghost use Rattle.json.specs.Token as token;
ghost use Rattle.json.specs.Lex as lex;
ghost use Rattle.lab_history_file.specs.Numbers.{IsInteger, IsWhole};

use super::number::{integer_of, whole_of};
use super::stop::Stop;
use json::{Reader, Scratch, Token};
use std::marker::Model;

/// The tokens that haven't been read. After an error the cursor isn't used again.
#[derive(Drop)]
pub struct Cursor<'a> {
    reader: Reader<'a>,
}

impl<'a> Model for Cursor<'a> {
    ghost use Rattle.std.specs.Prelude.{List};
    ghost use Rattle.json.specs.Token.{Token as SpecToken, tokens_code};

    ghost Value = { List SpecToken };

    ghost coded = { tokens_code };

    ghost view = { λ c. c.reader };
}

impl<'a> Cursor<'a> {
    /// A cursor at the start of a text. Strings with escapes are decoded into `scratch`.
    pub fn new(text: &'a str, scratch: &'a mut Scratch) -> Result<Cursor<'a>, Stop>
        ensures { IfOk result (λ cursor. cursor ≡ lex.tokens text.now) }
    {
        let reader = Reader::new(text, scratch)?;
        Ok(Cursor { reader })
    }

    /// Reads the bracket that begins a list.
    #[inline(always)]
    pub fn open_list(&mut self) -> Result<(), Stop>
        ensures { IfOk result (λ _. self.old ≡ token.begin_array ∷ self.new) }
    {
        match self.reader.next() {
            Some(Token::BeginArray) => Ok(()),
            _ => Err(Stop::Fault),
        }
    }

    /// Reads the brace that begins an object.
    #[inline(always)]
    pub fn open_object(&mut self) -> Result<(), Stop>
        ensures { IfOk result (λ _. self.old ≡ token.begin_object ∷ self.new) }
    {
        match self.reader.next() {
            Some(Token::BeginObject) => Ok(()),
            _ => Err(Stop::Fault),
        }
    }

    /// Reads the bracket that ends a list, if it is next.
    #[inline(always)]
    #[tactic(auto, using(json::proofs::Grammar::closed_array))]
    pub fn list_ends(&mut self) -> bool
        ensures { MatchBool result (self.old ≡ token.end_array ∷ self.new) (self.new ≡ self.old) }
    {
        self.reader.take_end_array()
    }

    /// Reads the bracket that ends a list.
    #[inline(always)]
    pub fn close_list(&mut self) -> Result<(), Stop>
        ensures { IfOk result (λ _. self.old ≡ token.end_array ∷ self.new) }
    {
        if self.list_ends() {
            Ok(())
        } else {
            Err(Stop::Fault)
        }
    }

    /// Reads a key, or the brace that ends an object.
    #[inline(always)]
    pub fn next_key(&mut self) -> Result<Option<&'a str>, Stop>
        ensures { IfOk result (λ found. MatchOption found (self.old ≡ token.end_object ∷ self.new) (λ key. self.old ≡ token.key key.now ∷ self.new)) }
    {
        match self.reader.next() {
            Some(Token::Key(key)) => Ok(Some(key)),
            Some(Token::EndObject) => Ok(None),
            _ => Err(Stop::Fault),
        }
    }

    /// Reads a text.
    #[inline(always)]
    pub fn text(&mut self) -> Result<&'a str, Stop>
        ensures { IfOk result (λ text. self.old ≡ token.string text.now ∷ self.new) }
    {
        match self.reader.next() {
            Some(Token::String(text)) => Ok(text),
            _ => Err(Stop::Fault),
        }
    }

    /// Reads a whole number from 0.
    #[inline(always)]
    pub fn whole(&mut self) -> Result<u64, Stop>
        ensures { IfOk result (λ number. IsWhole self.old self.new number) }
    {
        match self.reader.next() {
            Some(Token::Number(text)) => whole_of(text).ok_or(Stop::Fault),
            _ => Err(Stop::Fault),
        }
    }

    /// Reads a whole number.
    #[inline(always)]
    pub fn integer(&mut self) -> Result<i64, Stop>
        ensures { IfOk result (λ number. IsInteger self.old self.new number) }
    {
        match self.reader.next() {
            Some(Token::Number(text)) => integer_of(text).ok_or(Stop::Fault),
            _ => Err(Stop::Fault),
        }
    }

    /// Reads a whole number or null.
    #[inline(always)]
    pub fn integer_or_null(&mut self) -> Result<Option<i64>, Stop>
        ensures { IfOk result (λ found. MatchOption found (self.old ≡ token.null ∷ self.new) (λ number. IsInteger self.old self.new number)) }
    {
        match self.reader.next() {
            Some(Token::Null) => Ok(None),
            Some(Token::Number(text)) => Ok(Some(integer_of(text).ok_or(Stop::Fault)?)),
            _ => Err(Stop::Fault),
        }
    }

    /// Whether no token is left.
    pub fn is_over(&mut self) -> bool
        ensures { result ≡ true → self.old ≡ [] }
    {
        self.reader.next().is_none()
    }
}

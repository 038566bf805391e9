//! Reading lines along the grammar's forms, up to the first token that none of them has.

use crate::grammar::{Item, Place};
use crate::position::{Position, is_in_range, number_of, step_at};
use crate::token::{Kind, Token, tokens_of};
use lab_table::{ByRow, MAX_TABLES, NoMemory, RowId, RowName, TableName};
use std::alloc::Global;

/// The most parentheses and `not`s that may be open.
const MAX_DEPTH: usize = 16;

/// What is wrong with a token.
#[derive(Clone, Copy, PartialEq, Eq)]
pub enum Wrong {
    /// No form has it.
    Unexpected,
    /// A word that is no name stands where the name of a table does.
    NotAName,
    /// The digits of this item are out of its range.
    OutOfRange(Item),
    /// It opens one thing too many.
    TooDeep,
    /// It ends a row that the setup has already.
    RepeatedRow,
    /// It names one table too many.
    FifthTable,
}

/// Where reading a line stopped, and why.
#[derive(Clone, Copy)]
pub struct Stop<'a> {
    /// The token, or None at the end of the line.
    pub found: Option<Token<'a>>,
    /// The token before it, if there is one, and whether that is a table's name.
    pub before: Option<Token<'a>>,
    pub is_behind_name: bool,
    /// The code from the token on.
    pub rest: &'a [u8],
    pub position: Position,
    pub wrong: Wrong,
}

impl Stop<'_> {
    /// Whether a number is at fault that has a minus before it.
    pub fn is_signed_number(&self) -> bool {
        self.position.signed && self.wrong != Wrong::Unexpected
    }

    /// The column of what is at fault, or None at the end of the line. A number begins at its minus.
    pub fn column(&self) -> Option<usize> {
        let first = if self.is_signed_number() {
            self.before
        } else {
            self.found
        };
        Some(first?.column)
    }

    /// Whether what was found is foreign to names and stands where one does, or right behind one.
    pub fn is_in_name(&self) -> bool {
        let Some(token) = self.found else {
            return false;
        };
        if !token.is_foreign_to_names() {
            return false;
        }
        match self.before {
            Some(before) if self.is_behind_name => {
                before.column.saturating_add(before.text.len()) == token.column
            }
            _ => self.position.items.first() == Some(&Item::Name),
        }
    }

    /// Whether the line seems to be the rest of what the line before it begins.
    pub fn goes_on(&self) -> bool {
        self.before.is_none() && self.found.is_some_and(|token| token.is_of_grammar())
    }
}

/// What is open in a predicate.
#[derive(Clone, Copy, PartialEq, Eq)]
enum Opened {
    Not,
    Parenthesis,
}

/// A script as far as it was read.
#[derive(Drop)]
pub struct Walk {
    /// Where the line began, and how far it was read.
    front: Place,
    position: Position,
    /// Whether a table's name was read last.
    is_behind_name: bool,
    /// What is open in the predicate that is being read.
    opened: Vec<Opened>,
    /// The tables that were named, and the rows of the setup.
    tables: Vec<TableName>,
    rows: ByRow<()>,
    /// The row that is being read.
    table: TableName,
    id: Option<RowId>,
}

impl Walk {
    /// Nothing was read.
    pub fn new(alloc: Global) -> Walk {
        Walk {
            front: Place::Setup,
            position: Position::at(Place::Setup),
            is_behind_name: false,
            opened: Vec::new(alloc),
            tables: Vec::new(alloc),
            rows: ByRow::new(alloc),
            table: TableName::test(),
            id: None,
        }
    }

    /// Where the line began that was read last.
    pub fn front(&self) -> Place {
        self.front
    }

    /// The tables that were named.
    pub fn tables(&self) -> &[TableName] {
        &self.tables
    }

    /// The row that was read last, if one was.
    pub fn row(&self) -> Option<RowName> {
        let id = self.id?;
        Some(RowName {
            table: self.table,
            id,
        })
    }

    /// Reads a line's code from a place on, and answers where that stopped; None where all of it was read.
    pub fn read<'a>(
        &mut self,
        alloc: Global,
        place: Place,
        code: &'a [u8],
    ) -> Result<Option<Stop<'a>>, NoMemory> {
        let tokens = tokens_of(alloc, code)?;
        self.front = place;
        self.position = Position::at(place);
        self.is_behind_name = false;
        self.opened.clear();
        let mut before = None;
        for token in &tokens {
            if let Some(wrong) = self.step(token)? {
                return Ok(Some(self.stop(code, before, Some(*token), wrong)));
            }
            before = Some(*token);
        }
        if self.position.may_end() {
            Ok(None)
        } else {
            Ok(Some(self.stop(code, before, None, Wrong::Unexpected)))
        }
    }

    fn stop<'a>(
        &self,
        code: &'a [u8],
        before: Option<Token<'a>>,
        found: Option<Token<'a>>,
        wrong: Wrong,
    ) -> Stop<'a> {
        let column = found.map_or(code.len() + 1, |token| token.column);
        let (_, rest) = code.split_at(column.saturating_sub(1).min(code.len()));
        Stop {
            found,
            before,
            is_behind_name: self.is_behind_name,
            rest,
            position: self.position,
            wrong,
        }
    }

    /// Goes on by a token, or says what is wrong with it.
    fn step(&mut self, token: &Token<'_>) -> Result<Option<Wrong>, NoMemory> {
        let Some(step) = step_at(self.position, token) else {
            return Ok(Some(Wrong::Unexpected));
        };
        let wrong = match step.item {
            Item::Text(text) => self.met_text(text, step.behind)?,
            Item::Name => self.met_name(token)?,
            Item::Id | Item::Value | Item::Modulus => {
                if token.kind == Kind::Sign {
                    self.position.signed = true;
                    return Ok(None);
                }
                self.met_digits(step.item, token)
            }
            Item::Word | Item::Comparison => None,
        };
        if wrong.is_none() {
            self.is_behind_name = step.item == Item::Name;
            self.go_on(step.behind);
        }
        Ok(wrong)
    }

    /// What a word or a sign of a form means.
    fn met_text(&mut self, text: &str, behind: Position) -> Result<Option<Wrong>, NoMemory> {
        match text {
            "not" => self.open(Opened::Not),
            "(" => self.met_parenthesis(),
            ")" => self.met_closing(behind),
            _ => Ok(None),
        }
    }

    /// A parenthesis opens one of a predicate, or a row of a setup that has no name before it.
    fn met_parenthesis(&mut self) -> Result<Option<Wrong>, NoMemory> {
        match self.position.place {
            Place::Term => self.open(Opened::Parenthesis),
            Place::FirstRow => {
                self.table = TableName::test();
                Ok(None)
            }
            Place::NextRow => {
                self.table = TableName::test();
                self.add_table(self.table)
            }
            _ => Ok(None),
        }
    }

    /// A parenthesis closes one of a predicate, or ends a row of a setup.
    fn met_closing(&mut self, behind: Position) -> Result<Option<Wrong>, NoMemory> {
        if self.position.place == Place::InnerEnd {
            let _ = self.opened.pop();
            return Ok(None);
        }
        match self.row() {
            Some(row) if behind.place == Place::RowEnd => self.add_row(row),
            _ => Ok(None),
        }
    }

    fn met_name(&mut self, token: &Token<'_>) -> Result<Option<Wrong>, NoMemory> {
        match TableName::spelled(token.text) {
            None => Ok(Some(Wrong::NotAName)),
            Some(name) => {
                self.table = name;
                self.add_table(name)
            }
        }
    }

    fn met_digits(&mut self, item: Item, token: &Token<'_>) -> Option<Wrong> {
        let number = number_of(token.text);
        if !is_in_range(item, self.position.signed, number) {
            return Some(Wrong::OutOfRange(item));
        }
        if item == Item::Id {
            self.id = RowId::new(number);
        }
        None
    }

    fn open(&mut self, what: Opened) -> Result<Option<Wrong>, NoMemory> {
        if self.opened.len() >= MAX_DEPTH {
            return Ok(Some(Wrong::TooDeep));
        }
        self.opened.push(what)?;
        Ok(None)
    }

    fn add_table(&mut self, table: TableName) -> Result<Option<Wrong>, NoMemory> {
        if self.tables.contains(&table) {
            return Ok(None);
        }
        if self.tables.len() >= MAX_TABLES {
            return Ok(Some(Wrong::FifthTable));
        }
        self.tables.push(table)?;
        Ok(None)
    }

    /// Adds a row of the setup. The table of the first one may be new.
    fn add_row(&mut self, row: RowName) -> Result<Option<Wrong>, NoMemory> {
        if self.rows.get(row).is_some() {
            return Ok(Some(Wrong::RepeatedRow));
        }
        self.rows.put(row, ())?;
        self.add_table(row.table)
    }

    /// Goes to a position, and from there to the place that its surroundings make of it.
    fn go_on(&mut self, position: Position) {
        self.position = position;
        if !position.items.is_empty() {
            return;
        }
        if position.place == Place::TermEnd {
            self.end_term();
        } else if position.place == Place::NextStatement && self.front == Place::Operation {
            self.position.place = Place::LineEnd;
        }
    }

    /// A term ends the `not`s before it, and where a parenthesis is open the term is inside it.
    fn end_term(&mut self) {
        while self.opened.last() == Some(&Opened::Not) {
            let _ = self.opened.pop();
        }
        if !self.opened.is_empty() {
            self.position.place = Place::InnerEnd;
        }
    }
}

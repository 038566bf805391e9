//! Tables of a script that may be misspelled: one statement alone names them, and the setup has no row of them.

use crate::text::{Part, code_and_remark, put};
use crate::token::{Kind, tokens_of};
use bstr::ByteSlice;
use lab_table::NoMemory;
use std::alloc::Global;

/// The table of rows without a name.
const UNNAMED: &[u8] = b"test";

/// A table that a script names.
#[derive(Clone, Copy)]
struct Named<'a> {
    name: &'a [u8],
    /// The line of the statement that names it first, counted from 1.
    line: usize,
    /// Whether a row of the setup or another statement has it too.
    is_known: bool,
}

/// The tables that a part of a script names.
#[derive(Drop)]
struct Tables<'a> {
    items: Vec<Named<'a>>,
}

/// A text without the blanks that begin it.
fn after_blanks(text: &[u8]) -> &[u8] {
    let blanks = text
        .iter()
        .take_while(|byte| **byte == b' ' || **byte == b'\t')
        .count();
    let (_, rest) = text.split_at(blanks.min(text.len()));
    rest
}

/// The word that begins a text, which may be empty, and what comes after it and blanks.
fn first_word(text: &[u8]) -> (&[u8], &[u8]) {
    let letters = text
        .iter()
        .take_while(|byte| byte.is_ascii_alphabetic() || **byte == b'_')
        .count();
    let (word, rest) = text.split_at(letters.min(text.len()));
    (word, after_blanks(rest))
}

/// The table of the statement that begins a text, if it has one.
fn table_of(text: &[u8]) -> Option<&[u8]> {
    let (word, rest) = first_word(text);
    // All statements that have a table begin with a word of six letters.
    if word.len() != 6 {
        return None;
    }
    let rest = match word.first() {
        Some(b'u' | b'U') => rest,
        Some(b'd' | b'D' | b'i' | b'I') => first_word(rest).1,
        Some(b's' | b'S') => first_word(after_blanks(rest.strip_prefix(b"*")?)).1,
        _ => return None,
    };
    Some(first_word(rest).0)
}

/// What comes after the statement that begins a line's rest, without blanks; None if no statement does.
fn next_statement(text: &[u8]) -> Option<&[u8]> {
    let mut rest = text;
    for _ in 0..text.len() {
        let place = rest.iter().position(|byte| *byte == b';' || *byte == b'-')?;
        let (_, from) = rest.split_at(place.min(rest.len()));
        let (first, after) = from.split_first()?;
        if *first == b';' {
            return Some(after_blanks(after));
        }
        if after.first() == Some(&b'-') {
            return None;
        }
        rest = after;
    }
    None
}

impl<'a> Tables<'a> {
    /// Adds a table that a row of the setup has, or a statement of a line.
    fn add(&mut self, name: &'a [u8], line: usize, is_known: bool) -> Result<(), NoMemory> {
        for item in self.items.as_mut_slice() {
            if item.name.eq_ignore_ascii_case(name) {
                item.is_known = true;
                return Ok(());
            }
        }
        self.items.push(Named {
            name,
            line,
            is_known,
        })?;
        Ok(())
    }

    /// Adds the tables of the rows of a setup.
    fn add_setup(&mut self, alloc: Global, code: &'a [u8]) -> Result<(), NoMemory> {
        let tokens = tokens_of(alloc, code)?;
        let mut is_named = false;
        let mut is_open = false;
        for token in &tokens {
            if token.kind == Kind::Word && !token.is("setup") {
                self.add(token.text, 0, true)?;
                is_named = true;
            } else if is_open && !is_named && token.kind == Kind::Digits {
                self.add(UNNAMED, 0, true)?;
            } else if token.is(")") {
                is_named = false;
            }
            is_open = token.is("(");
        }
        Ok(())
    }

    /// Adds the tables of a line's statements. The line begins with one.
    fn add_line(&mut self, text: &'a [u8], line: usize) -> Result<(), NoMemory> {
        let mut rest = text;
        for _ in 0..text.len() {
            if let Some(name) = table_of(rest) {
                self.add(name, line, false)?;
            }
            match next_statement(rest) {
                Some(next) => rest = next,
                None => break,
            }
        }
        Ok(())
    }

    /// Those of a script.
    fn of(alloc: Global, script: &'a [u8]) -> Result<Tables<'a>, NoMemory> {
        let mut tables = Tables {
            items: Vec::new(alloc),
        };
        let mut is_setup = true;
        for (index, line) in script.lines().enumerate() {
            let text = after_blanks(line);
            if text.is_empty() || text.starts_with(b"--") {
                continue;
            }
            if is_setup {
                let (code, _) = code_and_remark(text);
                tables.add_setup(alloc, code)?;
                is_setup = false;
            } else {
                tables.add_line(text, index.saturating_add(1))?;
            }
        }
        Ok(tables)
    }
}

/// One line on the tables of a script that one statement alone names, and of which the setup has no row; nothing if there
/// are none.
pub fn lone_tables_hint(alloc: Global, script: &[u8]) -> Result<Vec<u8>, NoMemory> {
    let tables = Tables::of(alloc, script)?;
    let mut out = Vec::new(alloc);
    for table in &tables.items {
        if !table.is_known {
            let front = if out.is_empty() {
                "no row of the setup and no other statement has the table "
            } else {
                ", "
            };
            put(
                &mut out,
                &[
                    Part::Say(front),
                    Part::Shown(table.name),
                    Part::Say(" of line "),
                    Part::Number(table.line as u64),
                ],
            )?;
        }
    }
    if !out.is_empty() {
        out.push(b'\n')?;
    }
    Ok(out)
}

//! The words, digits and signs of a line's code, with their columns.

ghost use Rattle.std.specs.Prelude.{◌≤◌, length};

use lab_table::{NoMemory, Word};
use std::alloc::Global;

/// What the signs of the grammar are made of, but for the minus.
const SIGNS: &[u8] = b"(),;*<=>%+";

/// What a token is made of.
#[derive(Clone, Copy, PartialEq, Eq)]
pub enum Kind {
    /// Letters and `_`.
    Word,
    Digits,
    /// A sign, or a byte that begins no token.
    Sign,
}

/// A token of a line. Columns count bytes, from 1.
#[derive(Clone, Copy)]
pub struct Token<'a> {
    pub kind: Kind,
    pub text: &'a [u8],
    pub column: usize,
}

impl Token<'_> {
    /// Whether this is a word or a sign, in either case.
    pub fn is(&self, text: &str) -> bool {
        self.text.eq_ignore_ascii_case(text.as_bytes())
    }

    /// Whether this is a minus, or a byte that begins no token of the grammar.
    fn is_foreign_sign(&self) -> bool {
        self.kind == Kind::Sign && !self.text.iter().any(|byte| SIGNS.contains(byte))
    }

    /// Whether a name may have this elsewhere, and none of the grammar has: digits, or such a sign.
    pub fn is_foreign_to_names(&self) -> bool {
        self.kind == Kind::Digits || self.is_foreign_sign()
    }

    /// Whether this stands in a statement or a setup.
    pub fn is_of_grammar(&self) -> bool {
        match self.kind {
            Kind::Word => Word::named(self.text).is_some(),
            Kind::Digits => true,
            Kind::Sign => !self.is_foreign_sign(),
        }
    }
}

fn is_letter(byte: u8) -> bool {
    byte.is_ascii_alphabetic() || byte == b'_'
}

/// What a token that begins with this byte is made of.
fn kind_of(first: u8) -> Kind {
    if is_letter(first) {
        Kind::Word
    } else if first.is_ascii_digit() {
        Kind::Digits
    } else {
        Kind::Sign
    }
}

/// Whether two bytes are one sign.
fn is_sign(first: u8, second: u8) -> bool {
    (first == b'<' && second == b'>') || ((first == b'<' || first == b'>') && second == b'=')
}

/// How many bytes of a token stand behind its first one.
fn more_bytes(first: u8, after: &[u8]) -> usize
    ensures { result ≤ length after.now }
{
    match kind_of(first) {
        Kind::Word => after.iter().take_while(|byte| is_letter(**byte)).count(),
        Kind::Digits => after
            .iter()
            .take_while(|byte| byte.is_ascii_digit())
            .count(),
        Kind::Sign => match after.split_first() {
            Some((second, _)) if is_sign(first, *second) => 1,
            _ => 0,
        },
    }
}

/// The tokens of a line's code.
pub fn tokens_of<'a>(alloc: Global, code: &'a [u8]) -> Result<Vec<Token<'a>>, NoMemory> {
    let mut tokens = Vec::new(alloc);
    let mut rest = code;
    while let Some((first, after)) = rest.split_first() {
        let before = code.len().saturating_sub(rest.len());
        let (_, behind) = after.split_at(more_bytes(*first, after));
        let (text, _) = rest.split_at(rest.len().saturating_sub(behind.len()));
        if *first != b' ' && *first != b'\t' {
            tokens.push(Token {
                kind: kind_of(*first),
                text,
                column: before + 1,
            })?;
        }
        rest = behind;
    }
    Ok(tokens)
}

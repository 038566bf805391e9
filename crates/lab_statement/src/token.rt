//! The tokens of a line's code.

ghost use Rattle.std.specs.Prelude.{◌≡◌, ◌≤◌, ◌∷◌, [], length, map, OnOk};
ghost use Rattle.std.specs.List.{prefix_len};
ghost use Rattle.std.specs.Char.{to_ascii_lowercase};
ghost use Rattle.lab_statement.specs.declared.token.Token.TheVariants as token;
ghost use Rattle.lab_statement.specs.Token.{letters, whole, is_letter, is_blank, is_word, word_token, mark, tokens, tokens_from};

use lab_table::{NoMemory, TableName, Word};

/// A token.
#[derive(Clone, Copy, Debug, PartialEq, Eq)]
pub enum Token {
    /// A reserved word, in either case.
    Word(Word),
    /// The name of a table, which is no reserved word.
    Name(TableName),
    /// Any other word.
    OtherWord,
    /// The number that the digits spell, or any number above the greatest that a text may have.
    Digits(u32),
    Open,
    Close,
    Comma,
    Semicolon,
    Star,
    Equal,
    Unequal,
    Less,
    AtMost,
    Greater,
    AtLeast,
    Percent,
    Plus,
    Minus,
    /// A byte that begins no token.
    Unknown,
}

/// One above the greatest number of any text.
const TOO_LARGE: u64 = 1_000_000_001;

fn is_letter(byte: u8) -> bool
    ensures { result ≡ is_letter byte }
{
    byte.is_ascii_alphabetic() || byte == b'_'
}

/// Whether a byte is a space or a tab.
fn is_blank(byte: u8) -> bool
    ensures { result ≡ is_blank byte }
{
    byte == b' ' || byte == b'\t'
}

impl Token {
    /// Returns whether the token is a word.
    pub fn is_word(self) -> bool
        ensures { result ≡ is_word self }
    {
        match self {
            Token::Word(_) | Token::Name(_) | Token::OtherWord => true,
            _ => false,
        }
    }
}

/// The word that letters spell.
fn word_of(text: &[u8]) -> Token
    ensures { result ≡ word_token (map to_ascii_lowercase text.now) }
{
    if let Some(word) = Word::named(text) {
        return Token::Word(word);
    }
    match TableName::spelled(text) {
        Some(name) => Token::Name(name),
        None => Token::OtherWord,
    }
}

/// How many letters there are at the front.
fn letters_len(bytes: &[u8]) -> usize
    ensures value { result ≡ prefix_len is_letter bytes.now }
    ensures within { result ≤ length bytes.now }
{
    bytes.iter().take_while(|b| is_letter(**b)).count()
}

/// Returns the number of blanks at the start of `bytes`.
pub fn blanks_len(bytes: &[u8]) -> usize
    ensures value { result ≡ prefix_len is_blank bytes.now }
    ensures within { result ≤ length bytes.now }
{
    bytes.iter().take_while(|b| is_blank(**b)).count()
}

/// The word at the front, and what follows it.
#[tactic(auto, using(crate::proofs::Tokens::letters_run))]
fn word_at(bytes: &[u8]) -> (Token, &[u8])
    ensures value { tokens_from (letters []) bytes.now ≡ result.0 ∷ tokens result.1.now }
    ensures within { length result.1.now ≤ length bytes.now }
{
    let (text, rest) = bytes.split_at(letters_len(bytes));
    (word_of(text), rest)
}

/// The digits at the front, behind digits that spell this number, and what follows them.
#[inline(always)]
fn digits_at(number: u32, bytes: &[u8]) -> (u32, &[u8])
    requires { number ≤ 1000000001 }
    ensures value { tokens_from (whole (token.Digits number)) bytes.now ≡ token.Digits result.0 ∷ tokens result.1.now }
    ensures within { length result.1.now ≤ length bytes.now }
{
    let mut number = u64::from(number);
    for (i, byte) in bytes.iter().enumerate() {
        if !byte.is_ascii_digit() {
            return (number as u32, &bytes[i..]);
        }
        number = (10 * number + u64::from(*byte - b'0')).min(TOO_LARGE);
    }
    (number as u32, &[])
}

/// The token that `<` begins, and what follows it.
fn less_at(after: &[u8]) -> (Token, &[u8])
    ensures value { tokens_from (whole token.Less) after.now ≡ result.0 ∷ tokens result.1.now }
    ensures within { length result.1.now ≤ length after.now }
{
    match after {
        [b'>', rest @ ..] => (Token::Unequal, rest),
        [b'=', rest @ ..] => (Token::AtMost, rest),
        _ => (Token::Less, after),
    }
}

/// The token that `>` begins, and what follows it.
fn greater_at(after: &[u8]) -> (Token, &[u8])
    ensures value { tokens_from (whole token.Greater) after.now ≡ result.0 ∷ tokens result.1.now }
    ensures within { length result.1.now ≤ length after.now }
{
    match after {
        [b'=', rest @ ..] => (Token::AtLeast, rest),
        _ => (Token::Greater, after),
    }
}

/// The mark that a byte is, if it is neither blank nor a letter nor a digit.
fn mark_of(byte: u8) -> Token
    ensures { result ≡ mark byte }
{
    match byte {
        b'<' => Token::Less,
        b'>' => Token::Greater,
        b'(' => Token::Open,
        b')' => Token::Close,
        b',' => Token::Comma,
        b';' => Token::Semicolon,
        b'*' => Token::Star,
        b'=' => Token::Equal,
        b'%' => Token::Percent,
        b'+' => Token::Plus,
        b'-' => Token::Minus,
        _ => Token::Unknown,
    }
}

/// The mark that begins with this byte, and what follows it.
#[tactic(auto, using(crate::proofs::Tokens::other_mark))]
fn mark_at(first: u8, after: &[u8]) -> (Token, &[u8])
    ensures value { tokens_from (whole (mark first)) after.now ≡ result.0 ∷ tokens result.1.now }
    ensures within { length result.1.now ≤ length after.now }
{
    if first == b'<' {
        less_at(after)
    } else if first == b'>' {
        greater_at(after)
    } else {
        (mark_of(first), after)
    }
}

/// Replaces the content of `found` by the tokens of `text`.
#[tactic(auto, using(crate::proofs::Tokens::comma_begins))]
pub fn tokens_into(found: &mut Vec<Token>, text: &[u8]) -> Result<(), NoMemory>
    ensures { OnOk result (found.new.items ≡ tokens text.now) }
{
    found.clear();
    let mut rest = text;
    // Each branch pushes its own token, so that none is copied on its way. Digits and commas are told first, since the
    // longest texts are lists of numbers.
    while let Some((first, after)) = rest.split_first() {
        if first.is_ascii_digit() {
            let (number, behind) = digits_at(u32::from(*first - b'0'), after);
            found.push(Token::Digits(number))?;
            rest = behind;
        } else if *first == b',' {
            found.push(Token::Comma)?;
            rest = after;
        } else if is_blank(*first) {
            rest = after;
        } else if is_letter(*first) {
            let (word, behind) = word_at(rest);
            found.push(word)?;
            rest = behind;
        } else {
            let (mark, behind) = mark_at(*first, after);
            found.push(mark)?;
            rest = behind;
        }
    }
    Ok(())
}

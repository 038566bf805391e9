//! The reserved words of scripts.

ghost use Rattle.std.specs.Prelude.{◌≡◌};
ghost use Rattle.std.specs.Str.{bytes_eq};
ghost use Rattle.lab_table.specs.TableName.{in_lower_case};
ghost use Rattle.lab_table.specs.Words.{word_named};

/// A reserved word of scripts. It can't be the name of a table.
#[derive(Clone, Copy, Debug, PartialEq, Eq)]
pub enum Word {
    Select,
    From,
    Where,
    Update,
    Set,
    Value,
    Insert,
    Into,
    Id,
    Values,
    Delete,
    And,
    Or,
    Not,
    In,
    Begin,
    Commit,
    Abort,
    Rollback,
    Setup,
    Transaction,
    Isolation,
    Level,
}

impl Word {
    /// Returns the reserved word that `text` spells, in upper or lower case, or `None` if it isn't one.
    pub fn named(text: &[u8]) -> Option<Word>
        ensures { result ≡ word_named (in_lower_case text.now) }
    {
        if is_spelled(text, b"select") {
            Some(Word::Select)
        } else if is_spelled(text, b"from") {
            Some(Word::From)
        } else if is_spelled(text, b"where") {
            Some(Word::Where)
        } else if is_spelled(text, b"update") {
            Some(Word::Update)
        } else if is_spelled(text, b"set") {
            Some(Word::Set)
        } else if is_spelled(text, b"value") {
            Some(Word::Value)
        } else if is_spelled(text, b"insert") {
            Some(Word::Insert)
        } else if is_spelled(text, b"into") {
            Some(Word::Into)
        } else if is_spelled(text, b"id") {
            Some(Word::Id)
        } else if is_spelled(text, b"values") {
            Some(Word::Values)
        } else if is_spelled(text, b"delete") {
            Some(Word::Delete)
        } else if is_spelled(text, b"and") {
            Some(Word::And)
        } else if is_spelled(text, b"or") {
            Some(Word::Or)
        } else if is_spelled(text, b"not") {
            Some(Word::Not)
        } else if is_spelled(text, b"in") {
            Some(Word::In)
        } else if is_spelled(text, b"begin") {
            Some(Word::Begin)
        } else if is_spelled(text, b"commit") {
            Some(Word::Commit)
        } else if is_spelled(text, b"abort") {
            Some(Word::Abort)
        } else if is_spelled(text, b"rollback") {
            Some(Word::Rollback)
        } else if is_spelled(text, b"setup") {
            Some(Word::Setup)
        } else if is_spelled(text, b"transaction") {
            Some(Word::Transaction)
        } else if is_spelled(text, b"isolation") {
            Some(Word::Isolation)
        } else if is_spelled(text, b"level") {
            Some(Word::Level)
        } else {
            None
        }
    }
}

/// Whether a text is spelled so, in either case.
fn is_spelled(text: &[u8], spelling: &[u8]) -> bool
    ensures { result ≡ bytes_eq (in_lower_case text.now) (in_lower_case spelling.now) }
{
    text.eq_ignore_ascii_case(spelling)
}

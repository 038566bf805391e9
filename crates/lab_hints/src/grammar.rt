//! What may stand where in a script, as a table of the grammar's forms.
//!
//! A line is read along forms. Each has items that come one after the other, and says at which place the line goes on
//! behind them: there one of several forms comes. The first items of the forms of a place differ, so a token tells which of
//! them it begins.

/// What a form asks for.
#[derive(Clone, Copy, PartialEq, Eq)]
pub enum Item {
    /// This word or sign.
    Text(&'static str),
    /// The name of a table.
    Name,
    /// Any word.
    Word,
    /// A sign that compares.
    Comparison,
    /// A row's id.
    Id,
    /// A value, or a number in a predicate or an expression.
    Value,
    /// What a remainder is taken by.
    Modulus,
}

/// Where a line goes on.
#[derive(Clone, Copy, PartialEq, Eq)]
pub enum Place {
    /// The front of a setup.
    Setup,
    /// Behind `setup`.
    FirstRow,
    /// Behind the first parenthesis of a setup.
    FirstId,
    /// Behind the comma between two rows of a setup.
    NextRow,
    /// Behind a row of a setup, or the parentheses that stand for none.
    RowEnd,
    NoRowEnd,
    /// Where nothing more comes.
    LineEnd,
    /// The front of a line of statements.
    Statement,
    /// Behind the semicolon of a statement.
    NextStatement,
    /// Behind a statement that is whole.
    StatementEnd,
    /// The front of a statement of a history file.
    Operation,
    /// Behind a word of an isolation level.
    LevelWord,
    /// Where a predicate may come.
    Where,
    /// The new value of an update.
    NewValue,
    /// The sign of an update that adds or subtracts.
    Sign,
    /// The front of a term of a predicate.
    Term,
    /// Behind a column.
    Test,
    /// Behind the parenthesis of a list of numbers.
    FirstNumber,
    /// Behind a number of a list.
    NumberEnd,
    /// Behind a term, where no parenthesis is open.
    TermEnd,
    /// Behind a term, where one is.
    InnerEnd,
}

/// Items that come one after the other, and where the line goes on behind them.
#[derive(Clone, Copy)]
pub struct Form {
    pub items: &'static [Item],
    pub then: Place,
}

/// A form, as `form!(Text("into"), Name => Rows)`.
macro_rules! form {
    ($($item:ident $(($text:literal))?),+ => $then:ident) => {
        Form {
            items: &[$(Item::$item $(($text))?),+],
            then: Place::$then,
        }
    };
}

const SELECT: Form = form!(Text("select"), Text("*"), Text("from"), Name => Where);

const UPDATE: Form = form!(Text("update"), Name, Text("set"), Text("value"), Text("=") => NewValue);

const INSERT: Form =
    form!(Text("insert"), Text("into"), Name, Text("("), Text("id"), Text(","), Text("value"), Text(")"),
    Text("values"), Text("("), Id, Text(","), Value, Text(")") => StatementEnd);

const DELETE: Form = form!(Text("delete"), Text("from"), Name => Where);

const STATEMENTS: [Form; 9] = [
    form!(Text("begin") => StatementEnd),
    form!(Text("commit") => StatementEnd),
    form!(Text("abort") => StatementEnd),
    form!(Text("rollback") => StatementEnd),
    form!(Text("set"), Text("transaction"), Text("isolation"), Text("level"), Word => LevelWord),
    SELECT,
    UPDATE,
    INSERT,
    DELETE,
];

/// The forms of which one comes at a place.
pub fn forms(place: Place) -> &'static [Form] {
    match place {
        Place::Setup => &[form!(Text("setup") => FirstRow)],
        Place::FirstRow => &[
            form!(Text("(") => FirstId),
            form!(Name, Text("("), Id, Text(","), Value, Text(")") => RowEnd),
        ],
        Place::FirstId => &[
            form!(Id, Text(","), Value, Text(")") => RowEnd),
            form!(Text(")") => NoRowEnd),
        ],
        Place::NextRow => &[
            form!(Text("("), Id, Text(","), Value, Text(")") => RowEnd),
            form!(Name, Text("("), Id, Text(","), Value, Text(")") => RowEnd),
        ],
        Place::RowEnd => &[form!(Text(",") => NextRow), form!(Text(";") => LineEnd)],
        Place::NoRowEnd => &[form!(Text(";") => LineEnd)],
        Place::LineEnd => &[],
        Place::Statement | Place::NextStatement => &STATEMENTS,
        Place::StatementEnd => &[form!(Text(";") => NextStatement)],
        Place::Operation => &[SELECT, UPDATE, INSERT, DELETE],
        Place::LevelWord => &[form!(Word => LevelWord), form!(Text(";") => NextStatement)],
        Place::Where => &[
            form!(Text("where") => Term),
            form!(Text(";") => NextStatement),
        ],
        Place::NewValue => &[form!(Value => Where), form!(Text("value") => Sign)],
        Place::Sign => &[
            form!(Text("+"), Value => Where),
            form!(Text("-"), Value => Where),
        ],
        Place::Term => &[
            form!(Text("id") => Test),
            form!(Text("value") => Test),
            form!(Text("not") => Term),
            form!(Text("(") => Term),
        ],
        Place::Test => &[
            form!(Comparison, Value => TermEnd),
            form!(Text("%"), Modulus, Text("="), Value => TermEnd),
            form!(Text("in"), Text("(") => FirstNumber),
        ],
        Place::FirstNumber => &[form!(Value => NumberEnd), form!(Text(")") => TermEnd)],
        Place::NumberEnd => &[
            form!(Text(","), Value => NumberEnd),
            form!(Text(")") => TermEnd),
        ],
        Place::TermEnd => &[
            form!(Text("and") => Term),
            form!(Text("or") => Term),
            form!(Text(";") => NextStatement),
        ],
        Place::InnerEnd => &[
            form!(Text("and") => Term),
            form!(Text("or") => Term),
            form!(Text(")") => TermEnd),
        ],
    }
}

/// Whether a line may end at a place.
pub fn may_end(place: Place) -> bool {
    matches!(
        place,
        Place::RowEnd
            | Place::NoRowEnd
            | Place::LineEnd
            | Place::NextStatement
            | Place::StatementEnd
            | Place::LevelWord
            | Place::Where
            | Place::TermEnd
    )
}

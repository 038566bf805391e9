//! What the listings of the cases are built of.

ghost use Rattle.std.specs.Prelude.{◌≡◌, ◌≤◌, ◌<◌, ◌+◌, ◌++◌, ◌∷◌, pos, [], length, Some, IfOk};
ghost use Rattle.lab_table.specs.Predicate.{Compare, Remainder, OneOf};
ghost use Rattle.lab_table.specs.declared.predicate.Cmp.TheVariants.{Eq};
ghost use Rattle.lab_table.specs.declared.statement.Expr.TheVariants.{Set};
ghost use Rattle.lab_table.specs.declared.statement.StatementKind.TheVariants as kind;
ghost use Rattle.lab_table.specs.Row.{in_test};
ghost use Rattle.lab_matrix.specs.Listings.{usual_setup, on_test};

use lab_script::{Line, Lines, Script};
use lab_table::{
    Cmp, Col, Command, Expr, Modulus, NoMemory, Numbers, Pred, PredKind, RowId, RowName, Session,
    Statement, StatementKind, Table, TableName, Value,
};
use std::alloc::Global;
use std::marker::Model;

/// The session with this number.
pub(crate) fn session(number: u8) -> Session
    requires low { 1 ≤ number }
    requires high { number ≤ 9 }
    ensures { result ≡ number }
{
    Session::new(number).unwrap()
}

/// The row id of this number.
pub(crate) fn row_id(number: u32) -> RowId
    requires low { 1 ≤ number }
    requires high { number ≤ 999999 }
    ensures { result ≡ number }
{
    RowId::new(number).unwrap()
}

/// The row of the table `test` with this id.
pub(crate) fn row(id: u32) -> RowName
    requires low { 1 ≤ id }
    requires high { id ≤ 999999 }
    ensures { result ≡ in_test id }
{
    RowName::in_test(row_id(id))
}

/// The value of this number.
pub(crate) fn value(number: u32) -> Value
    requires { number ≤ 1000000000 }
    ensures { result ≡ pos number }
{
    Value::new(i64::from(number)).unwrap()
}

/// The modulus of this number.
pub(crate) fn modulus(number: u32) -> Modulus
    requires low { 1 ≤ number }
    requires high { number ≤ 1000000 }
    ensures { result ≡ number }
{
    Modulus::new(number).unwrap()
}

/// That a column equals a number.
pub(crate) fn equals(col: Col, number: u32) -> Pred
    requires { number ≤ 1000000000 }
    ensures { result ≡ Compare col Eq (pos number) }
{
    Pred {
        kind: PredKind::Compare {
            col,
            cmp: Cmp::Eq,
            number: value(number),
        },
    }
}

/// That a column divided by a number leaves a rest.
pub(crate) fn leaves(col: Col, divisor: u32, rest: u32) -> Pred
    requires low { 1 ≤ divisor }
    requires high { divisor ≤ 1000000 }
    requires rest { rest ≤ 1000000000 }
    ensures { result ≡ Remainder col divisor (pos rest) }
{
    Pred {
        kind: PredKind::Remainder {
            col,
            modulus: modulus(divisor),
            rest: value(rest),
        },
    }
}

/// Numbers that a column is compared with, as they are listed.
#[derive(Drop)]
pub(crate) struct Listed {
    items: Vec<Value>,
}

impl Model for Listed {
    ghost use Rattle.std.specs.Prelude.{List, ℤ};

    ghost Value = { List ℤ };

    ghost view = { λ l. l.items.items };
}

impl Listed {
    /// No numbers.
    pub(crate) fn new(alloc: Global) -> Listed
        ensures { result ≡ [] }
    {
        Listed {
            items: Vec::new(alloc),
        }
    }

    /// These numbers and one more.
    pub(crate) fn with(self, number: u32) -> Result<Listed, NoMemory>
        requires { number ≤ 1000000000 }
        ensures { IfOk result (λ listed. listed ≡ self ++ pos number ∷ []) }
    {
        let Listed { items } = self;
        let mut items = items;
        items.push(value(number))?;
        Ok(Listed { items })
    }

    /// That a column is one of these numbers.
    pub(crate) fn has(self, col: Col) -> Pred
        ensures { result ≡ OneOf col self }
    {
        let Listed { items } = self;
        Pred {
            kind: PredKind::OneOf {
                col,
                numbers: Numbers::new(items),
            },
        }
    }
}

/// A statement on the rows of the table `test`.
fn run_on_test(kind: StatementKind) -> Command
    ensures { result ≡ on_test kind }
{
    Command::Run(Statement {
        table: TableName::test(),
        kind,
    })
}

/// Sets the value of one row.
pub(crate) fn set_one(id: u32, number: u32) -> Command
    requires id { id ≤ 1000000000 }
    requires value { number ≤ 1000000000 }
    ensures { result ≡ on_test (kind.Update (Set (pos number)) (Some (Compare Col.Id Eq (pos id)))) }
{
    run_on_test(StatementKind::Update {
        expr: Expr::Set(value(number)),
        pred: Some(equals(Col::Id, id)),
    })
}

/// Adds a row.
pub(crate) fn insert(id: u32, number: u32) -> Command
    requires low { 1 ≤ id }
    requires high { id ≤ 999999 }
    requires value { number ≤ 1000000000 }
    ensures { result ≡ on_test (kind.Insert id (pos number)) }
{
    run_on_test(StatementKind::Insert {
        id: row_id(id),
        value: value(number),
    })
}

/// Lists the rows that match, or all rows.
pub(crate) fn select(pred: Option<Pred>) -> Command
    ensures { result ≡ on_test (kind.Select pred) }
{
    run_on_test(StatementKind::Select { pred })
}

/// The table that each case begins with: (1, 10), (2, 20).
pub(crate) fn usual(alloc: Global) -> Result<Table, NoMemory>
    ensures { IfOk result (λ table. table ≡ usual_setup) }
{
    let mut table = Table::new(alloc);
    table.add(alloc, row(1), value(10))?;
    table.add(alloc, row(2), value(20))?;
    Ok(table)
}

/// A listing as it is written down: one command on each text line from line 2 on.
#[derive(Drop)]
pub(crate) struct Listing {
    lines: Lines,
}

impl Model for Listing {
    ghost use Rattle.std.specs.Prelude.{List};
    ghost use Rattle.std.specs.Coded.{coded_list};
    ghost use Rattle.lab_script.specs.declared.script.Line.{Line};
    ghost use Rattle.lab_script.specs.contracts.script.Line as line;

    ghost Value = { List Line };

    ghost coded = { coded_list line.the_row.coded };

    ghost view = { λ l. l.lines };
}

impl Listing {
    /// No commands.
    pub(crate) fn new(alloc: Global) -> Listing
        ensures { result ≡ [] }
    {
        Listing {
            lines: Lines::new(Vec::new(alloc)),
        }
    }

    /// These commands and one more of a session.
    pub(crate) fn with(self, session: Session, command: Command) -> Result<Listing, NoMemory>
        requires { length self < 2000 }
        ensures { IfOk result (λ listing. listing ≡ self ++ record { session = session; command = command; text_line = length self + 2 } ∷ []) }
    {
        let Listing { lines } = self;
        let mut lines = lines;
        let text_line = lines.as_slice().len() as u32 + 2;
        lines.push(Line {
            session,
            command,
            text_line,
        })?;
        Ok(Listing { lines })
    }

    /// The script of these commands over the usual table.
    pub(crate) fn script(self, alloc: Global) -> Result<Script, NoMemory>
        ensures { IfOk result (λ script. script ≡ record { setup = usual_setup; lines = self }) }
    {
        let Listing { lines } = self;
        Ok(Script {
            setup: usual(alloc)?,
            lines,
        })
    }
}

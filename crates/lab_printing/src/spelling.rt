//! The printed form of statements. Functions that spell a text return whether the sink took all of it.

ghost use Rattle.std.specs.Prelude.{◌≡◌, ◌++◌, ◌||◌, codes};
ghost use Rattle.std.specs.Fmt.{decimal, signed_decimal};
ghost use Rattle.lab_printing.specs.Printed.{printed_col, printed_cmp, joined, printed_numbers, parenthesized, printed_pred, printed_where, printed_expr, is_and, is_or, printed_kind, printed_statement, printed_command};
ghost use Rattle.lab_printing.specs.Each.{Each};
ghost use Rattle.lab_printing.specs.Ranges.{ValueInRange, ModulusInRange, PredInRange, WhereInRange, ExprInRange, KindInRange, StatementInRange, CommandInRange};
ghost use Rattle.lab_printing.specs.Sink.{OnTaken, Puts};

use crate::row_text::{spell_both, spell_natural, spell_row};
use crate::sink::Sink;
use crate::spell::{Spell, spell_all};
use lab_table::{
    Cmp, Col, Command, Expr, Modulus, Pred, PredKind, Statement, StatementKind, Value,
};

fn col_text(col: Col) -> &'static [u8]
    ensures { result.now ≡ printed_col col }
{
    match col {
        Col::Id => b"id",
        Col::Value => b"value",
    }
}

fn cmp_text(cmp: Cmp) -> &'static [u8]
    ensures { result.now ≡ printed_cmp cmp }
{
    match cmp {
        Cmp::Eq => b" = ",
        Cmp::Ne => b" <> ",
        Cmp::Lt => b" < ",
        Cmp::Le => b" <= ",
        Cmp::Gt => b" > ",
        Cmp::Ge => b" >= ",
    }
}

/// Spells a text and a number behind it.
fn spell_text_number<S: Sink>(out: &mut S, text: &[u8], number: Value) -> bool
    ensures in_range { OnTaken result (ValueInRange number) }
    ensures text { Puts S.kept S.limit result (S.text out.old) (text.now ++ signed_decimal number) (S.text out.new) }
{
    out.put(text) && number.spell(out)
}

fn spell_comparison<S: Sink>(out: &mut S, col: Col, cmp: Cmp, number: Value) -> bool
    ensures in_range { OnTaken result (ValueInRange number) }
    ensures text { Puts S.kept S.limit result (S.text out.old) (printed_col col ++ printed_cmp cmp ++ signed_decimal number) (S.text out.new) }
{
    out.put(col_text(col)) && spell_text_number(out, cmp_text(cmp), number)
}

fn spell_remainder<S: Sink>(out: &mut S, col: Col, modulus: Modulus, rest: Value) -> bool
    ensures in_range { OnTaken result (ModulusInRange modulus × ValueInRange rest) }
    ensures text { Puts S.kept S.limit result (S.text out.old) (printed_col col ++ codes " % " ++ decimal modulus ++ codes " = " ++ signed_decimal rest) (S.text out.new) }
{
    spell_both(out, col_text(col), b" % ")
        && spell_natural(out, modulus.number())
        && spell_text_number(out, b" = ", rest)
}

fn spell_one_of<S: Sink>(out: &mut S, col: Col, numbers: &[Value]) -> bool
    ensures in_range { OnTaken result (Each ValueInRange numbers.now) }
    ensures text { Puts S.kept S.limit result (S.text out.old) (printed_col col ++ codes " in (" ++ joined (printed_numbers numbers.now) ++ codes ")") (S.text out.new) }
{
    spell_both(out, col_text(col), b" in (") && spell_all(out, numbers) && out.put(b")")
}

/// Spells a predicate, in parentheses where it stands enclosed.
#[cycle(pred)]
fn spell_pred<S: Sink>(out: &mut S, pred: &Pred, enclosed: bool) -> bool
    ensures in_range { OnTaken result (PredInRange pred.now) }
    ensures text { Puts S.kept S.limit result (S.text out.old) (parenthesized enclosed (printed_pred pred.now)) (S.text out.new) }
{
    if enclosed {
        out.put(b"(") && spell_plain(out, pred) && out.put(b")")
    } else {
        spell_plain(out, pred)
    }
}

/// Spells a predicate without parentheses round it.
#[cycle(pred)]
fn spell_plain<S: Sink>(out: &mut S, pred: &Pred) -> bool
    ensures in_range { OnTaken result (PredInRange pred.now) }
    ensures text { Puts S.kept S.limit result (S.text out.old) (printed_pred pred.now) (S.text out.new) }
{
    match &pred.kind {
        PredKind::Compare { col, cmp, number } => spell_comparison(out, *col, *cmp, *number),
        PredKind::Remainder { col, modulus, rest } => spell_remainder(out, *col, *modulus, *rest),
        PredKind::OneOf { col, numbers } => spell_one_of(out, *col, numbers.as_slice()),
        PredKind::Not(p) => out.put(b"not ") && spell_pred(out, p, is_joined(p)),
        PredKind::And(p, q) => spell_joined(out, p, is_or(p), b" and ", q, is_joined(q)),
        PredKind::Or(p, q) => spell_joined(out, p, false, b" or ", q, is_or(q)),
    }
}

/// Spells two predicates and the connective between them, each predicate in parentheses where it stands enclosed.
#[cycle(pred)]
fn spell_joined<S: Sink>(
    out: &mut S,
    left: &Pred,
    left_enclosed: bool,
    connective: &[u8],
    right: &Pred,
    right_enclosed: bool,
) -> bool
    ensures in_range { OnTaken result (PredInRange left.now × PredInRange right.now) }
    ensures text { Puts S.kept S.limit result (S.text out.old)
        (parenthesized left_enclosed (printed_pred left.now) ++ connective.now ++ parenthesized right_enclosed (printed_pred right.now))
        (S.text out.new) }
{
    spell_pred(out, left, left_enclosed)
        && out.put(connective)
        && spell_pred(out, right, right_enclosed)
}

/// Whether a predicate has an or at its top.
pub fn is_or(pred: &Pred) -> bool
    ensures { result ≡ is_or pred.now }
{
    matches!(pred.kind, PredKind::Or(..))
}

/// Whether a predicate has an and or an or at its top.
pub fn is_joined(pred: &Pred) -> bool
    ensures { result ≡ (is_and pred.now || is_or pred.now) }
{
    matches!(pred.kind, PredKind::And(..) | PredKind::Or(..))
}

fn spell_where<S: Sink>(out: &mut S, pred: &Option<Pred>) -> bool
    ensures in_range { OnTaken result (WhereInRange pred.now) }
    ensures text { Puts S.kept S.limit result (S.text out.old) (printed_where pred.now) (S.text out.new) }
{
    match pred {
        None => true,
        Some(p) => out.put(b" where ") && spell_plain(out, p),
    }
}

fn spell_expr<S: Sink>(out: &mut S, expr: Expr) -> bool
    ensures in_range { OnTaken result (ExprInRange expr) }
    ensures text { Puts S.kept S.limit result (S.text out.old) (printed_expr expr) (S.text out.new) }
{
    match expr {
        Expr::Set(n) => n.spell(out),
        Expr::Plus(n) => spell_text_number(out, b"value + ", n),
        Expr::Minus(n) => spell_text_number(out, b"value - ", n),
    }
}

/// Spells three texts.
fn spell_three<S: Sink>(out: &mut S, first: &[u8], second: &[u8], third: &[u8]) -> bool
    ensures { Puts S.kept S.limit result (S.text out.old) (first.now ++ second.now ++ third.now) (S.text out.new) }
{
    spell_both(out, first, second) && out.put(third)
}

/// Spells what a statement does to the rows of this table.
fn spell_kind<S: Sink>(out: &mut S, table: &[u8], kind: &StatementKind) -> bool
    ensures in_range { OnTaken result (KindInRange kind.now) }
    ensures text { Puts S.kept S.limit result (S.text out.old) (printed_kind table.now kind.now) (S.text out.new) }
{
    match kind {
        StatementKind::Select { pred } => {
            spell_both(out, b"select * from ", table) && spell_where(out, pred)
        }
        StatementKind::Update { expr, pred } => {
            spell_three(out, b"update ", table, b" set value = ")
                && spell_expr(out, *expr)
                && spell_where(out, pred)
        }
        StatementKind::Insert { id, value } => {
            spell_three(out, b"insert into ", table, b" (id, value) values ")
                && spell_row(out, *id, *value)
        }
        StatementKind::Delete { pred } => {
            spell_both(out, b"delete from ", table) && spell_where(out, pred)
        }
    }
}

/// Spells a statement. Returns whether the sink took the whole text.
pub fn spell_statement<S: Sink>(out: &mut S, statement: &Statement) -> bool
    // Their types keep the numbers in range: where each was put, that is known of the statement.
    ensures in_range { OnTaken result (StatementInRange statement.now) }
    ensures text { Puts S.kept S.limit result (S.text out.old) (printed_statement statement.now) (S.text out.new) }
{
    spell_kind(out, statement.table.as_bytes(), &statement.kind)
}

/// Spells a command. Returns whether the sink took the whole text.
pub fn spell_command<S: Sink>(out: &mut S, command: &Command) -> bool
    ensures in_range { OnTaken result (CommandInRange command.now) }
    ensures text { Puts S.kept S.limit result (S.text out.old) (printed_command command.now) (S.text out.new) }
{
    match command {
        Command::Begin => out.put(b"begin"),
        Command::Commit => out.put(b"commit"),
        Command::Abort => out.put(b"abort"),
        Command::Run(statement) => spell_statement(out, statement),
    }
}

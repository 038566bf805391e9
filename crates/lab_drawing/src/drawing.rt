//! The type of drawings.

ghost use Rattle.std.specs.Prelude.{◌≡◌};
ghost use Rattle.lab_drawing.specs.Ties.{is_dashed};

use lab_deps::Kind;
use lab_table::{RowName, TxnNo};
use std::marker::Model;

/// An operation of a transaction, counted from 1.
#[derive(Clone, Copy, Debug, PartialEq, Eq)]
pub struct Spot {
    pub txn: TxnNo,
    pub op: u32,
}

/// Why an arrow leads from one operation to another.
#[derive(Clone, Copy, Debug, PartialEq, Eq)]
pub enum Tie {
    /// A dependency of this kind.
    Dependency(Kind),
    /// The second operation sees what the first one wrote.
    Version,
}

/// Returns whether an arrow is dashed: it is if it is an anti-dependency.
pub fn is_dashed(tie: Tie) -> bool
    ensures { result ≡ is_dashed tie }
{
    match tie {
        Tie::Dependency(Kind::ItemAnti | Kind::PredicateAnti) => true,
        Tie::Dependency(Kind::Write | Kind::ItemRead | Kind::PredicateRead) => false,
        Tie::Version => false,
    }
}

/// An arrow between two operations, for a row.
#[derive(Clone, Copy, Debug, PartialEq, Eq)]
pub struct Arrow {
    pub from: Spot,
    pub to: Spot,
    pub tie: Tie,
    pub row: RowName,
}

/// A drawing of some transactions of a history.
#[derive(Drop)]
pub struct Drawing {
    /// The transactions, from left to right.
    pub columns: Vec<TxnNo>,
    /// The arrows between their operations.
    pub arrows: Vec<Arrow>,
    /// The operation at which a fault is, or the last write of a row by the transaction that is misplaced among its
    /// installers.
    pub marked: Option<Spot>,
    /// The line of the report that is drawn.
    pub about: Vec<u8>,
    /// The version that a fault concerns, or the transaction that is misplaced among a row's installers.
    pub note: Vec<u8>,
    /// The title, in words.
    pub title: Vec<u8>,
    /// The dependencies of a yes, which all lead forward. They are drawn thin.
    pub forward: Vec<Arrow>,
    /// The transactions whose columns are thin: they wrote versions that the cycle saw, but aren't in it.
    pub thin: Vec<TxnNo>,
    /// The rows whose first and last values are below the columns.
    pub rows: Vec<RowName>,
}

impl Model for Drawing {
    ghost use Rattle.lab_drawing.specs.Sketch.{Sketch};

    ghost Value = { Sketch };

    ghost view = { λ d. record { columns = d.columns.items; arrows = d.arrows.items; marked = d.marked; about = d.about.items; note = d.note.items; title = d.title.items; forward = d.forward.items; thin = d.thin.items; rows = d.rows.items } };
}

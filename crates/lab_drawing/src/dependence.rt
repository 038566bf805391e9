//! Which committed transactions depend on which.

ghost use Rattle.std.specs.Prelude.{◌≡◌, ◌≤◌, ◌↔◌, length, Contains, IfOk, IfSome};
ghost use Rattle.lab_history.specs.Limits.{max_transactions};
ghost use Rattle.lab_deps.specs.Edges.{IsEdge};
ghost use Rattle.lab_deps.specs.Soundness.{IsSound};
ghost use Rattle.lab_deps.specs.declared.edge.Edge.{Edge as Spelled};
ghost use Rattle.lab_drawing.specs.Dependence.{depends_at, is_tied, are_two, flows, passes, committed};

use crate::forks::{depends, follows};
use crate::installs::{installers_of, is_committed};
use lab_deps::{Dependencies, Kind, Kinds, check_local};
use lab_history::History;
use lab_table::{NoMemory, RowName, TxnNo};
use std::alloc::Global;
use std::marker::Model;

/// A history with its committed transactions, and with its dependencies if it is sound.
#[derive(Drop)]
pub struct Dependence<'a> {
    history: &'a History,
    numbers: Vec<TxnNo>,
    net: Option<Dependencies<'a>>,
}

impl<'a> Model for Dependence<'a> {
    ghost use Rattle.std.specs.Prelude.{◌≡◌};
    ghost use Rattle.lab_history.specs.History as spec;
    ghost use Rattle.lab_history.specs.contracts.parts.Parts as stored;
    ghost use Rattle.lab_drawing.specs.Dependence.{committed, AreKnown};

    ghost Value = { spec.History };

    ghost coded = { stored.the_row.coded };

    ghost view = { λ d. d.history.now };

    ghost invariant = { λ d. (d.numbers.items ≡ committed d.history.now) × AreKnown d.history.now d.net };
}

impl<'a> Dependence<'a> {
    /// Finds out the dependencies of a history.
    pub fn of(alloc: Global, history: &'a History) -> Result<Dependence<'a>, NoMemory>
        ensures { IfOk result (λ found. found ≡ history.now) }
    {
        let numbers = committed(alloc, history)?;
        let net = net_of(alloc, history)?;
        Ok(Dependence {
            history,
            numbers,
            net,
        })
    }

    /// The committed transactions.
    pub fn numbers(&self) -> &[TxnNo]
        ensures numbers { result.now ≡ committed self.now }
        ensures few { length result.now ≤ max_transactions }
    {
        self.history.txns();
        &self.numbers
    }

    /// Whether one transaction depends on what another one wrote.
    pub fn flows(&self, from: TxnNo, to: TxnNo) -> bool
        ensures { result ≡ flows self.now from to }
    {
        match &self.net {
            Some(net) => flows_in(net, self.history, from, to),
            None => flows(self.history, from, to),
        }
    }

    /// Whether a transaction didn't see what another one wrote.
    pub fn passes(&self, from: TxnNo, to: TxnNo) -> bool
        ensures { result ≡ passes self.now from to }
    {
        match &self.net {
            Some(net) => passes_in(net, self.history, from, to),
            None => passes(self.history, from, to),
        }
    }
}

/// Whether one of these dependencies, which are those of the history, is on what the first transaction wrote.
fn flows_in(net: &Dependencies<'_>, history: &History, from: TxnNo, to: TxnNo) -> bool
    requires sound { IsSound history.now }
    requires all { (e : Spelled) → Contains net.now.edges e ↔ IsEdge history.now e }
    ensures { result ≡ flows history.now from to }
{
    net.kinds(from, to).meets(Kinds::FLOW)
}

/// Whether one of them is an anti-dependency.
fn passes_in(net: &Dependencies<'_>, history: &History, from: TxnNo, to: TxnNo) -> bool
    requires sound { IsSound history.now }
    requires all { (e : Spelled) → Contains net.now.edges e ↔ IsEdge history.now e }
    ensures { result ≡ passes history.now from to }
{
    net.kinds(from, to).meets(Kinds::ANTI)
}

/// The dependencies of a history, if it is sound.
fn net_of<'a>(alloc: Global, history: &'a History) -> Result<Option<Dependencies<'a>>, NoMemory>
    ensures { IfOk result (λ net. IfSome net (λ net. IsSound history.now × ((e : Spelled) → Contains net.edges e ↔ IsEdge history.now e))) }
{
    match check_local(alloc, history) {
        Ok(sound) => Ok(Some(Dependencies::of(alloc, history, &sound)?)),
        Err(_) => Ok(None),
    }
}

/// The committed transactions of a history.
fn committed(alloc: Global, history: &History) -> Result<Vec<TxnNo>, NoMemory>
    ensures { IfOk result (λ numbers. numbers.items ≡ committed history.now) }
{
    history
        .txns()
        .as_slice()
        .iter()
        .filter(|txn| is_committed(history, txn.no))
        .map(|txn| txn.no)
        .collect(alloc)
}

/// Whether one transaction depends on another in this way at a row.
fn depends_at(history: &History, from: TxnNo, to: TxnNo, kind: Kind, row: RowName) -> bool
    ensures { result ≡ depends_at history.now from to kind row }
{
    match kind {
        Kind::Write => follows(installers_of(history, row), from, to),
        Kind::ItemRead | Kind::PredicateRead | Kind::ItemAnti | Kind::PredicateAnti => {
            depends(history, from, to, kind, row)
        }
    }
}

/// The same at some row.
fn is_tied(history: &History, kind: Kind, from: TxnNo, to: TxnNo) -> bool
    ensures { result ≡ is_tied history.now kind from to }
{
    history
        .installed()
        .entries()
        .iter()
        .any(|entry| depends_at(history, from, to, kind, entry.0))
}

/// Whether two transactions have committed, and aren't one.
fn are_two(history: &History, from: TxnNo, to: TxnNo) -> bool
    ensures { result ≡ are_two history.now from to }
{
    is_committed(history, from) && (is_committed(history, to) && from != to)
}

/// Whether one transaction depends on what another one wrote, by its operations.
fn flows(history: &History, from: TxnNo, to: TxnNo) -> bool
    ensures { result ≡ flows history.now from to }
{
    are_two(history, from, to)
        && (is_tied(history, Kind::Write, from, to)
            || (is_tied(history, Kind::ItemRead, from, to)
                || is_tied(history, Kind::PredicateRead, from, to)))
}

/// Whether a transaction didn't see what another one wrote, by its operations.
fn passes(history: &History, from: TxnNo, to: TxnNo) -> bool
    ensures { result ≡ passes history.now from to }
{
    are_two(history, from, to)
        && (is_tied(history, Kind::ItemAnti, from, to)
            || is_tied(history, Kind::PredicateAnti, from, to))
}

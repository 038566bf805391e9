//! The dependencies of a yes that a picture shows.

ghost use Rattle.std.specs.Prelude.{◌≡◌, ◌↔◌, ◌++◌, [], Contains, IfOk, OnOk};
ghost use Rattle.lab_history.specs.History.{History as Held};
ghost use Rattle.lab_deps.specs.Edges.{IsEdge};
ghost use Rattle.lab_deps.specs.Soundness.{IsSound};
ghost use Rattle.lab_deps.specs.declared.edge.Edge.{Edge as Dependency};
ghost use Rattle.lab_judge.specs.Judgement.{IsExactJudgement, RestsOnOrder};
ghost use Rattle.lab_drawing.specs.Making.{listed};
ghost use Rattle.lab_picture.specs.Forward.{arrows_at, next_pairs, near_pairs, IsLeastOf, AreLeastOf, arrows_in, AreForward, order_of, yes_columns, with_forward};

use crate::layout::MAX_COLUMNS;
use lab_deps::{Dependencies, Edge, Kinds, Sound, Unsound, check_local};
use lab_drawing::{Arrow, Drawing, arrow_of};
use lab_history::History;
use lab_judge::{Report, Serial};
use lab_reports::Phenomenon;
use lab_table::{NoMemory, TxnNo};
use std::alloc::Global;

/// Two transactions.
#[derive(Clone, Copy, Debug, PartialEq, Eq)]
pub struct Pair {
    pub from: TxnNo,
    pub to: TxnNo,
}

/// Appends a transaction with those right behind it: with two where it is the first of a band, else with one.
fn put_next_pairs(
    out: &mut Vec<Pair>,
    place: usize,
    from: TxnNo,
    behind: &[TxnNo],
) -> Result<(), NoMemory>
    ensures { OnOk result (out.new.items ≡ out.old.items ++ next_pairs place from behind.now) }
{
    let most = if place % 3 == 0 { 2 } else { 1 };
    for to in &behind[..behind.len().min(most)] {
        out.push(Pair { from, to: *to })?;
    }
    Ok(())
}

/// Each two transactions of one band, and the last of a band with the first of the next.
fn near_pairs(alloc: Global, columns: &[TxnNo]) -> Result<Vec<Pair>, NoMemory>
    ensures { IfOk result (λ pairs. pairs.items ≡ near_pairs 0 columns.now) }
{
    let mut pairs = Vec::new(alloc);
    for (place, from) in columns.iter().enumerate() {
        put_next_pairs(&mut pairs, place, *from, &columns[place + 1..])?;
    }
    Ok(pairs)
}

/// The least dependency of the second of two transactions on the first; None where there is none.
fn least_of(edges: &Dependencies<'_>, pair: Pair) -> Result<Option<Edge>, NoMemory>
    ensures { (h : Held) → ((e : Dependency) → Contains edges.now.edges e ↔ IsEdge h e) → IfOk result (IsLeastOf h pair) }
{
    edges.least(pair.from, pair.to, Kinds::ALL)
}

/// The least dependency of each two.
fn least_of_all(
    alloc: Global,
    edges: &Dependencies<'_>,
    pairs: &[Pair],
) -> Result<Vec<Option<Edge>>, NoMemory>
    ensures { (h : Held) → ((e : Dependency) → Contains edges.now.edges e ↔ IsEdge h e) → IfOk result (λ found. AreLeastOf h pairs.now found.items) }
{
    let mut found = Vec::new(alloc);
    for pair in pairs {
        found.push(least_of(edges, *pair)?)?;
    }
    Ok(found)
}

/// The arrow of a dependency that there may be.
fn arrow_at(history: &History, edge: Option<Edge>) -> Option<Arrow>
    ensures { listed result ≡ arrows_at history.now edge }
{
    arrow_of(history, &edge?)
}

/// The arrows of dependencies that there may be.
fn arrows_in(
    alloc: Global,
    history: &History,
    found: &[Option<Edge>],
) -> Result<Vec<Arrow>, NoMemory>
    ensures { IfOk result (λ arrows. arrows.items ≡ arrows_in history.now found.now) }
{
    let mut arrows = Vec::new(alloc);
    for edge in found {
        if let Some(arrow) = arrow_at(history, *edge) {
            arrows.push(arrow)?;
        }
    }
    Ok(arrows)
}

/// The arrows of a sound history between transactions that are near to each other.
fn arrows_between(
    alloc: Global,
    history: &History,
    sound: &Sound,
    columns: &[TxnNo],
) -> Result<Vec<Arrow>, NoMemory>
    requires { IsSound history.now }
    ensures { IfOk result (λ arrows. AreForward history.now columns.now arrows.items) }
{
    let edges = Dependencies::of(alloc, history, sound)?;
    let pairs = near_pairs(alloc, columns)?;
    let found = least_of_all(alloc, &edges, &pairs)?;
    arrows_in(alloc, history, &found)
}

/// No arrows.
fn no_arrows(alloc: Global) -> Vec<Arrow>
    ensures { (h : Held) → AreForward h [] result.items }
{
    Vec::new(alloc)
}

/// The arrows between transactions that are near to each other in an order of a sound history's.
fn order_arrows(alloc: Global, history: &History, columns: &[TxnNo]) -> Result<Vec<Arrow>, NoMemory>
    requires { IsSound history.now }
    ensures { IfOk result (λ arrows. AreForward history.now columns.now arrows.items) }
{
    match check_local(alloc, history) {
        Ok(sound) => arrows_between(alloc, history, &sound, columns),
        Err(Unsound::NoMemory) => unreachable!(),
        Err(Unsound::Fault(_)) => unreachable!(),
    }
}

/// The arrows of a serial verdict's yes.
fn serial_arrows(alloc: Global, history: &History, serial: &Serial) -> Result<Vec<Arrow>, NoMemory>
    requires { RestsOnOrder history.now serial.now }
    ensures { IfOk result (λ arrows. AreForward history.now (order_of serial.now) arrows.items) }
{
    match serial {
        Serial::Yes(order) => {
            let order = order.as_slice();
            order_arrows(alloc, history, &order[..order.len().min(MAX_COLUMNS)])
        }
        Serial::NoFault(_) => Ok(no_arrows(alloc)),
        Serial::NoCycle(_) => Ok(no_arrows(alloc)),
    }
}

/// Returns the arrows of a yes: those of the least dependencies between transactions whose columns are near to each
/// other. Returns none for a no, or for a finding about a phenomenon.
pub fn forward_arrows(
    alloc: Global,
    history: &History,
    report: &Report,
    asked: Option<Phenomenon>,
) -> Result<Vec<Arrow>, NoMemory>
    requires { IsExactJudgement history.now report.now }
    ensures { IfOk result (λ arrows. AreForward history.now (yes_columns report.now asked) arrows.items) }
{
    match asked {
        None => serial_arrows(alloc, history, &report.serial),
        Some(_) => Ok(no_arrows(alloc)),
    }
}

/// A drawing with these arrows of a yes.
pub fn with_forward(forward: Vec<Arrow>, drawing: Drawing) -> Drawing
    ensures { result ≡ with_forward forward.items drawing }
{
    Drawing {
        columns: drawing.columns,
        arrows: drawing.arrows,
        marked: drawing.marked,
        about: drawing.about,
        note: drawing.note,
        title: drawing.title,
        forward,
        thin: drawing.thin,
        rows: drawing.rows,
    }
}

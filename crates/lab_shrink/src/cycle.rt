//! The cycle of dependencies that is followed first.
//!
//! A verdict's cycle may be long although a phenomenon has a short one that shows the same.

use lab_deps::{Dependencies, Edge, Kinds, Unsound, check_local};
use lab_history::History;
use lab_judge::{Finding, Point, Report};
use lab_reports::Phenomenon;
use lab_table::{NoMemory, TxnNo};
use std::alloc::{AllocError, Global};

/// The transaction of a start or a commit.
fn txn_of(point: &Point) -> TxnNo {
    match point {
        Point::Start(txn) | Point::Commit(txn) => *txn,
    }
}

/// The kinds of dependencies by which another transaction's point must come after this one.
fn kinds_from(point: &Point) -> Kinds {
    match point {
        Point::Start(_) => Kinds::ANTI,
        Point::Commit(_) => Kinds::FLOW,
    }
}

/// Adds the dependency by which one point must come after another. None leads from a start to its own commit.
fn push_edge(
    net: &Dependencies<'_>,
    from: &Point,
    to: &Point,
    walk: &mut Vec<Edge>,
) -> Result<(), NoMemory> {
    if let Some(edge) = net.least(txn_of(from), txn_of(to), kinds_from(from))? {
        walk.push(edge)?;
    }
    Ok(())
}

/// Adds the dependencies of a cycle of starts and commits.
fn push_edges(
    net: &Dependencies<'_>,
    points: &[Point],
    walk: &mut Vec<Edge>,
) -> Result<(), NoMemory> {
    let Some(last) = points.last() else {
        return Ok(());
    };
    let mut from = last;
    for to in points {
        push_edge(net, from, to, walk)?;
        from = to;
    }
    Ok(())
}

/// The dependencies of a cycle of starts and commits, none if the history isn't sound.
pub fn walk_of(alloc: Global, history: &History, points: &[Point]) -> Result<Vec<Edge>, NoMemory> {
    let mut walk = Vec::new(alloc);
    match check_local(alloc, history) {
        Ok(sound) => {
            let net = Dependencies::of(alloc, history, &sound)?;
            push_edges(&net, points, &mut walk)?;
        }
        Err(Unsound::NoMemory) => return Err(AllocError),
        Err(Unsound::Fault(_)) => {}
    }
    Ok(walk)
}

/// Whether no two neighbours in a cycle of dependencies are anti-dependencies, so that the starts and commits of its
/// transactions have a cycle, too.
fn breaks_snapshots(walk: &[Edge]) -> bool {
    let Some(last) = walk.last() else {
        return false;
    };
    let mut was_anti = Kinds::ANTI.has(last.kind);
    for edge in walk {
        let is_anti = Kinds::ANTI.has(edge.kind);
        if was_anti && is_anti {
            return false;
        }
        was_anti = is_anti;
    }
    true
}

/// The shortest cycle of a phenomenon with fewer than `most` dependencies, if there is one; with `of_snapshots`, one
/// that no snapshot run has.
pub fn shorter_cycle(report: &Report, most: usize, of_snapshots: bool) -> Option<&[Edge]> {
    let mut least = most;
    let mut shortest = None;
    for phenomenon in Phenomenon::ALL {
        if let Finding::Walk(found) = phenomenon.found_in(report) {
            let walk = found.as_slice();
            if walk.len() < least && (!of_snapshots || breaks_snapshots(walk)) {
                least = walk.len();
                shortest = Some(walk);
            }
        }
    }
    shortest
}

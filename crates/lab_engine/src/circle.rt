//! Cycles of sessions that wait for each other.
//!
//! A cycle is a walk from a session back to it, which is looked for from its end: layer by layer, those from which a walk
//! with one session more between leads to the goal. The first layer that has the goal itself gives the length of the
//! shortest cycles. Back through the layers each goes on to the least session that it may, so the walk is the least of
//! the shortest.

ghost use Rattle.std.specs.Prelude.{◌≡◌, ◌<◌, ◌∷◌, ◌↔◌, false, None, List, ℕ, get_or, IfOk, IfSome, IsTrue, MatchOption};
ghost use Rattle.lab_engine.specs.SessionBits.{has};
ghost use Rattle.lab_engine.specs.WaitsFor.{IsWalk, IsRound};
ghost use Rattle.lab_engine.specs.LeastWalk.{AreLayers, IsLeastRound, IsLeastWalk};

use crate::event::Sessions;
use crate::session_set::SessionSet;
use crate::wait_graph::WaitGraph;
use lab_table::{NoMemory, Session};
use std::alloc::Global;

/// For each number below nine, those from which a walk with so many sessions between leads to the goal.
fn layers_to(waits: &WaitGraph, goal: Session) -> [SessionSet; 9]
    ensures { AreLayers waits.now goal 9 result }
{
    let mut layers = [waits.waiters(SessionSet::of(&[goal])); 9];
    for between in 1..9 {
        layers[between] = waits.waiters(layers[between - 1]);
    }
    layers
}

/// The first layer that has a session.
fn first_with(layers: &[SessionSet; 9], session: Session) -> Option<usize>
    ensures bound { IfSome result (λ between. between < 9) }
    ensures has { IfSome result (λ between. IsTrue (has (get_or layers.now between 0) session)) }
    ensures first { IfSome result (λ between. (k : ℕ) → k < between → has (get_or layers.now k 0) session ≡ false) }
    ensures none { result ≡ None → (k : ℕ) → k < 9 → has (get_or layers.now k 0) session ≡ false }
{
    for between in 0..9 {
        if layers[between].has(session) {
            return Some(between);
        }
    }
    None
}

/// The least cycle from a session on with so many between, by the layers of the walks back to it.
/// NoMemory where an allocation was refused.
fn circle_by(
    alloc: Global,
    waits: &WaitGraph,
    layers: &[SessionSet; 9],
    between: usize,
    session: Session,
) -> Result<Sessions, NoMemory>
    requires bound { between < 9 }
    requires layers { AreLayers waits.now session 9 layers.now }
    requires leads { IsTrue (has (get_or layers.now between 0) session) }
    ensures { IfOk result (λ circle. (rest : List ℕ) × (circle ≡ session ∷ rest) × IsLeastWalk waits.now between session session rest) }
{
    let mut circle = Vec::new(alloc);
    circle.push(session)?;
    let mut at = session;
    for left in (0..between).rev() {
        if let Some(next) = waits.on(at).common(layers[left]).least() {
            circle.push(next)?;
            at = next;
        }
    }
    Ok(Sessions::new(circle))
}

/// A cycle from this session on, than which none is shorter, and of those of its length the least in its list; or None
/// where there is none. NoMemory where an allocation was refused.
pub fn shortest_circle(
    alloc: Global,
    waits: &WaitGraph,
    session: Session,
) -> Result<Option<Sessions>, NoMemory>
    ensures { IfOk result (λ found. MatchOption found ((rest : List ℕ) → ¬ IsWalk waits.now session rest session) (IsLeastRound waits.now session)) }
{
    let layers = layers_to(waits, session);
    match first_with(&layers, session) {
        Some(between) => Ok(Some(circle_by(alloc, waits, &layers, between, session)?)),
        None => Ok(None),
    }
}

/// Whether a session stands on a cycle.
pub fn is_on_circle(waits: &WaitGraph, session: Session) -> bool
    ensures { IsTrue result ↔ ((circle : List ℕ) × IsRound waits.now session circle) }
{
    if waits.waiters(SessionSet::of(&[session])).least().is_none() {
        // Nobody waits for the session, so no layer need be looked at.
        return false;
    }
    first_with(&layers_to(waits, session), session).is_some()
}

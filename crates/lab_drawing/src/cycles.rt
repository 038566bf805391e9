//! Cycles, and the most specific phenomenon of each.

ghost use Rattle.std.specs.Prelude.{◌≡◌};
ghost use Rattle.lab_drawing.specs.Cycles.{by_counts, walk_phenomenon, cycle_of};

use lab_deps::{Edge, Kind};
use lab_judge::Finding;
use lab_reports::Phenomenon;

/// The most particular phenomenon of a cycle with so many anti-dependencies, item anti-dependencies, and
/// dependencies that are no writes after writes.
fn by_counts(antis: usize, items: usize, others: usize) -> Phenomenon
    ensures { result ≡ by_counts antis items others }
{
    if antis == 0 {
        if others == 0 {
            Phenomenon::G0
        } else {
            Phenomenon::G1c
        }
    } else if antis == 1 {
        Phenomenon::GSingle
    } else if items == 0 {
        Phenomenon::G2
    } else {
        Phenomenon::G2Item
    }
}

/// Returns the most specific phenomenon that a cycle is an instance of.
pub fn walk_phenomenon(walk: &[Edge]) -> Phenomenon
    ensures { result ≡ walk_phenomenon walk.now }
{
    let mut antis = 0;
    let mut items = 0;
    let mut others = 0;
    for edge in walk {
        match edge.kind {
            Kind::Write => {}
            Kind::ItemRead | Kind::PredicateRead => others += 1,
            Kind::ItemAnti => {
                antis += 1;
                items += 1;
                others += 1;
            }
            Kind::PredicateAnti => {
                antis += 1;
                others += 1;
            }
        }
    }
    by_counts(antis, items, others)
}

/// Returns the cycle of a finding; empty if it has none.
pub fn cycle_of(finding: &Finding) -> &[Edge]
    ensures { result.now ≡ cycle_of finding.now }
{
    match finding {
        Finding::Walk(walk) => walk.as_slice(),
        Finding::Absent | Finding::At { .. } | Finding::NotJudged => &[],
    }
}

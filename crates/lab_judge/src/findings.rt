//! Which phenomena a history has, and the level that it meets.

ghost use Rattle.std.specs.Prelude.{IfOk};
ghost use Rattle.lab_history.specs.History.{History as Recorded};
ghost use Rattle.lab_deps.specs.Soundness.{Stands, IsSound};
ghost use Rattle.lab_deps.specs.KindSets.{among, is_any, is_write};
ghost use Rattle.lab_deps.specs.Refusal.{IsAnswer};
ghost use Rattle.lab_deps.specs.declared.fault.LocalFault.TheVariants as fault;
ghost use Rattle.lab_table.specs.Row.{Row};
ghost use Rattle.lab_judge.specs.Due.{FindsOne, JudgesDue};
ghost use Rattle.lab_judge.specs.Graphs.{IsGraphOf, IsNetOf};
ghost use Rattle.lab_judge.specs.LeastWalks.{IsBackWalk, FindsDueWalks};
ghost use Rattle.lab_judge.specs.Openings.{IsClosedOf};
ghost use Rattle.lab_judge.specs.Phenomena.{NoWalk, IsClosedWalk, MeetsPl2};
ghost use Rattle.lab_judge.specs.Judgement.{JudgesReads, JudgesNothing, JudgesAtFault};

mod closed_walk;
mod grade;
mod opening;
mod reads;

use crate::graphs::{graph_among, graph_of};
use crate::report::{Finding, Grade};
use closed_walk::{find_circle, find_opened};
use grade::{grade_of, low_grade_of};
use lab_deps::{Dependencies, Kinds, LocalFault};
use lab_history::History;
use lab_order::{Graph, NoMemory, Ways};
use reads::{find_aborted_read, find_intermediate_read};
use std::alloc::Global;

/// What is found of a history: its phenomena, in the order G0, G1a, G1b, G1c, G-single, G2-item, G2, and its level.
#[derive(Drop)]
pub(crate) struct Findings {
    pub(crate) phenomena: [Finding; 7],
    pub(crate) level: Grade,
}

/// What is found in a sound history whose dependencies lead nowhere back: no phenomenon.
pub(crate) fn find_none() -> Findings
    ensures { (h : Recorded) → IsSound h → NoWalk (IsClosedWalk h) → JudgesDue h result.phenomena result.level }
{
    Findings {
        phenomena: [
            Finding::Absent,
            Finding::Absent,
            Finding::Absent,
            Finding::Absent,
            Finding::Absent,
            Finding::Absent,
            Finding::Absent,
        ],
        level: Grade::Pl3,
    }
}

/// What is found in any sound history that has these committed transactions and dependencies, of which this is the
/// graph.
pub(crate) fn find_walks(
    alloc: Global,
    net: &Dependencies<'_>,
    all: &Graph,
) -> Result<Findings, NoMemory>
    requires { IsGraphOf (among Kinds.ALL) net.now all.now }
    ensures { IfOk result (λ found. (h : Recorded) → IsSound h → IsNetOf h is_any net.now → JudgesDue h found.phenomena found.level) }
{
    let writes = graph_among(alloc, net, all, Kinds::WRITES)?;
    let flow = graph_among(alloc, net, all, Kinds::FLOW)?;
    let g0 = find_circle(alloc, net, Kinds::WRITES, &writes)?;
    let g1c = find_circle(alloc, net, Kinds::FLOW, &flow)?;
    let flow_ways = Ways::of(alloc, &flow)?;
    let g_single = find_opened(alloc, net, Kinds::FLOW, &flow, &flow_ways, Kinds::ANTI)?;
    let all_ways = Ways::of(alloc, all)?;
    let g2_item = find_opened(alloc, net, Kinds::ALL, all, &all_ways, Kinds::ITEM_ANTI)?;
    let g2 = find_opened(alloc, net, Kinds::ALL, all, &all_ways, Kinds::ANTI)?;
    let level = grade_of(&g0, &g1c, &g2_item, &g2);
    Ok(Findings {
        phenomena: [
            g0,
            Finding::Absent,
            Finding::Absent,
            g1c,
            g_single,
            g2_item,
            g2,
        ],
        level,
    })
}

/// What is found in a history that isn't sound, where this fault was answered.
///
/// Where it is a read of what was never committed, no fault of another kind stands: G0, G1a and G1b are judged.
pub(crate) fn find_at_fault(
    alloc: Global,
    history: &History,
    fault: LocalFault,
) -> Result<Findings, NoMemory>
    requires { IsAnswer history.now fault }
    ensures found { IfOk result (λ found. JudgesAtFault history.now fault found.phenomena found.level) }
    ensures walks { IfOk result (λ found. FindsDueWalks history.now found.phenomena) }
{
    if fault.is_uncommitted_read() {
        find_at_read(alloc, history)
    } else {
        Ok(find_nothing())
    }
}

/// What is found in a history whose rows are installed by their committed writers and in which somebody reads what was
/// never committed.
fn find_at_read(alloc: Global, history: &History) -> Result<Findings, NoMemory>
    requires installed { (row : Row) → ¬ Stands history.now (fault.InstallOrder row) }
    requires read { ¬ (MeetsPl2 history.now) }
    ensures found { IfOk result (λ found. JudgesReads history.now found.phenomena found.level) }
    ensures walks { IfOk result (λ found. FindsDueWalks history.now found.phenomena) }
{
    let g0 = find_listed_circle(alloc, history)?;
    let g1a = find_aborted_read(history);
    let g1b = find_intermediate_read(history);
    let level = low_grade_of(&g0);
    Ok(Findings {
        phenomena: [
            g0,
            g1a,
            g1b,
            Finding::NotJudged,
            Finding::NotJudged,
            Finding::NotJudged,
            Finding::NotJudged,
        ],
        level,
    })
}

/// The cycle of write-dependencies, by the rows' lists of installers alone.
fn find_listed_circle(alloc: Global, history: &History) -> Result<Finding, NoMemory>
    requires { (row : Row) → ¬ Stands history.now (fault.InstallOrder row) }
    ensures { IfOk result (FindsOne (IsClosedOf history.now is_write) (IsBackWalk history.now is_write)) }
{
    let net = Dependencies::of_writes(alloc, history)?;
    let writes = graph_of(alloc, &net, Kinds::WRITES)?;
    find_circle(alloc, &net, Kinds::WRITES, &writes)
}

/// What is found where nothing is judged.
fn find_nothing() -> Findings
    ensures found { JudgesNothing result.phenomena result.level }
    ensures walks { (h : Recorded) → FindsDueWalks h result.phenomena }
{
    Findings {
        phenomena: [
            Finding::NotJudged,
            Finding::NotJudged,
            Finding::NotJudged,
            Finding::NotJudged,
            Finding::NotJudged,
            Finding::NotJudged,
            Finding::NotJudged,
        ],
        level: Grade::Unsound,
    }
}

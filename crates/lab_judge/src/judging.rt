//! The judgement of a history.

ghost use Rattle.std.specs.Prelude.{◌≡◌, ◌≢◌, ◌↔◌, ◌<◌, length, Err, IfOk, IfErr};
ghost use Rattle.lab_history.specs.History.{History as Spells};
ghost use Rattle.lab_history.specs.Limits.{max_file_bytes};
ghost use Rattle.lab_history_file.specs.HistoryFile.{HoldsHistory, IsFileFault};
ghost use Rattle.lab_history.specs.declared.fault.Limit.TheVariants.{Bytes};
ghost use Rattle.lab_deps.specs.FaultOrder.{IsFirst};
ghost use Rattle.lab_deps.specs.Refusal.{IsAnswer};
ghost use Rattle.lab_deps.specs.Soundness.{IsSound};
ghost use Rattle.lab_deps.specs.KindSets.{among, is_any};
ghost use Rattle.lab_judge.specs.Due.{IsDueSerial, JudgesDue};
ghost use Rattle.lab_judge.specs.Graphs.{IsGraphOf, IsNetOf};
ghost use Rattle.lab_judge.specs.LeastWalks.{HasDueWalk, FindsDueWalks};
ghost use Rattle.lab_judge.specs.Phenomena.{IsClosedWalk, NoWalk};
ghost use Rattle.lab_judge.specs.BackPoints.{HasBackCircle};
ghost use Rattle.lab_judge.specs.LeastPlaces.{IsLeastPlacing};
ghost use Rattle.lab_judge.specs.Verdicts.{IsLeastOrder, IsYes, IsPlaced, NoCircle};
ghost use Rattle.lab_judge.specs.Judgement.{IsExactJudgement, IsSerialVerdict, IsSnapshotVerdict, SameFault, Judges};
ghost use Rattle.lab_judge.specs.FileJudgement.{IsFileJudgement};
ghost use Rattle.lab_judge.specs.Promises.{IsPromised};

use crate::findings::{Findings, find_at_fault, find_none, find_walks};
use crate::graphs::graph_of;
use crate::places::Places;
use crate::placing::snapshot_verdict;
use crate::report::Report;
use crate::serial::Serial;
use crate::serializing::serial_verdict;
use lab_deps::{Dependencies, Kinds, LocalFault, Sound, Unsound, check_local};
use lab_engine::Recording;
use lab_history::{FileFault, History};
use lab_history_file::read_history;
use lab_order::{Graph, NoMemory};
use std::alloc::Global;

/// Judges a history: whether it is serializable, whether it is a snapshot run, which phenomena it has, and which level
/// it meets.
/// - A serial yes has an order. The committed transactions, run one after another in this order, list, write and leave
///   what the history records.
/// - A snapshot yes has a start and a commit timestamp for each committed transaction. With these, each sees the
///   committed state at its start and its own writes, and transactions that overlap write different rows.
/// - A no has the first fault of the history, in the order of `check_local`. For a sound history, it has a cycle of
///   dependencies, or of starts and commits. Without such a fault or cycle, the verdict is yes.
pub fn judge(alloc: Global, history: &History) -> Result<Report, NoMemory>
    ensures exact { IfOk result (IsExactJudgement history.now) }
    ensures serial { IfOk result (λ report. IsSerialVerdict history.now report.serial) }
    ensures snapshot { IfOk result (λ report. IsSnapshotVerdict history.now report.snapshot) }
    ensures fault { IfOk result (λ report. SameFault report.serial report.snapshot) }
    ensures found { IfOk result (λ report. Judges history.now report.serial report.phenomena report.level) }
    ensures yes { IfOk result (λ report. IsYes report.serial ↔ (IsSound history.now × NoWalk (IsClosedWalk history.now))) }
    ensures placed { IfOk result (λ report. IsPlaced report.snapshot ↔ (IsSound history.now × NoCircle history.now)) }
    ensures least { IfOk result (λ report. IsLeastOrder history.now report.serial) }
    ensures walk { IfOk result (λ report. HasDueWalk history.now report.serial) }
    ensures walks { IfOk result (λ report. FindsDueWalks history.now report.phenomena) }
    ensures places { IfOk result (λ report. IsLeastPlacing history.now report.snapshot) }
    ensures circle { IfOk result (λ report. HasBackCircle history.now report.snapshot) }
{
    match check_local(alloc, history) {
        Ok(sound) => judge_sound(alloc, history, &sound),
        Err(Unsound::NoMemory) => unreachable!(),
        Err(Unsound::Fault(fault)) => judge_unsound(alloc, history, &fault),
    }
}

/// Judges the history of a file. Fails as `read_history` does.
pub fn judge_bytes(alloc: Global, bytes: &[u8]) -> Result<Report, FileFault>
    ensures judged { IfOk result (IsFileJudgement bytes.now) }
    ensures yes { (h : Spells) → HoldsHistory bytes.now h → IfOk result (λ report. IsYes report.serial ↔ (IsSound h × NoWalk (IsClosedWalk h))) }
    ensures placed { (h : Spells) → HoldsHistory bytes.now h → IfOk result (λ report. IsPlaced report.snapshot ↔ (IsSound h × NoCircle h)) }
    ensures fault { IfErr result (λ fault. fault ≢ FileFault.NoMemory → IsFileFault bytes.now fault) }
    ensures long { max_file_bytes < length bytes.now → result ≡ Err (FileFault.OverLimit Bytes) }
{
    let history = read_history(alloc, bytes)?;
    match judge(alloc, &history) {
        Ok(report) => Ok(report),
        Err(_) => Err(FileFault::NoMemory),
    }
}

/// Judges the history of a recording. Such a history has what its level promises: at locking and optimistic it is
/// serializable; at committed it has no G0, G1a, G1b or G1c; at snapshot it is a snapshot run.
pub fn judge_recording(alloc: Global, recording: &Recording) -> Result<Report, NoMemory>
    ensures exact { IfOk result (IsExactJudgement recording.now.history) }
    ensures serial { IfOk result (λ report. IsSerialVerdict recording.now.history report.serial) }
    ensures snapshot { IfOk result (λ report. IsSnapshotVerdict recording.now.history report.snapshot) }
    ensures found { IfOk result (λ report. Judges recording.now.history report.serial report.phenomena report.level) }
    ensures yes { IfOk result (λ report. IsYes report.serial ↔ (IsSound recording.now.history × NoWalk (IsClosedWalk recording.now.history))) }
    ensures placed { IfOk result (λ report. IsPlaced report.snapshot ↔ (IsSound recording.now.history × NoCircle recording.now.history)) }
    ensures promised { IfOk result (IsPromised recording.now.level) }
{
    judge(alloc, recording.history())
}

/// The judgement of a sound history.
fn judge_sound(alloc: Global, history: &History, sound: &Sound) -> Result<Report, NoMemory>
    requires { IsSound history.now }
    ensures { IfOk result (IsExactJudgement history.now) }
{
    let net = Dependencies::of(alloc, history, sound)?;
    let all = graph_of(alloc, &net, Kinds::ALL)?;
    let serial = serial_verdict(alloc, &net, &all)?;
    let snapshot = snapshot_verdict(alloc, &net, &all)?;
    let found = find_beside(alloc, &net, &all, &serial)?;
    Ok(Report {
        serial,
        snapshot,
        phenomena: found.phenomena,
        level: found.level,
    })
}

/// What is found in a sound history with this serial verdict: nothing where it is a yes.
fn find_beside(
    alloc: Global,
    net: &Dependencies<'_>,
    all: &Graph,
    serial: &Serial,
) -> Result<Findings, NoMemory>
    requires { IsGraphOf (among Kinds.ALL) net.now all.now }
    ensures { IfOk result (λ found. (h : Spells) → IsSound h → IsNetOf h is_any net.now → IsDueSerial h serial.now → JudgesDue h found.phenomena found.level) }
{
    match serial {
        Serial::Yes(_) => Ok(find_none()),
        _ => find_walks(alloc, net, all),
    }
}

/// The judgement of a history that isn't sound, where this fault was answered.
fn judge_unsound(alloc: Global, history: &History, fault: &LocalFault) -> Result<Report, NoMemory>
    requires answer { IsAnswer history.now fault.now }
    requires first { IsFirst history.now fault.now }
    ensures { IfOk result (IsExactJudgement history.now) }
{
    let found = find_at_fault(alloc, history, *fault)?;
    let serial = Serial::NoFault(*fault);
    let snapshot = Places::NoFault(*fault);
    Ok(Report {
        serial,
        snapshot,
        phenomena: found.phenomena,
        level: found.level,
    })
}

//! Plays with threads, whose reports must have what the matrix promises.

use lab_engine::{Level, Recording};
use lab_judge::{Finding, Places, Report, Serial, judge_recording};
use lab_levels::{LEVELS, on_engine};
use lab_matrix::{CaseName, Promise, case, promise};
use lab_script::{Script, parse_script};
use lab_session::{Gate, play_free};
use lab_table::Session;
use std::alloc::Global;
use std::sync::Wait;
use std::test::Fail;
use std::thread::Threads;

/// How often each script is played on each engine. Threads meet otherwise each time.
const PLAYS: usize = 20;

/// Two transactions that read and write rows of one number in two tables.
const TWO_TABLES: &[u8] = b"setup (1, 10), stock (1, 5);
begin; -- T1
begin; -- T2
select * from test where id = 1; -- T1
select * from stock where id = 1; -- T2
update stock set value = 6 where id = 1; -- T1
update test set value = 11 where id = 1; -- T2
commit; -- T1
commit; -- T2
";

/// A gate that lets every line pass.
struct OpenGate;

impl Gate for OpenGate {
    fn before(&self, _session: Session, _index: usize) {}

    fn after(&self, _session: Session, _index: usize) {}
}

/// A recording of a play by threads on a fresh engine of this level.
fn played<T: Threads + Wait + Sync>(
    rt: &T,
    alloc: Global,
    script: &Script,
    level: Level,
) -> Option<Recording> {
    let setup = script.setup.copy(alloc).ok()?;
    on_engine!(
        level,
        alloc,
        setup,
        |engine| play_free(rt, alloc, engine, script, &OpenGate)
    )
    .ok()
}

fn is_absent(finding: &Finding) -> bool {
    matches!(finding, Finding::Absent)
}

/// Whether a report says what is promised.
fn says(promise: Promise, report: &Report) -> bool {
    match promise {
        Promise::Serializable => matches!(&report.serial, Serial::Yes(_)),
        Promise::NoG1 => {
            is_absent(report.g0())
                && is_absent(report.g1a())
                && is_absent(report.g1b())
                && is_absent(report.g1c())
        }
        Promise::SnapshotRun => matches!(&report.snapshot, Places::Yes(_)),
    }
}

/// Whether a recording's report says what is promised at a level.
fn is_said(alloc: Global, recording: &Recording, level: Level) -> Option<bool> {
    let Ok(report) = judge_recording(alloc, recording) else {
        return None;
    };
    let said = says(promise(level), &report);
    drop(report);
    Some(said)
}

/// The same of a play of a script.
fn is_kept_once<T: Threads + Wait + Sync>(
    rt: &T,
    alloc: Global,
    script: &Script,
    level: Level,
) -> Option<bool> {
    let recording = played(rt, alloc, script, level)?;
    let said = is_said(alloc, &recording, level);
    drop(recording);
    said
}

/// The same of each of so many plays of it.
fn is_kept<T: Threads + Wait + Sync>(
    rt: &T,
    alloc: Global,
    script: &Script,
    level: Level,
) -> Option<bool> {
    for _ in 0..PLAYS {
        if !is_kept_once(rt, alloc, script, level)? {
            return Some(false);
        }
    }
    Some(true)
}

/// The same at each level.
fn is_kept_at_each<T: Threads + Wait + Sync>(
    rt: &T,
    alloc: Global,
    script: &Script,
) -> [Option<bool>; 4] {
    LEVELS.map(|level| is_kept(rt, alloc, script, level))
}

/// The same of the case of a name.
fn case_is_kept_at_each<T: Threads + Wait + Sync>(
    rt: &T,
    alloc: Global,
    name: CaseName,
) -> Option<[Option<bool>; 4]> {
    let Ok(script) = case(alloc, name) else {
        return None;
    };
    let kept = is_kept_at_each(rt, alloc, &script);
    drop(script);
    Some(kept)
}

#[test]
fn free_plays_of_the_cases_keep_what_is_promised(rt: HostRuntime) -> Result<(), Fail> {
    let alloc = rt.alloc();
    for name in CaseName::ALL {
        assert_eq!(rt;
            case_is_kept_at_each(&rt, alloc, name),
            Some([Some(true); 4]),
            "of {}",
            name.name()
        );
    }
    Ok(())
}

#[test]
fn free_plays_over_two_tables_keep_what_is_promised(rt: HostRuntime) -> Result<(), Fail> {
    let script = parse_script(rt.alloc(), TWO_TABLES);
    let script = script.ok().ok_or("a script")?;
    let kept = is_kept_at_each(&rt, rt.alloc(), &script);
    drop(script);
    assert_eq!(rt; kept, [Some(true); 4]);
    Ok(())
}

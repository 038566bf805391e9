//! The default calls of the trait of engines, on an engine that overrides none of them, and the logs that engines are
//! consumed for, with each allocation failing in turn.

use crate::bare::Bare;
use crate::refused_steps::{Play, TWO_UPDATES, WAITING, has_told, is_refused, turns_before};
use lab_engine::{Engine, Recording};
use lab_history_file::write_history;
use lab_locking::LockEngine;
use lab_refusal_tests::{refuse, was_refused};
use lab_script::{Line, Script, parse_script};
use lab_session::play_script;
use std::alloc::Global;
use std::process::Abort;
use std::test::Fail;

/// The second update waits, and no call answers what it logs.
const PLAY: Play = Play {
    waits: true,
    copies: false,
};

/// Gives an engine up for the log of the play, with an allocation refused, and says whether one was; or else what isn't
/// as it has to be.
fn is_log_refused<E: Engine + Drop>(
    alloc: Global,
    engine: E,
    lines: &[Line],
    growth: u16,
) -> Result<bool, &'static str> {
    let mut engine = engine;
    if turns_before(alloc, &mut engine, lines, PLAY, WAITING.len()).is_err() {
        drop(engine);
        return Err("memory");
    }
    refuse(alloc, growth);
    let answer = engine.into_log(alloc);
    let refused = was_refused(alloc);
    match answer {
        Ok(log) => {
            let is_told = has_told(&log, WAITING.len(), WAITING);
            drop(log);
            if is_told {
                Ok(refused)
            } else {
                Err("the events of the play")
            }
        }
        Err(_) if refused => Ok(true),
        Err(_) => Err("a log"),
    }
}

/// Has an engine that has the required calls alone take its turn at a place of the play, or behind the last give up its
/// log.
fn is_bare_refused(
    alloc: Global,
    script: &Script,
    place: usize,
    growth: u16,
) -> Result<bool, &'static str> {
    let setup = script.setup.copy(alloc).ok().ok_or("memory")?;
    let engine = Bare::new(LockEngine::new(alloc, setup));
    let lines = script.lines.as_slice();
    if place < WAITING.len() {
        is_refused(alloc, engine, lines, PLAY, place, growth)
    } else {
        is_log_refused(alloc, engine, lines, growth)
    }
}

/// Fails where that isn't right with an allocation refused, or has no last allocation.
fn shows_place(
    rt: &impl Abort,
    alloc: Global,
    script: &Script,
    place: usize,
) -> Result<(), &'static str> {
    let mut answered = false;
    for growth in 1..1_000u16 {
        if !is_bare_refused(alloc, script, place, growth)? {
            answered = true;
            break;
        }
    }
    assert!(rt; answered, "event {place}");
    Ok(())
}

/// Fails where it isn't so of each place, or where a journal's log takes memory.
fn shows_logs(rt: &impl Abort, alloc: Global, script: &Script) -> Result<(), &'static str> {
    for place in 0..=WAITING.len() {
        shows_place(rt, alloc, script, place)?;
    }
    let setup = script.setup.copy(alloc).ok().ok_or("memory")?;
    let engine = LockEngine::new(alloc, setup);
    let refused = is_log_refused(alloc, engine, script.lines.as_slice(), 1)?;
    assert!(rt; !refused, "a journal's log");
    Ok(())
}

/// Whether the history of a recording has this text.
fn is_written_so(alloc: Global, recording: &Recording, text: &[u8]) -> bool {
    match write_history(alloc, recording.history()) {
        Ok(written) => written.as_slice() == text,
        Err(_) => false,
    }
}

/// Plays the script on an engine that has the required calls alone, with an allocation refused, and says whether one was;
/// or else what isn't as it has to be. The text is that of the history that the play tells.
fn is_play_refused(
    alloc: Global,
    script: &Script,
    text: &[u8],
    growth: u16,
) -> Result<bool, &'static str> {
    let setup = script.setup.copy(alloc).ok().ok_or("memory")?;
    let engine = Bare::new(LockEngine::new(alloc, setup));
    refuse(alloc, growth);
    let answer = play_script(alloc, engine, script);
    let refused = was_refused(alloc);
    match answer {
        Ok(recording) => {
            refuse(alloc, 0);
            let is_due = has_told(recording.log(), WAITING.len(), WAITING)
                && is_written_so(alloc, &recording, text);
            drop(recording);
            if is_due {
                Ok(refused)
            } else {
                Err("the recording of the play")
            }
        }
        Err(_) if refused => Ok(true),
        Err(_) => Err("a recording"),
    }
}

/// Fails where that isn't right with each allocation refused in turn, or no last one is met.
fn shows_recordings(
    rt: &impl Abort,
    alloc: Global,
    script: &Script,
    text: &[u8],
) -> Result<(), &'static str> {
    let mut answered = false;
    for growth in 1..1_000u16 {
        if !is_play_refused(alloc, script, text, growth)? {
            answered = true;
            break;
        }
    }
    assert!(rt; answered, "a recording");
    Ok(())
}

/// The text of the history of a play of the script on a journal.
fn text_of_play(alloc: Global, script: &Script) -> Option<Vec<u8>> {
    let Ok(setup) = script.setup.copy(alloc) else {
        return None;
    };
    match play_script(alloc, LockEngine::new(alloc, setup), script) {
        Ok(played) => {
            let text = write_history(alloc, played.history()).ok();
            drop(played);
            text
        }
        Err(_) => None,
    }
}

/// Fails where that isn't the text of a play on an engine that has the required calls alone, whatever is refused.
fn shows_text(rt: &impl Abort, alloc: Global, script: &Script) -> Result<(), &'static str> {
    let text = text_of_play(alloc, script).ok_or("a text")?;
    let shown = shows_recordings(rt, alloc, script, text.as_slice());
    drop(text);
    shown
}

#[test]
fn a_recording_of_any_engine_is_that_of_a_journal(rt: HostRuntime) -> Result<(), Fail> {
    let script = parse_script(rt.alloc(), TWO_UPDATES);
    let script = script.ok().ok_or("a script")?;
    let shown = shows_text(&rt, rt.alloc(), &script);
    drop(script);
    shown?;
    Ok(())
}

#[test]
fn calls_of_any_engine_that_are_refused_memory_answer_so(rt: HostRuntime) -> Result<(), Fail> {
    let script = parse_script(rt.alloc(), TWO_UPDATES);
    let script = script.ok().ok_or("a script")?;
    let shown = shows_logs(&rt, rt.alloc(), &script);
    drop(script);
    shown?;
    Ok(())
}

//! A free play with each allocation failing in turn. A thread that couldn't be started and an allocation that failed
//! are reported differently.

use crate::engines::QuietEngine;
use lab_refusal_tests::{refuse, was_refused};
use lab_script::parse_script;
use lab_session::{Gate, PlayFault, play_free};
use lab_table::Session;
use std::alloc::Global;
use std::sync::Wait;
use std::test::Fail;
use std::thread::Threads;

const SCRIPT: &[u8] =
    b"setup (1, 10);\nbegin; -- T1\nupdate test set value = 11 where id = 1; -- T1\n";

/// Holds nobody.
struct Open;

impl Gate for Open {
    fn before(&self, _session: Session, _index: usize) {}

    fn after(&self, _session: Session, _index: usize) {}
}

/// What a play came to.
#[derive(Clone, Copy)]
struct Play {
    fault: Option<PlayFault>,
    /// Whether an allocation was refused.
    refused: bool,
}

/// A play of the script with this allocation refused.
fn played<R: Threads + Wait + Sync>(rt: &R, alloc: Global, growth: u16) -> Option<Play> {
    let script = parse_script(alloc, SCRIPT).ok()?;
    let Ok(setup) = script.setup.copy(alloc) else {
        drop(script);
        return None;
    };
    let engine = QuietEngine::new(alloc, setup);
    refuse(alloc, growth);
    let fault = play_free(rt, alloc, engine, &script, &Open).err();
    let refused = was_refused(alloc);
    drop(script);
    Some(Play { fault, refused })
}

/// Whether a play tells want of memory or of a thread, and that only where an allocation was refused.
fn is_due(played: &Play) -> bool {
    match played.fault {
        None => true,
        Some(PlayFault::NoThread) | Some(PlayFault::NoMemory) => played.refused,
        Some(_) => false,
    }
}

/// The start of a thread allocates too, and its want of memory is that there is no thread.
#[test]
fn a_thread_that_is_refused_memory_is_not_given(rt: HostRuntime) -> Result<(), Fail> {
    let mut is_told = false;
    let mut refusals = 0u16;
    for growth in 1..2_000u16 {
        let played = played(&rt, rt.alloc(), growth).ok_or("a play")?;
        assert!(rt; is_due(&played), "at growth {growth}");
        if !played.refused {
            break;
        }
        refusals = growth;
        is_told = is_told || played.fault == Some(PlayFault::NoThread);
    }
    // Where nothing is refused there is nothing to tell.
    assert!(rt;
        refusals < 1_999 && (refusals == 0 || is_told),
        "{refusals}"
    );
    Ok(())
}

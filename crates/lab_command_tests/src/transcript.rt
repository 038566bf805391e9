//! A copied transcript.

use lab_script::{Script, parse_script, print_transcript, run_serial};
use std::alloc::{AllocError, Global};
use std::test::Fail;

/// How many selects the script has.
const SELECTS: usize = 1_000;

/// A line so many times, between two texts.
fn repeated(alloc: Global, first: &[u8], line: &[u8], last: &[u8]) -> Result<Vec<u8>, AllocError> {
    let mut text = Vec::from_slice(alloc, first)?;
    for _ in 0..SELECTS {
        text.extend_from_slice(line)?;
    }
    text.extend_from_slice(last)?;
    Ok(text)
}

/// The text of a script's transcript.
fn transcript_of(alloc: Global, script: &Script) -> Option<Vec<u8>> {
    match run_serial(alloc, script) {
        Ok(transcript) => {
            let printed = print_transcript(alloc, &transcript).ok();
            drop(transcript);
            printed
        }
        Err(_) => None,
    }
}

/// The same of the script of a text.
fn printed(alloc: Global, text: &[u8]) -> Option<Vec<u8>> {
    match parse_script(alloc, text) {
        Ok(script) => {
            let printed = transcript_of(alloc, &script);
            drop(script);
            printed
        }
        Err(_) => None,
    }
}

/// Whether that is what is due of the selects.
fn is_due(alloc: Global, printed: &[u8]) -> bool {
    let due = repeated(
        alloc,
        b"txn 1 T1\n",
        b"select * from test -> (1, 10)\n",
        b"commit\nend (1, 10)\n",
    );
    match due {
        Ok(due) => {
            let is_due = printed == due.as_slice();
            drop(due);
            is_due
        }
        Err(_) => false,
    }
}

#[test]
fn a_long_transcript_is_copied_whole(rt: HostRuntime) -> Result<(), Fail> {
    let text = repeated(
        rt.alloc(),
        b"setup (1, 10);\nbegin; -- T1\n",
        b"select * from test; -- T1\n",
        b"commit; -- T1\n",
    )?;
    let printed = printed(rt.alloc(), &text);
    drop(text);
    let printed = printed.ok_or("a transcript")?;
    let is_due = is_due(rt.alloc(), &printed);
    drop(printed);
    assert!(rt; is_due);
    Ok(())
}

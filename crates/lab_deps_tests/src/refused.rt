//! Calls of the libraries with each of their allocations failing in turn. They return `NoMemory` and nothing else, and
//! what they would change is unchanged; or, if they can do without the allocation, they return the usual result.

use crate::inputs::{Inputs, given};
use crate::refused_calls::{Call, is_right};
use crate::refused_statements::{EVERY_KIND, tried};
use lab_refusal_tests::was_refused;
use lab_statement::parse_statement;
use lab_table::Statement;
use std::alloc::Global;
use std::process::Abort;
use std::test::Fail;

static CALLS: [Call; 17] = [
    Call::ByRowCopy,
    Call::NumbersCopy,
    Call::TableCopy,
    Call::TableAdd,
    Call::ViewCopy,
    Call::RowsCopy,
    Call::WritesCopy,
    Call::PathPrint,
    Call::SessionsCopy,
    Call::FaultCopy,
    Call::OutcomeCopy,
    Call::RecordingOf,
    Call::RecordingFromLog,
    Call::CheckLocal,
    Call::Edges,
    Call::DependenciesOf,
    Call::DependenciesOfWrites,
];

/// Fails where a call that makes a statement isn't right with one of its allocations refused, or has no last
/// allocation.
fn shows_made(rt: &impl Abort, alloc: Global, call: u8, statement: &Statement) {
    let mut answered = false;
    for growth in 1..500u16 {
        let (right, refused) = tried(alloc, growth, call, statement);
        assert!(rt; right, "{call}, at growth {growth}");
        if !refused {
            answered = true;
            break;
        }
    }
    assert!(rt; answered, "{call}");
}

#[test]
fn statements_that_are_refused_memory_are_not_made(rt: HostRuntime) -> Result<(), Fail> {
    let statement = parse_statement(rt.alloc(), EVERY_KIND.as_bytes());
    let statement = statement.ok().ok_or("a statement")?;
    for call in 0..3u8 {
        shows_made(&rt, rt.alloc(), call, &statement);
    }
    drop(statement);
    Ok(())
}

/// Fails where a call isn't right with one of its allocations refused, or has no last allocation.
fn shows_right(rt: &impl Abort, alloc: Global, call: Call, inputs: &Inputs) {
    let mut answered = false;
    for growth in 1..2_000u16 {
        let right = is_right(alloc, growth, call, inputs);
        let refused = was_refused(alloc);
        // Memory may be wanting only where an allocation was refused.
        assert!(rt; right.unwrap_or(refused), "{call:?}, at growth {growth}");
        if !refused {
            answered = true;
            break;
        }
    }
    assert!(rt; answered, "{call:?}");
}

#[test]
fn calls_that_are_refused_memory_answer_so(rt: HostRuntime) -> Result<(), Fail> {
    let inputs = given(rt.alloc()).ok_or("inputs")?;
    for call in &CALLS {
        shows_right(&rt, rt.alloc(), *call, &inputs);
    }
    drop(inputs);
    Ok(())
}

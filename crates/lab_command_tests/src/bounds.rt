//! Inputs that never end, and readers that are interrupted again and again.

use crate::case::{Subcommand, run_unhinted, status_of};
use crate::streams::{Endless, Sink, Source};
use std::alloc::Global;
use std::rt::Files;
use std::sync::Wait;
use std::test::Fail;
use std::thread::Threads;

/// What is written of an input that never ends.
const ENDLESS: [(Subcommand, &'static [u8]); 2] = [
    (Subcommand::Serial, b"line 1: TooLong\n"),
    (Subcommand::Judge, b"file: OverLimit bytes\n"),
];

/// Whether that is written.
fn is_told<T: Files + Threads + Wait + Sync>(
    rt: &T,
    alloc: Global,
    subcommand: Subcommand,
    text: &[u8],
) -> bool {
    let mut reader = Endless { byte: b' ' };
    let mut writer = Sink::new(alloc, 9_000, 0);
    let ran = run_unhinted(rt, alloc, subcommand, &mut reader, &mut writer);
    let is_told = status_of(ran.run) == 2 && writer.text.as_slice() == text;
    drop(writer);
    is_told
}

/// Whether a run whose reads are interrupted so often ends with this status, after 20 million calls.
fn ends_after<T: Files + Threads + Wait + Sync>(
    rt: &T,
    alloc: Global,
    interrupted: u32,
    status: u8,
) -> bool {
    let mut reader = Source::new(b"setup ();", 9_000, interrupted, 0);
    let mut writer = Sink::new(alloc, 9_000, 0);
    let ran = run_unhinted(rt, alloc, Subcommand::Serial, &mut reader, &mut writer);
    drop(writer);
    status_of(ran.run) == status && reader.calls == 20_000_000
}

#[test]
fn reads_within_its_bounds(rt: HostRuntime) -> Result<(), Fail> {
    for (subcommand, text) in &ENDLESS {
        assert!(rt; is_told(&rt, rt.alloc(), *subcommand, text), "{text:?}");
    }
    for (interrupted, status) in [(19_999_998, 0), (19_999_999, 3)] {
        assert!(rt;
            ends_after(&rt, rt.alloc(), interrupted, status),
            "after {interrupted} calls"
        );
    }
    Ok(())
}

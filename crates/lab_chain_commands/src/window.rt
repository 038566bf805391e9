//! Judging the parts of a window, while those of the next one are read.

ghost use Rattle.std.specs.Prelude.{◌≡◌, ◌++◌, map, fold, max, IfOk};
ghost use Rattle.std.specs.List.{flat_map};
ghost use Rattle.std.specs.Thread.{IsSync};
ghost use Rattle.lab_chain.specs.Chain.{with_part};
ghost use Rattle.lab_chain.specs.Summary.{nothing};
ghost use Rattle.lab_chain_commands.specs.ChainAnswers.{outcome_text, outcome_status};
ghost use Rattle.lab_chain_commands.specs.JudgedParts.{part_of, IsWindow};

use crate::asked::Asked;
use crate::judged_part::{Input, JudgedPart, judge_parts, read_parts};
use crate::part_text::{outcome_status, put_outcome};
use crate::shortfalls::note_seam;
use lab_chain::{Summary, part_summary};
use lab_table::NoMemory;
use std::alloc::Global;
use std::rt::Files;
use std::thread::{Threads, join};

/// What is said of some consecutive parts, what there is to write of each, the hints on them, and the greatest exit status
/// that one of them calls for.
#[derive(Drop)]
pub struct Window {
    pub summary: Summary,
    pub status: u8,
    pub text: Vec<u8>,
    pub hints: Vec<u8>,
}

/// Adds a part to a window.
fn with_part(
    alloc: Global,
    window: Window,
    asked: Asked,
    part: JudgedPart<'_>,
) -> Result<Window, NoMemory>
    ensures summary { IfOk result (λ next. next.summary ≡ with_part window.summary (part_of part.entry)) }
    ensures status { IfOk result (λ next. next.status ≡ max window.status (outcome_status part.entry.outcome)) }
    ensures text { IfOk result (λ next. next.text.items ≡ window.text.items ++ outcome_text asked part.entry.name.now part.entry.outcome) }
{
    let Window {
        summary,
        status,
        mut text,
        mut hints,
    } = window;
    let JudgedPart {
        name,
        outcome,
        hint,
    } = part;
    put_outcome(alloc, &mut text, asked, name, &outcome)?;
    hints.extend_from_slice(&hint)?;
    let status = status.max(outcome_status(&outcome));
    let next = part_summary(alloc, name, outcome)?;
    note_seam(alloc, asked, &summary.ends, &next.ends, &mut hints);
    let summary = summary.joined(alloc, next)?;
    Ok(Window {
        summary,
        status,
        text,
        hints,
    })
}

/// What is said of some parts.
fn tell_parts(alloc: Global, asked: Asked, parts: Vec<JudgedPart<'_>>) -> Result<Window, NoMemory>
    ensures { IfOk result (λ window. (window.summary ≡ fold (λ s p. with_part s (part_of p)) nothing parts.entry.items)
        × (window.status ≡ fold (λ s p. max s (outcome_status p.outcome)) 0 parts.entry.items)
        × (window.text.items ≡ flat_map (λ p. outcome_text asked p.name.now p.outcome) parts.entry.items)) }
{
    let mut window = Window {
        summary: Summary::nothing(),
        status: 0,
        text: Vec::new(alloc),
        hints: Vec::new(alloc),
    };
    for part in parts {
        window = with_part(alloc, window, asked, part)?;
    }
    Ok(window)
}

/// Judges some parts of which this was read.
fn judge_window<T: Threads + Sync>(
    rt: &T,
    alloc: Global,
    asked: Asked,
    inputs: &[Input<'_>],
) -> Result<Window, NoMemory>
    ensures { IfOk result (IsWindow asked (map (λ input. input.name.now) inputs.now)) }
{
    let parts = judge_parts(rt, alloc, inputs)?;
    tell_parts(alloc, asked, parts)
}

/// Judges some parts of which this was read, and reads the parts with these names meanwhile. Where no thread can be
/// made, one is done after the other.
pub fn judge_and_read<'n, T: Files + Threads + Sync>(
    rt: &T,
    alloc: Global,
    asked: Asked,
    inputs: &[Input<'n>],
    names: &[&'n str],
) -> (Result<Window, NoMemory>, Result<Vec<Input<'n>>, NoMemory>)
    ensures judged { IfOk result.0 (IsWindow asked (map (λ input. input.name.now) inputs.now)) }
    ensures read { IfOk result.1 (λ next. map (λ input. input.name.now) next.items ≡ map (λ name. name.now) names.now) }
{
    let judging = move || -> Result<Window, NoMemory>
        requires { IsSync T.row }
        ensures { IfOk result (IsWindow asked (map (λ input. input.name.now) inputs.entry.now)) }
    { judge_window(rt, alloc, asked, inputs) };
    join(rt, judging, || read_parts(rt, alloc, names))
}

//! The text of a comparison. Functions that take bytes append; on failure, a part of the text may have been appended.

ghost use Rattle.std.specs.Prelude.{◌≡◌, ◌++◌, codes, map, IfOk, OnOk};
ghost use Rattle.lab_compare.specs.Alike.{alike_text, differing_text};
ghost use Rattle.lab_compare.specs.Behind.{rows_told};
ghost use Rattle.lab_compare.specs.Shared.{Share};
ghost use Rattle.lab_compare.specs.Topics.{topic_told};
ghost use Rattle.lab_compare.specs.Comparison.{behind_text, line_text, lines_text, counted, has_line, session_count, opening, start_words, heading, start_text, ends_text, levels_text, explained_all, front_text, back_text, comparison_text};

use crate::alike::{put_alike, put_columns, put_differing, put_explanations};
use crate::behind::Cursors;
use crate::shared::{are_same, shared};
use crate::side::{Column, Side, Topic, topic_told};
use crate::told::put_asked;
use itoa::Buffer;
use lab_commands::put_rows;
use lab_script::{Line, Script};
use lab_table::{Command, NoMemory, Session};
use std::alloc::Global;

/// Appends what the engines tell of a topic, behind what was asked.
fn put_topic(alloc: Global, out: &mut Vec<u8>, of: Topic, sides: &[Side]) -> Result<(), NoMemory>
    ensures { OnOk result (out.new.items ≡ out.old.items ++ alike_text (map (topic_told of) sides.now)) }
{
    let told = topic_told(alloc, of, sides)?;
    put_alike(out, &told)
}

/// Appends the committed rows where they differ, behind the line at a place that is a session's commit.
fn put_apart(
    alloc: Global,
    out: &mut Vec<u8>,
    cursors: &mut Cursors<'_>,
    place: usize,
    session: Session,
) -> Result<(), NoMemory>
    ensures text { OnOk result (out.new.items ≡ out.old.items ++ differing_text (codes " -- rows ") (map (rows_told place) cursors.old)) }
    ensures same { cursors.new ≡ cursors.old }
{
    let told = cursors.rows_told(alloc, session, place)?;
    put_differing(out, b" -- rows ", &told)
}

/// The same, if it is a commit, of sides that share so many writes.
fn put_behind(
    alloc: Global,
    out: &mut Vec<u8>,
    cursors: &mut Cursors<'_>,
    shared: Option<usize>,
    place: usize,
    line: &Line,
) -> Result<(), NoMemory>
    requires { Share shared cursors.old }
    ensures text { OnOk result (out.new.items ≡ out.old.items ++ behind_text cursors.old place line.now.command) }
    ensures same { cursors.new ≡ cursors.old }
{
    match &line.command {
        Command::Commit => {
            if are_same(cursors.sides(), shared, place) {
                return Ok(());
            }
            put_apart(alloc, out, cursors, place, line.session)
        }
        Command::Begin | Command::Abort | Command::Run(_) => Ok(()),
    }
}

/// Appends a line of the script, what it was answered, and the committed rows behind it where they are to be told.
fn put_line(
    alloc: Global,
    out: &mut Vec<u8>,
    cursors: &mut Cursors<'_>,
    shared: Option<usize>,
    place: usize,
    line: &Line,
) -> Result<(), NoMemory>
    requires { Share shared cursors.old }
    ensures text { OnOk result (out.new.items ≡ out.old.items ++ line_text cursors.old place line.now) }
    ensures same { cursors.new ≡ cursors.old }
{
    put_asked(out, line.session, &line.command)?;
    put_topic(alloc, out, Topic::Answer { place }, cursors.sides())?;
    put_behind(alloc, out, cursors, shared, place, line)
}

/// Appends the lines of a script.
fn put_lines(
    alloc: Global,
    out: &mut Vec<u8>,
    sides: &[Side],
    lines: &[Line],
) -> Result<(), NoMemory>
    ensures { OnOk result (out.new.items ≡ out.old.items ++ lines_text sides.now 0 lines.now) }
{
    let common = shared(sides);
    let mut cursors = Cursors::new(alloc, sides);
    for (place, line) in lines.iter().enumerate() {
        put_line(alloc, out, &mut cursors, common, place, line)?;
    }
    Ok(())
}

/// Appends how many things of a name there are.
fn put_counted(out: &mut Vec<u8>, count: usize, name: &[u8]) -> Result<(), NoMemory>
    ensures { OnOk result (out.new.items ≡ out.old.items ++ counted count name.now) }
{
    out.extend_from_slice(Buffer::new().format(count).as_bytes())?;
    out.extend_from_slice(name)?;
    if count == 1 {
        Ok(())
    } else {
        out.extend_from_slice(b"s")
    }
}

/// Whether a session has a line.
fn has_line(lines: &[Line], session: Session) -> bool
    ensures { result ≡ has_line lines.now session }
{
    lines.iter().any(|line| line.session == session)
}

/// How many sessions have a line.
fn session_count(lines: &[Line]) -> usize
    ensures { result ≡ session_count lines.now }
{
    let sessions = Session::ALL;
    sessions
        .iter()
        .filter(|session| has_line(lines, **session))
        .count()
}

/// What the text begins with.
#[tactic(auto, unfolding(crate::specs::Comparison::opening))]
fn opening() -> &'static [u8]
    ensures { result.now ≡ opening }
{
    b"compare: script of "
}

/// What the line of the rows to begin with does.
#[tactic(auto, unfolding(crate::specs::Comparison::start_words))]
fn start_words() -> &'static [u8]
    ensures { result.now ≡ start_words }
{
    b"start: rows "
}

/// Appends the first line: of how many lines and sessions the script is.
fn put_heading(out: &mut Vec<u8>, lines: &[Line]) -> Result<(), NoMemory>
    ensures { OnOk result (out.new.items ≡ out.old.items ++ heading lines.now) }
{
    out.extend_from_slice(opening())?;
    put_counted(out, lines.len(), b" line")?;
    out.extend_from_slice(b", ")?;
    put_counted(out, session_count(lines), b" session")?;
    out.extend_from_slice(b"\n")
}

/// Appends the rows to begin with.
fn put_start(out: &mut Vec<u8>, script: &Script) -> Result<(), NoMemory>
    ensures { OnOk result (out.new.items ≡ out.old.items ++ start_text script.now) }
{
    out.extend_from_slice(start_words())?;
    put_rows(out, script.setup.rows())?;
    out.extend_from_slice(b"\n")
}

/// Appends what stands before the lines.
fn put_front(out: &mut Vec<u8>, script: &Script) -> Result<(), NoMemory>
    ensures { OnOk result (out.new.items ≡ out.old.items ++ front_text script.now) }
{
    put_heading(out, script.lines.as_slice())?;
    put_start(out, script)
}

/// Appends the committed rows in the end.
fn put_ends(alloc: Global, out: &mut Vec<u8>, sides: &[Side]) -> Result<(), NoMemory>
    ensures { OnOk result (out.new.items ≡ out.old.items ++ ends_text sides.now) }
{
    out.extend_from_slice(b"end")?;
    put_topic(alloc, out, Topic::End, sides)
}

/// Appends the engines, and under each the level that its history meets.
fn put_levels(out: &mut Vec<u8>, sides: &[Side]) -> Result<(), NoMemory>
    ensures { OnOk result (out.new.items ≡ out.old.items ++ levels_text sides.now) }
{
    out.extend_from_slice(b"engine")?;
    put_columns(out, Column::Engine, 6, sides)?;
    out.extend_from_slice(b"level")?;
    put_columns(out, Column::Grade, 5, sides)
}

/// Appends what is explained, once for all engines of which that is.
fn put_explained_all(alloc: Global, out: &mut Vec<u8>, sides: &[Side]) -> Result<(), NoMemory>
    ensures { OnOk result (out.new.items ≡ out.old.items ++ explained_all sides.now) }
{
    let told = topic_told(alloc, Topic::Explained, sides)?;
    put_explanations(out, &told)
}

/// Appends what stands behind the lines.
fn put_back(alloc: Global, out: &mut Vec<u8>, sides: &[Side]) -> Result<(), NoMemory>
    ensures { OnOk result (out.new.items ≡ out.old.items ++ back_text sides.now) }
{
    put_ends(alloc, out, sides)?;
    put_levels(out, sides)?;
    put_explained_all(alloc, out, sides)
}

/// The comparison of what a script comes to on these sides.
pub fn print_comparison(alloc: Global, script: &Script, sides: &[Side]) -> Result<Vec<u8>, NoMemory>
    ensures { IfOk result (λ text. text.items ≡ comparison_text script.now sides.now) }
{
    let mut text = Vec::new(alloc);
    put_front(&mut text, script)?;
    put_lines(alloc, &mut text, sides, script.lines.as_slice())?;
    put_back(alloc, &mut text, sides)?;
    Ok(text)
}

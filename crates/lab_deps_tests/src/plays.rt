//! Recorded histories: generated scripts over two tables, each played on the four engines.

ghost use Rattle.std.specs.Prelude.{◌≡◌, []};

use crate::alike::edges_by_both;
use lab_engine::{Engine, Level, Recording};
use lab_history_file::write_history;
use lab_levels::{LEVELS, on_engine};
use lab_script::{Script, parse_script};
use lab_session::play_script;
use std::alloc::{AllocError, Global};
use std::test::Fail;

/// A command that a number chooses, and its remark: `@` stands for a table, `#` for a row, and `$` for a session. A commit
/// begins anew.
fn command(number: u32) -> &'static [u8] {
    match number {
        0 | 1 => b"commit; -- T$\nbegin; -- T$\n",
        2 => b"select * from @; -- T$\n",
        3 => b"select * from @ where value % 3 = 1; -- T$\n",
        4 => b"select * from @ where id = #; -- T$\n",
        5 => b"select * from @ where id = # and value > 12; -- T$\n",
        6 => b"select * from @ where id in (#, 3); -- T$\n",
        7 => b"update @ set value = value + # where id = #; -- T$\n",
        8 => b"update @ set value = value + 2 where value < 25; -- T$\n",
        9 => b"delete from @ where id = #; -- T$\n",
        _ => b"insert into @ (id, value) values (#, #7); -- T$\n",
    }
}

/// One of three numbers.
fn digit(number: u32) -> &'static [u8] {
    match number {
        0 => b"1",
        1 => b"2",
        _ => b"3",
    }
}

/// Adds the line that a number chooses: a command of one of three sessions on one of three rows of one of two tables.
fn add_line(text: &mut Vec<u8>, number: u32) -> Result<(), AllocError> {
    let session = digit((number >> 4) % 3);
    let row = digit((number >> 8) % 3);
    let table: &[u8] = if (number >> 12) % 4 == 0 {
        b"stock"
    } else {
        b"test"
    };
    for byte in command((number >> 16) % 11) {
        match *byte {
            b'$' => text.extend_from_slice(session)?,
            b'#' => text.extend_from_slice(row)?,
            b'@' => text.extend_from_slice(table)?,
            other => text.push(other)?,
        }
    }
    Ok(())
}

/// Adds 30 lines that a seed chooses.
fn add_lines(text: &mut Vec<u8>, seed: u32) -> Result<(), AllocError> {
    let mut number = seed;
    for _ in 0..30 {
        number = number.wrapping_mul(1_664_525).wrapping_add(1_013_904_223);
        add_line(text, number)?;
    }
    Ok(())
}

const BEGINS: &[u8] = b"setup (1, 10), (2, 20), (3, 30), stock (2, 21), stock (3, 31);
begin; -- T1
begin; -- T2
begin; -- T3
";

/// The script that a seed chooses: all sessions begin, then come 30 lines, and then all commit.
fn made(alloc: Global, seed: u32) -> Result<Vec<u8>, AllocError> {
    let mut text = Vec::from_slice(alloc, BEGINS)?;
    add_lines(&mut text, seed)?;
    text.extend_from_slice(b"commit; -- T1\ncommit; -- T2\ncommit; -- T3\n")?;
    Ok(text)
}

/// How many edges the history of a recording has, by both bodies, as it reads back from its text.
fn count_of(alloc: Global, recording: &Recording) -> Option<usize> {
    let Ok(text) = write_history(alloc, recording.history()) else {
        return None;
    };
    let found = edges_by_both(alloc, &text);
    drop(text);
    match found {
        Some(edges) => {
            let count = edges.len();
            drop(edges);
            Some(count)
        }
        None => None,
    }
}

/// The same of a play.
fn count_of_play<E: Engine + Drop>(alloc: Global, engine: E, script: &Script) -> Option<usize>
    requires { E.events engine ≡ [] }
{
    match play_script(alloc, engine, script) {
        Ok(played) => {
            let count = count_of(alloc, &played);
            drop(played);
            count
        }
        Err(_) => None,
    }
}

/// The same on the engine of a level.
fn count_at(alloc: Global, level: Level, script: &Script) -> Option<usize> {
    match script.setup.copy(alloc) {
        Ok(setup) => on_engine!(
            level,
            alloc,
            setup,
            |engine| count_of_play(alloc, engine, script)
        ),
        Err(_) => None,
    }
}

/// How many edges the plays of a script on the engines have together.
fn count_of_plays(alloc: Global, script: &Script) -> Option<usize> {
    let mut count = 0usize;
    for level in LEVELS {
        count = count.wrapping_add(count_at(alloc, level, script)?);
    }
    Some(count)
}

/// The same of the script that a seed chooses.
fn count_of_seed(alloc: Global, seed: u32) -> Option<usize> {
    let Ok(text) = made(alloc, seed) else {
        return None;
    };
    let script = parse_script(alloc, &text);
    drop(text);
    match script {
        Ok(script) => {
            let count = count_of_plays(alloc, &script);
            drop(script);
            count
        }
        Err(_) => None,
    }
}

#[test]
fn histories_of_plays(rt: HostRuntime) -> Result<(), Fail> {
    let mut edges = 0usize;
    for seed in 0..67u32 {
        let count = count_of_seed(rt.alloc(), seed);
        assert!(rt; count.is_some(), "{seed}");
        edges = edges.wrapping_add(count.unwrap_or(0));
    }
    assert!(rt; edges > 1_000, "{edges}");
    Ok(())
}

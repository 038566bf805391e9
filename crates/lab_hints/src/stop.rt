//! Why reading a line stopped, in words.

use crate::grammar::{Item, Place};
use crate::session::{SESSION_RULE, session_in};
use crate::text::{Part, put};
use crate::walk::{Stop, Walk, Wrong};
use crate::wanted::put_wanted;
use lab_printing::put_row_name;
use lab_table::{NoMemory, TableName};

/// What every name of a table is like.
pub const NAME_RULE: &str =
    "a table's name has 1 to 16 letters or '_', and is no other word of the grammar";

/// What stands on a line.
pub const LINE_RULE: &str = "a statement, and a setup, stands on one line";

/// The range of an item's digits.
fn range(item: Item) -> &'static str {
    match item {
        Item::Id => "an id is from 1 to 999,999",
        Item::Modulus => "a modulus is from 1 to 1,000,000",
        _ => "a number is from -1,000,000,000 to 1,000,000,000",
    }
}

/// Appends what was found, or that the code ended there, before a remark that seems to have been meant as code.
fn put_found(out: &mut Vec<u8>, stop: &Stop<'_>, cut_off: &[u8]) -> Result<(), NoMemory> {
    let Some(token) = stop.found else {
        let end = if cut_off.is_empty() {
            "the end"
        } else {
            "'--', which begins a remark"
        };
        return put(out, &[Part::Say("found "), Part::Say(end), Part::Say("; ")]);
    };
    let sign = if stop.is_signed_number() { "-" } else { "" };
    put(
        out,
        &[
            Part::Say("found '"),
            Part::Say(sign),
            Part::Shown(token.text),
            Part::Say("'; "),
        ],
    )
}

/// Whether what was found seems to be the session of a line of a script, which stands behind or before its statements.
fn is_session(stop: &Stop<'_>, front: Place) -> bool {
    front == Place::Statement
        && (stop.before.is_none() || stop.position.may_end())
        && session_in(stop.rest).is_some()
}

/// Whether what is wanted seems to stand on the next line, or what was found to go on with the line before.
fn is_broken(stop: &Stop<'_>, front: Place, cut_off: &[u8]) -> bool {
    match stop.found {
        None => front != Place::Operation && cut_off.is_empty(),
        Some(_) => front == Place::Statement && stop.goes_on(),
    }
}

/// Appends what may stand there in place of what was found.
fn put_unexpected(
    out: &mut Vec<u8>,
    front: Place,
    stop: &Stop<'_>,
    cut_off: &[u8],
) -> Result<(), NoMemory> {
    if stop.is_in_name() {
        return put(out, &[Part::Say(NAME_RULE)]);
    }
    if is_session(stop, front) {
        return put(out, &[Part::Say(SESSION_RULE)]);
    }
    match &stop.before {
        None => put(out, &[Part::Say("a statement begins with ")])?,
        Some(token) => put(
            out,
            &[
                Part::Say("after '"),
                Part::Shown(token.text),
                Part::Say("' comes "),
            ],
        )?,
    }
    put_wanted(out, &stop.position)?;
    if is_broken(stop, front, cut_off) {
        put(out, &[Part::Say("; "), Part::Say(LINE_RULE)])?;
    }
    Ok(())
}

/// Appends the names of tables, with a blank before each.
fn put_tables(out: &mut Vec<u8>, tables: &[TableName]) -> Result<(), NoMemory> {
    for table in tables {
        put(out, &[Part::Say(" "), Part::Shown(table.as_bytes())])?;
    }
    Ok(())
}

fn put_repeated(out: &mut Vec<u8>, walk: &Walk) -> Result<(), NoMemory> {
    put(out, &[Part::Say("it ends row ")])?;
    if let Some(row) = walk.row() {
        put_row_name(out, row)?;
    }
    put(out, &[Part::Say(", which the setup has already")])
}

/// Appends what was found where reading stopped, and what may stand there. Behind the code may stand a remark that seems
/// to have been meant as code.
pub fn put_stop(
    out: &mut Vec<u8>,
    walk: &Walk,
    stop: &Stop<'_>,
    cut_off: &[u8],
) -> Result<(), NoMemory> {
    put_found(out, stop, cut_off)?;
    match stop.wrong {
        Wrong::Unexpected => put_unexpected(out, walk.front(), stop, cut_off),
        Wrong::NotAName => put(out, &[Part::Say(NAME_RULE)]),
        Wrong::OutOfRange(item) => put(out, &[Part::Say(range(item))]),
        Wrong::TooDeep => put(out, &[Part::Say("at most 16 '(' and 'not' may be open")]),
        Wrong::RepeatedRow => put_repeated(out, walk),
        Wrong::FifthTable => {
            put(
                out,
                &[Part::Say("a script names at most 4 tables, and this one has")],
            )?;
            put_tables(out, walk.tables())
        }
    }
}

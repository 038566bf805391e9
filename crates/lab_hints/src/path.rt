//! What is found at a place of a history file, and what is wanted there.

use crate::found::{put_found_value, text_at};
use crate::stop::NAME_RULE;
use crate::text::{Part, put};
use lab_history::{ListPlace, Path};
use lab_table::NoMemory;
use serde_json::Value as Json;
use std::alloc::Global;

const ID_RULE: &str = "a row's id, a whole number from 1 to 999,999";

const VALUE_RULE: &str = "a value, a whole number from -1,000,000,000 to 1,000,000,000";

const STATE_RULE: &str = "a value, a whole number from -1,000,000,000 to 1,000,000,000, or null";

const TXN_RULE: &str = "a transaction's number, a whole number from 1 to 1,000,000";

const OP_RULE: &str = "an operation's number, a whole number from 1 to 10,000";

const INSTALLERS_RULE: &str = "a list of at least one transaction's number";

/// Whether a file says that it is of version 1, whose rows have no table.
pub fn is_first_version(json: &Json) -> bool {
    json.get("version").and_then(Json::as_u64) == Some(1)
}

/// The value at a place, if there is one.
pub fn value_at<'v>(
    alloc: Global,
    json: &'v Json,
    path: &Path,
) -> Result<Option<&'v Json>, NoMemory> {
    if *path == Path::Root {
        return Ok(Some(json));
    }
    let text = path.print(alloc)?;
    match std::str::from_utf8(&text) {
        Ok(pointer) => Ok(json.pointer(pointer)),
        Err(_) => Ok(None),
    }
}

/// What stands behind the row in a member of a list.
fn behind_row(list: ListPlace) -> &'static str {
    match list {
        ListPlace::Initial | ListPlace::End | ListPlace::Rows { .. } => "value]",
        ListPlace::Writes { .. } => "value or null]",
        ListPlace::View { .. } => "transaction, operation]",
        ListPlace::Installed => "[transaction, ..]]",
    }
}

/// What is wanted behind the row in a member of a list, at this place behind it.
fn part_rule(list: ListPlace, behind: usize) -> &'static str {
    match list {
        ListPlace::Initial | ListPlace::End | ListPlace::Rows { .. } => VALUE_RULE,
        ListPlace::Writes { .. } => STATE_RULE,
        ListPlace::View { .. } if behind == 0 => TXN_RULE,
        ListPlace::View { .. } => OP_RULE,
        ListPlace::Installed => INSTALLERS_RULE,
    }
}

/// The keys of the object at a place, if one has to be there.
fn keys_at(path: &Path) -> &'static [&'static str] {
    match path {
        Path::Root => &[
            "end",
            "format",
            "initial",
            "installed",
            "transactions",
            "version",
        ],
        Path::Transaction { .. } => &["no", "ops", "outcome"],
        Path::Operation { .. } => &["rows", "statement", "view", "writes"],
        _ => &[],
    }
}

/// The first of some keys that an object doesn't have.
fn missing_key(value: &Json, keys: &'static [&'static str]) -> Option<&'static str> {
    for key in keys {
        if value.get(*key).is_none() {
            return Some(*key);
        }
    }
    None
}

/// The first key of an object that isn't among some.
fn further_key<'v>(value: &'v Json, keys: &[&str]) -> Option<&'v str> {
    for key in value.as_object()?.keys() {
        if !keys.iter().any(|known| *known == key.as_str()) {
            return Some(key.as_str());
        }
    }
    None
}

/// Appends which keys are wanted in an object, and the first that is missing or too many.
fn put_keys(
    out: &mut Vec<u8>,
    value: &Json,
    keys: &'static [&'static str],
) -> Result<(), NoMemory> {
    put(out, &[Part::Say("an object with the keys")])?;
    for key in keys {
        put(out, &[Part::Say(" "), Part::Say(*key)])?;
    }
    if !value.is_object() {
        return Ok(());
    }
    if let Some(key) = missing_key(value, keys) {
        return put(out, &[Part::Say("; it has no "), Part::Say(key)]);
    }
    match further_key(value, keys) {
        Some(key) => put(
            out,
            &[Part::Say("; it has also "), Part::Shown(key.as_bytes())],
        ),
        None => Ok(()),
    }
}

/// Appends what a member of a list is like.
fn put_member(out: &mut Vec<u8>, list: ListPlace, is_first_version: bool) -> Result<(), NoMemory> {
    let row = if is_first_version {
        "[id, "
    } else {
        "[table, id, "
    };
    put(
        out,
        &[
            Part::Say("a list "),
            Part::Say(row),
            Part::Say(behind_row(list)),
        ],
    )
}

/// Appends what a part of a member of a list is like.
fn put_part(
    out: &mut Vec<u8>,
    list: ListPlace,
    part: usize,
    is_first_version: bool,
) -> Result<(), NoMemory> {
    let id_part = if is_first_version { 0usize } else { 1 };
    if part < id_part {
        put(
            out,
            &[Part::Say("a text in lower case; "), Part::Say(NAME_RULE)],
        )
    } else if part == id_part {
        put(out, &[Part::Say(ID_RULE)])
    } else {
        put(out, &[Part::Say(part_rule(list, part - id_part - 1))])
    }
}

/// Appends what is wanted at a place.
fn put_wanted(out: &mut Vec<u8>, json: &Json, value: &Json, path: &Path) -> Result<(), NoMemory> {
    match path {
        Path::Root | Path::Transaction { .. } | Path::Operation { .. } => {
            put_keys(out, value, keys_at(path))
        }
        Path::Format => put(out, &[Part::Say("\"hermitage-history\"")]),
        Path::Version => put(out, &[Part::Say("the number 2 or 1")]),
        Path::List(_) | Path::Transactions | Path::Operations { .. } => {
            put(out, &[Part::Say("a list")])
        }
        Path::Member { list, .. } => put_member(out, *list, is_first_version(json)),
        Path::Part { list, part, .. } => put_part(out, *list, *part, is_first_version(json)),
        Path::Installer { .. } | Path::Number { .. } => put(out, &[Part::Say(TXN_RULE)]),
        Path::Outcome { .. } => put(out, &[Part::Say("\"committed\" or \"aborted\"")]),
        Path::Statement { .. } => put(out, &[Part::Say("a text with one statement")]),
    }
}

/// Appends what was found at a place where something else is wanted, and what that is.
pub fn put_wrong_value(
    out: &mut Vec<u8>,
    alloc: Global,
    bytes: &[u8],
    json: &Json,
    path: &Path,
) -> Result<(), NoMemory> {
    let value = value_at(alloc, json, path)?;
    out.extend_from_slice(&path.print(alloc)?)?;
    put(out, &[Part::Say(": found ")])?;
    put_found_value(out, alloc, text_at(alloc, bytes, path)?)?;
    put(out, &[Part::Say("; wanted: ")])?;
    put_wanted(out, json, value.unwrap_or(&Json::Null), path)
}

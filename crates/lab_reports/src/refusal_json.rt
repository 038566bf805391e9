//! Prints why there is no report on a file, as a line of JSON.

ghost use Rattle.std.specs.Prelude.{◌≡◌, Some, IfOk, IsErr, OnOk, IsUtf8};
ghost use Rattle.std.specs.Option.{option_copied};
ghost use Rattle.serde_json.specs.Data.{string};
ghost use Rattle.serde_json.specs.Read.{read as read_text};
ghost use Rattle.serde_json.specs.View.{view};
ghost use Rattle.serde_json.specs.Written.{compact_text};
ghost use Rattle.lab_history.specs.PathText.{path_text};
ghost use Rattle.lab_reports.specs.Tree.{line_of};
ghost use Rattle.lab_reports.specs.RefusalTree.{file_fault_tree, refused_tree, unreadable_tree};

use crate::line::print_line;
use crate::to_json::text_json;
use lab_history::{FileFault, Path};
use lab_table::NoMemory;
use serde_json::{Value as Json, json};
use std::alloc::{AllocError, Global};

/// A place in a history file.
fn path_json(alloc: Global, path: Path) -> Result<Json, NoMemory>
    ensures { IfOk result (λ v. view v ≡ string (path_text path)) }
{
    text_json(alloc, &path.print(alloc)?)
}

/// Returns why a file is refused, as JSON. Fails if the fault is itself `NoMemory`.
fn file_fault_json(alloc: Global, fault: &FileFault) -> Result<Json, NoMemory>
    ensures value { IfOk result (λ v. view v ≡ file_fault_tree fault.now) }
    ensures memory { fault.now ≡ FileFault.NoMemory → IsErr result }
{
    match fault {
        FileFault::NoMemory => Err(AllocError),
        FileFault::NotJson => json!(in alloc; {"kind": "NotJson"}),
        FileFault::WrongFormat { path } => json!(in alloc; {
            "kind": "WrongFormat",
            "path": path_json(alloc, *path)?
        }),
        FileFault::WrongVersion { number } => json!(in alloc; {
            "kind": "WrongVersion",
            "version": *number
        }),
        FileFault::RepeatedTxn { no } => json!(in alloc; {
            "kind": "RepeatedTxn",
            "txn": no.number()
        }),
        FileFault::BadStatement { txn, op } => json!(in alloc; {
            "kind": "BadStatement",
            "op": *op,
            "txn": txn.number()
        }),
        FileFault::Unsorted { path } => json!(in alloc; {
            "kind": "Unsorted",
            "path": path_json(alloc, *path)?
        }),
        FileFault::OverLimit { which } => json!(in alloc; {
            "kind": "OverLimit",
            "limit": which.name()
        }),
    }
}

fn refused_json(alloc: Global, file: Option<&str>, fault: &FileFault) -> Result<Json, NoMemory>
    ensures value { IfOk result (λ v. view v ≡ refused_tree (option_copied file.entry) fault.now) }
    ensures memory { fault.now ≡ FileFault.NoMemory → IsErr result }
{
    let refused = file_fault_json(alloc, fault)?;
    match file {
        None => json!(in alloc; {"refused": refused}),
        Some(file) => json!(in alloc; {"file": file, "refused": refused}),
    }
}

/// Returns why a file isn't a history, as one line of compact JSON with its newline; with the name of the file if it is
/// given. Fails if the fault is itself `NoMemory`.
#[tactic(auto, using(crate::proofs::WritableTree::refused_whole, crate::proofs::WritableTree::refused_flat))]
pub fn print_refusal_json(
    alloc: Global,
    file: Option<&str>,
    fault: &FileFault,
) -> Result<Vec<u8>, NoMemory>
    ensures line { IfOk result (λ line. line.items ≡ line_of (refused_tree (option_copied file.entry) fault.now)) }
    ensures utf8 { IfOk result (λ line. IsUtf8 line.items) }
    // What stands before the newline, read as JSON, is the value.
    ensures value { OnOk result (let tree = refused_tree (option_copied file.entry) fault.now in read_text (compact_text tree) ≡ Some tree) }
    ensures memory { fault.now ≡ FileFault.NoMemory → IsErr result }
{
    print_line(alloc, &refused_json(alloc, file, fault)?)
}

fn unreadable_json(alloc: Global, file: &str) -> Result<Json, NoMemory>
    ensures { IfOk result (λ v. view v ≡ unreadable_tree file.now) }
{
    json!(in alloc; {"file": file, "unreadable": true})
}

/// Returns a line of compact JSON, with its newline, that says that a file can't be opened or read. The line has the
/// name of the file.
pub fn print_unreadable_json(alloc: Global, file: &str) -> Result<Vec<u8>, NoMemory>
    ensures line { IfOk result (λ line. line.items ≡ line_of (unreadable_tree file.now)) }
    ensures utf8 { IfOk result (λ line. IsUtf8 line.items) }
    // What stands before the newline, read as JSON, is the value.
    ensures value { OnOk result (let tree = unreadable_tree file.now in read_text (compact_text tree) ≡ Some tree) }
{
    print_line(alloc, &unreadable_json(alloc, file)?)
}

//! JSON pointers of positions in a history file. If memory runs out, a part of the text may have been appended.

ghost use Rattle.std.specs.Prelude.{◌≡◌, ◌++◌, IfOk, OnOk};
ghost use Rattle.lab_history.specs.PathText.{index_text, txn_text, op_text, list_text, path_text};

use crate::path::{ListPlace, Path};
use itoa::Buffer;
use lab_table::NoMemory;
use std::alloc::Global;

/// More bytes than any place in a file within the limits takes.
const MAX_BYTES: usize = 64;

impl Path {
    /// Returns the position as a JSON pointer, such as `/transactions/0/ops/2/view/1`. The root is `/`.
    pub fn print(&self, alloc: Global) -> Result<Vec<u8>, NoMemory>
        ensures { IfOk result (λ text. text.items ≡ path_text self.now) }
    {
        let mut text = Vec::with_capacity(alloc, MAX_BYTES)?;
        put_path(&mut text, *self)?;
        Ok(text)
    }
}

fn put_path(out: &mut Vec<u8>, path: Path) -> Result<(), NoMemory>
    ensures { OnOk result (out.new.items ≡ out.old.items ++ path_text path) }
{
    match path {
        Path::Root => out.extend_from_slice(b"/"),
        Path::Format => out.extend_from_slice(b"/format"),
        Path::Version => out.extend_from_slice(b"/version"),
        Path::List(place) => put_list(out, place),
        Path::Member { list: place, index } => {
            put_list(out, place)?;
            put_index(out, index)
        }
        Path::Part {
            list: place,
            index,
            part,
        } => {
            put_list(out, place)?;
            put_index(out, index)?;
            put_index(out, part)
        }
        Path::Installer {
            index,
            part,
            place: at,
        } => {
            out.extend_from_slice(b"/installed")?;
            put_index(out, index)?;
            put_index(out, part)?;
            put_index(out, at)
        }
        Path::Transactions => out.extend_from_slice(b"/transactions"),
        Path::Transaction { txn } => put_in_txn(out, txn, b""),
        Path::Number { txn } => put_in_txn(out, txn, b"/no"),
        Path::Outcome { txn } => put_in_txn(out, txn, b"/outcome"),
        Path::Operations { txn } => put_in_txn(out, txn, b"/ops"),
        Path::Operation { txn, op } => put_in_op(out, txn, op, b""),
        Path::Statement { txn, op } => put_in_op(out, txn, op, b"/statement"),
    }
}

fn put_list(out: &mut Vec<u8>, place: ListPlace) -> Result<(), NoMemory>
    ensures { OnOk result (out.new.items ≡ out.old.items ++ list_text place) }
{
    match place {
        ListPlace::Initial => out.extend_from_slice(b"/initial"),
        ListPlace::End => out.extend_from_slice(b"/end"),
        ListPlace::Installed => out.extend_from_slice(b"/installed"),
        ListPlace::View { txn, op } => put_in_op(out, txn, op, b"/view"),
        ListPlace::Rows { txn, op } => put_in_op(out, txn, op, b"/rows"),
        ListPlace::Writes { txn, op } => put_in_op(out, txn, op, b"/writes"),
    }
}

fn put_in_op(out: &mut Vec<u8>, txn: usize, op: usize, key: &[u8]) -> Result<(), NoMemory>
    ensures { OnOk result (out.new.items ≡ out.old.items ++ (op_text txn op ++ key.now)) }
{
    put_in_txn(out, txn, b"/ops")?;
    put_index(out, op)?;
    out.extend_from_slice(key)
}

fn put_in_txn(out: &mut Vec<u8>, txn: usize, key: &[u8]) -> Result<(), NoMemory>
    ensures { OnOk result (out.new.items ≡ out.old.items ++ (txn_text txn ++ key.now)) }
{
    out.extend_from_slice(b"/transactions")?;
    put_index(out, txn)?;
    out.extend_from_slice(key)
}

fn put_index(out: &mut Vec<u8>, index: usize) -> Result<(), NoMemory>
    ensures { OnOk result (out.new.items ≡ out.old.items ++ index_text index) }
{
    out.extend_from_slice(b"/")?;
    out.extend_from_slice(Buffer::new().format(index).as_bytes())
}

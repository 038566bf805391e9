//! What an engine tells of something.

ghost use Rattle.std.specs.Prelude.{◌≡◌, ◌++◌, OnOk};
ghost use Rattle.lab_compare.specs.Alike.{alike, content_text, is_empty, same_content, same_entries};

use lab_commands::put_rows;
use lab_engine::Level;
use lab_table::{NoMemory, RowName, Sequence, Value};
use std::marker::Model;

/// Bytes that stand elsewhere; contracts see their list.
#[derive(Drop)]
pub struct Bytes<'t> {
    bytes: &'t [u8],
}

impl<'t> Model for Bytes<'t> {
    ghost use Rattle.std.specs.Prelude.{List, ℕ};

    ghost Value = { List ℕ };

    ghost view = { λ b. b.bytes.now };
}

impl<'t> Bytes<'t> {
    /// These bytes.
    pub fn new(bytes: &'t [u8]) -> Bytes<'t>
        ensures { result ≡ bytes.now }
    {
        Bytes { bytes }
    }

    /// The bytes.
    pub fn as_slice(&self) -> &[u8]
        ensures { result.now ≡ self.now }
    {
        self.bytes
    }
}

/// What is told.
#[derive(Drop)]
pub enum Content<'t> {
    Text(Bytes<'t>),
    /// Rows with their values, by rising row.
    Rows(Sequence<(RowName, Value)>),
}

impl<'t> Content<'t> {
    /// Appends it as it is written. On failure, a part of the text may have been appended.
    fn put(&self, out: &mut Vec<u8>) -> Result<(), NoMemory>
        ensures { OnOk result (out.new.items ≡ out.old.items ++ content_text self.now) }
    {
        match self {
            Content::Text(text) => out.extend_from_slice(text.as_slice()),
            Content::Rows(rows) => put_rows(out, rows.as_slice()),
        }
    }

    /// Whether it is the same as another one.
    fn is_same(&self, other: &Content<'_>) -> bool
        ensures { result ≡ same_content self.now other.now }
    {
        match self {
            Content::Text(text) => match other {
                Content::Text(again) => text.as_slice() == again.as_slice(),
                Content::Rows(_) => false,
            },
            Content::Rows(rows) => match other {
                Content::Text(_) => false,
                Content::Rows(again) => are_same(rows.as_slice(), again.as_slice()),
            },
        }
    }

    /// Whether it is no text at all.
    fn is_empty(&self) -> bool
        ensures { result ≡ is_empty self.now }
    {
        match self {
            Content::Text(text) => text.as_slice().is_empty(),
            Content::Rows(_) => false,
        }
    }
}

/// Whether two lists have the same rows with the same values.
pub fn are_same(one: &[(RowName, Value)], other: &[(RowName, Value)]) -> bool
    ensures { result ≡ same_entries one.now other.now }
{
    one == other
}

/// What the engine of a level tells.
#[derive(Drop)]
pub struct Telling<'t> {
    pub level: Level,
    pub content: Content<'t>,
}

impl<'t> Telling<'t> {
    /// Whether another engine tells the same.
    pub fn is_alike(&self, other: &Telling<'_>) -> bool
        ensures { result ≡ alike self.now other.now }
    {
        self.content.is_same(&other.content)
    }

    /// Whether it is no text at all.
    pub fn is_empty(&self) -> bool
        ensures { result ≡ is_empty self.now.content }
    {
        self.content.is_empty()
    }

    /// Appends what is told. On failure, a part of the text may have been appended.
    pub fn put_content(&self, out: &mut Vec<u8>) -> Result<(), NoMemory>
        ensures { OnOk result (out.new.items ≡ out.old.items ++ content_text self.now.content) }
    {
        self.content.put(out)
    }
}

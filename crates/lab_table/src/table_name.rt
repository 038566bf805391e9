//! Names of tables.

ghost use Rattle.std.specs.Prelude.{◌≡◌, ◌≤◌, length, true, Some, is_some, codes, IsOk, IfOk, IfSome, refl};
ghost use Rattle.std.specs.List.{prefix_len, list_all};
ghost use Rattle.std.specs.Cmp.{partial_equiv_from_equiv};
ghost use Rattle.std.specs.Cmp.Lexicographic.{nat_list_eq_equiv, nat_list_cmp_total, texts_po, texts_ties, bytes_decides};
ghost use Rattle.std.specs.Hash as fed;
ghost use Rattle.std.specs.Hash.{same_Alike};
ghost use Rattle.lab_table.specs.Padded.{padded, is_nonzero};
ghost use Rattle.lab_table.specs.Differences.{differences};
ghost use Rattle.lab_table.specs.TableName.{has_name_form, is_name_letter, is_table_name, in_lower_case, table_name_cmp, table_name_eq};

use crate::memory::NoMemory;
use crate::word::Word;
use std::alloc::Global;
use std::cmp::Ordering;
use std::hash::{Hash, Hasher};
use std::marker::Model;
use std::simd::prelude::*;

/// The name of a table: 1 to 16 ASCII letters and `_`, in lower case, but not a reserved word of scripts. Names are
/// ordered by their bytes.
#[derive(Clone, Copy, Debug)]
pub struct TableName {
    /// The name, followed by zeros.
    bytes: [u8; 16],
}

impl Model for TableName {
    ghost use Rattle.std.specs.Prelude.{◌≡◌, ℕ, List, T};
    ghost use Rattle.std.specs.Coded.{coded_list, coded_ℕ};
    ghost use Rattle.lab_table.specs.Padded.{padded, unpadded};
    ghost use Rattle.lab_table.specs.TableName.{is_table_name};

    ghost Value = { List ℕ };

    ghost coded = { coded_list coded_ℕ };

    ghost view = { λ n. unpadded n.bytes };

    ghost invariant = { λ n. (padded (unpadded n.bytes) ≡ n.bytes) × T (is_table_name (unpadded n.bytes)) };

    ghost inverse = { λ text. record { bytes = padded text } };

    ghost inverse_ok = { λ n h i. record { bytes = h.0 i } };
}

impl TableName {
    /// Returns the table name that `text` spells, in upper or lower case, or `None` if it isn't a table name. Allocates
    /// nothing, so it never fails.
    pub fn new(_alloc: Global, text: &[u8]) -> Result<Option<TableName>, NoMemory>
        ensures ok { IsOk result }
        ensures some { IfOk result (λ made. is_some made ≡ is_table_name (in_lower_case text.now)) }
        ensures value { IfOk result (λ made. IfSome made (λ name. name ≡ in_lower_case text.now)) }
    {
        Ok(TableName::spelled(text))
    }

    /// Returns the table name that `text` spells, in upper or lower case, or `None` if it isn't a table name. Like
    /// `new`, without the `Result`.
    pub fn spelled(text: &[u8]) -> Option<TableName>
        ensures some { is_some result ≡ is_table_name (in_lower_case text.now) }
        ensures value { IfSome result (λ name. name ≡ in_lower_case text.now) }
    {
        // Most names are this one.
        if text == b"test".as_slice() {
            return Some(TableName::test());
        }
        if text.len() > 16 || Word::named(text).is_some() {
            return None;
        }
        let bytes = lowered(text);
        if has_name_form(&bytes[..text.len()]) {
            Some(TableName { bytes })
        } else {
            None
        }
    }

    /// Returns the name `test`: the table of rows that are written without a table.
    pub fn test() -> TableName
        ensures { result ≡ codes "test" }
    {
        TableName {
            bytes: *b"test\0\0\0\0\0\0\0\0\0\0\0\0",
        }
    }

    /// Returns the bytes of the name, in lower case.
    pub fn as_bytes(&self) -> &[u8]
        ensures value { result.now ≡ self.now }
        ensures name { is_table_name result.now ≡ true }
    {
        &self.bytes[..nonzero_len(&self.bytes)]
    }

    /// Returns a copy of the name.
    pub fn copy(&self) -> TableName
        ensures { result ≡ self.now }
    {
        *self
    }
}

/// How many bytes stand before the first zero.
fn nonzero_len(bytes: &[u8]) -> usize
    ensures value { result ≡ prefix_len is_nonzero bytes.now }
    ensures bound { result ≤ length bytes.now }
{
    bytes.iter().take_while(|byte| **byte != 0).count()
}

fn is_name_letter(byte: u8) -> bool
    ensures { result ≡ is_name_letter byte }
{
    byte.is_ascii_lowercase() || byte == b'_'
}

fn has_letters(text: &[u8]) -> bool
    ensures { result ≡ list_all is_name_letter text.now }
{
    text.iter().all(|byte| is_name_letter(*byte))
}

/// Whether a text in lower case is a name, if it is no reserved word.
fn has_name_form(text: &[u8]) -> bool
    ensures { result ≡ has_name_form text.now }
{
    1 <= text.len() && text.len() <= 16 && has_letters(text)
}

/// A short text in lower case, with zeros behind it.
fn lowered(text: &[u8]) -> [u8; 16]
    requires { length text.now ≤ 16 }
    ensures { result ≡ padded (in_lower_case text.now) }
{
    let mut bytes = [0; 16];
    bytes[..text.len()].copy_from_slice(text);
    bytes.make_ascii_lowercase();
    bytes
}

/// A bit for each byte in which two names differ, the first at the lowest. All bytes are compared at once: names of tables
/// are compared wherever rows are.
#[inline(always)]
fn differing(a: [u8; 16], b: [u8; 16]) -> u64
    ensures { result ≡ differences a b }
{
    u8x16::from_array(a)
        .simd_ne(u8x16::from_array(b))
        .to_bitmask()
}

fn are_same(a: [u8; 16], b: [u8; 16]) -> bool
    ensures { result ≡ table_name_eq a b }
{
    differing(a, b) == 0
}

/// The order of two names' bytes: the first in which they differ decides.
fn order_of(a: [u8; 16], b: [u8; 16]) -> Ordering
    ensures { result ≡ table_name_cmp a b }
{
    let differing = differing(a, b);
    if differing == 0 {
        return Ordering::Equal;
    }
    let place = differing.trailing_zeros() as usize;
    a[place].cmp(&b[place])
}

impl PartialEq for TableName {
    ghost eq = { table_name_eq };

    ghost laws = { partial_equiv_from_equiv nat_list_eq_equiv };

    fn eq(&self, other: &TableName) -> bool {
        are_same(self.bytes, other.bytes)
    }
}

impl Eq for TableName {
    ghost laws = { nat_list_eq_equiv };
}

impl PartialOrd for TableName {
    ghost partial_cmp = { λ a b. Some (table_name_cmp a b) };

    ghost laws = { texts_po };

    fn partial_cmp(&self, other: &TableName) -> Option<Ordering> {
        Some(self.cmp(other))
    }
}

impl Ord for TableName {
    ghost cmp = { table_name_cmp };

    ghost total = { nat_list_cmp_total };

    ghost matches_partial_cmp = { λ a b. refl };

    ghost matches_eq = { texts_ties };

    fn cmp(&self, other: &TableName) -> Ordering {
        order_of(self.bytes, other.bytes)
    }
}

impl Hash for TableName {
    ghost hash_input = { fed.slice fed.u8 };

    ghost respects_eq = { (same_Alike (fed.slice fed.u8) bytes_decides).fed };

    fn hash<H: Hasher>(&self, state: &mut H) {
        self.as_bytes().hash(state);
    }
}

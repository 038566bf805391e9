//! The parts of a member of a list that stand behind its key.

ghost use Rattle.std.specs.Prelude.{◌≡◌, ◌++◌, Some, OnOk, option_and_then, option_map, Option};
ghost use Rattle.std.specs.Fmt.{decimal};
ghost use Rattle.serde_json.specs.Find.{get_item};
ghost use Rattle.serde_json.specs.View.{view, items_view};
ghost use Rattle.serde_json.specs.Data.{Data};
ghost use Rattle.serde_json.specs.Written.{compact_text};
ghost use Rattle.lab_history_file.specs.Entries.{op_in_number, txn_in_number, value_in, state_in};
ghost use Rattle.lab_history_file.specs.Tree.{natural_tree, value_tree, state_tree};

use crate::member::whole_of;
use itoa::Buffer;
use lab_history::{MAX_OPERATIONS, State};
use lab_table::{NoMemory, TxnNo, Value};
use serde_json::Value as Json;

/// What may be one part of a member.
pub trait Part: Sized + Drop {
    ghost part_in: { Data → Option Self };

    ghost part_tree: { Self → Data };

    /// What a value is, if it is one.
    fn from_json(json: &Json) -> Option<Self>
        ensures { result ≡ part_in (view json.now) };

    /// Appends the text of the value that it is. After NoMemory, part of it may stand there.
    fn put_part(&self, out: &mut Vec<u8>) -> Result<(), NoMemory>
        ensures text { OnOk result (out.new.items ≡ out.old.items ++ compact_text (part_tree self.now)) }
        ensures read { OnOk result (part_in (part_tree self.now) ≡ Some self.now) };
}

/// Appends a number without a sign in decimal. After NoMemory, part of it may stand there.
pub fn put_natural(out: &mut Vec<u8>, number: u32) -> Result<(), NoMemory>
    ensures { OnOk result (out.new.items ≡ out.old.items ++ decimal number) }
{
    out.extend_from_slice(Buffer::new().format(number).as_bytes())
}

/// The number of a transaction.
impl Part for TxnNo {
    ghost part_in = { txn_in_number };

    ghost part_tree = { natural_tree };

    fn from_json(json: &Json) -> Option<TxnNo> {
        TxnNo::new(whole_of(json, 1_000_000)?)
    }

    fn put_part(&self, out: &mut Vec<u8>) -> Result<(), NoMemory> {
        put_natural(out, self.number())
    }
}

/// What a row has in the column value.
impl Part for Value {
    ghost part_in = { value_in };

    ghost part_tree = { value_tree };

    fn from_json(json: &Json) -> Option<Value> {
        Value::new(json.as_i64()?)
    }

    #[tactic(auto, using(crate::proofs::WrittenTexts::value_text))]
    fn put_part(&self, out: &mut Vec<u8>) -> Result<(), NoMemory> {
        out.extend_from_slice(Buffer::new().format(self.number()).as_bytes())
    }
}

/// What is written to a row: a value, or null.
impl Part for State {
    ghost part_in = { state_in };

    ghost part_tree = { state_tree };

    fn from_json(json: &Json) -> Option<State> {
        match json {
            Json::Null => Some(State::Absent),
            Json::Number(_) => Some(State::Present(Value::from_json(json)?)),
            _ => None,
        }
    }

    fn put_part(&self, out: &mut Vec<u8>) -> Result<(), NoMemory> {
        match self {
            State::Absent => out.extend_from_slice(b"null"),
            State::Present(value) => value.put_part(out),
        }
    }
}

/// The number of an operation within its transaction.
pub fn op_of(json: &Json) -> Option<u32>
    ensures { result ≡ op_in_number (view json.now) }
{
    whole_of(json, MAX_OPERATIONS as u32)
}

/// The part behind a key with this number, counted from 0.
#[inline(always)]
#[tactic(auto, using(serde_json::proofs::Views::get_item_within, serde_json::proofs::Views::get_item_past))]
pub fn part_at(behind: &[Json], number: usize) -> Option<&Json>
    ensures { option_map (λ part. view part.now) result ≡ get_item number (items_view behind.now) }
{
    if number < behind.len() {
        Some(&behind[number])
    } else {
        None
    }
}

/// The same, read as what has to be there.
#[inline(always)]
pub fn part_of<P: Part>(behind: &[Json], number: usize) -> Option<P>
    ensures { result ≡ option_and_then P.part_in (get_item number (items_view behind.now)) }
{
    P::from_json(part_at(behind, number)?)
}

//! Reads an input to its end.

ghost use Rattle.std.specs.Prelude.{◌≡◌, ◌≢◌, ◌⊎◌, ◌≤◌, ◌<◌, length, IfOk, IfErr, OnOk, IfSome};
ghost use Rattle.std.specs.Io.KnownBytes.{IsAtEnd};
ghost use Rattle.lab_streams.specs.Input.{read_of, Takes, IsReadOut, max_input_bytes};

use crate::ending::RunFault;
use lab_history::MAX_FILE_BYTES;
use std::alloc::Global;
use std::io::{ErrorKind, Read};

/// The most bytes that are read of an input: one more than a history file may have, so that a longer one shows.
const MAX_INPUT_BYTES: usize = MAX_FILE_BYTES + 1;

/// The most calls of a reader, those counted that were interrupted.
const MAX_CALLS: u32 = 20_000_000;

/// Bytes that one call may give.
const CHUNK: usize = 8_192;

/// Whether there may be more to read.
#[derive(Clone, Copy, Debug, Drop, PartialEq, Eq)]
enum Turn {
    More,
    End,
}

/// Calls the reader once, and puts what it gives to the end of the bytes before.
#[tactic(auto, using(crate::proofs::Taken::takes_none))]
fn read_turn<R: Read>(
    reader: &mut R,
    chunk: &mut [u8; CHUNK],
    bytes: &mut Vec<u8>,
) -> Result<Turn, RunFault>
    requires { length bytes.old.items < max_input_bytes }
    ensures fault { IfErr result (λ fault. fault ≢ RunFault.Unwritten) }
    ensures part { OnOk result (Takes (R.remaining reader.old) (R.remaining reader.new) bytes.old.items bytes.new.items) }
    ensures few { OnOk result (length bytes.new.items ≤ max_input_bytes) }
    ensures more { IfOk result (λ turn. turn ≡ Turn.More → length bytes.new.items < max_input_bytes) }
    ensures end { IfOk result (λ turn. turn ≡ Turn.End → IsAtEnd (R.remaining reader.new) ⊎ (length bytes.new.items ≡ max_input_bytes)) }
{
    let room = (MAX_INPUT_BYTES - bytes.len()).min(CHUNK);
    match reader.read(&mut chunk[..room]) {
        Ok(0) => Ok(Turn::End),
        Ok(count) => {
            bytes.extend_from_slice(&chunk[..count])?;
            if bytes.len() < MAX_INPUT_BYTES {
                Ok(Turn::More)
            } else {
                Ok(Turn::End)
            }
        }
        Err(error) => {
            if error.kind() == ErrorKind::Interrupted {
                Ok(Turn::More)
            } else {
                Err(RunFault::Unread)
            }
        }
    }
}

/// Reads the input to its end, but at most 8,388,609 bytes. Repeats interrupted calls. Fails with `Unread` if a call
/// fails, or if 20,000,000 calls don't reach the end.
#[tactic(auto, using(crate::proofs::Taken::takes_start, crate::proofs::Taken::takes_more))]
pub fn read_input<R: Read>(alloc: Global, reader: &mut R) -> Result<Vec<u8>, RunFault>
    ensures bytes { IfOk result (λ bytes. IfSome (R.remaining reader.old) (λ input. bytes.items ≡ read_of input)) }
    ensures taken { OnOk result (IsReadOut (R.remaining reader.old) (R.remaining reader.new)) }
    ensures fault { IfErr result (λ fault. fault ≢ RunFault.Unwritten) }
{
    let mut chunk = [0u8; CHUNK];
    let mut bytes = Vec::new(alloc);
    for _ in 0..MAX_CALLS {
        match read_turn(reader, &mut chunk, &mut bytes)? {
            Turn::More => {}
            Turn::End => return Ok(bytes),
        }
    }
    Err(RunFault::Unread)
}

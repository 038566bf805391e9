//! Destinations of printed text: bytes that it is appended to, or a counter that only measures its length.

ghost use Rattle.std.specs.Prelude.{◌≡◌, ◌≤◌, ℕ, List, MatchResult, suc, replicate, true, false};
ghost use Rattle.lab_printing.specs.Sink.{Puts};

use lab_table::NoMemory;
use std::alloc::AllocError;

/// A destination of a text. It takes the text piece by piece, as far as it has room.
pub trait Sink {
    // What was taken so far.
    ghost text: { Self → List ℕ };

    // What is kept of a byte.
    ghost kept: { ℕ → ℕ };

    // A shorter text than this isn't refused.
    ghost limit: { ℕ };

    /// Takes `bytes`. Returns whether it took them all; if not, it may have taken a part.
    fn put(&mut self, bytes: &[u8]) -> bool
        ensures { Puts kept limit result (text self.old) bytes.now (text self.new) };
}

// Bytes are appended, and refused for want of memory alone.
impl Sink for Vec<u8> {
    ghost text = { λ it. it.items };

    ghost kept = { λ byte. byte };

    ghost limit = { 0 };

    #[inline]
    fn put(&mut self, bytes: &[u8]) -> bool {
        self.extend_from_slice(bytes).is_ok()
    }
}

/// Returns `Ok` if the bytes were taken, else `NoMemory`: an append to bytes fails only if memory runs out.
pub fn append_result(taken: bool) -> Result<(), NoMemory>
    ensures { MatchResult result (λ _. taken ≡ true) (λ _. taken ≡ false) }
{
    if taken { Ok(()) } else { Err(AllocError) }
}

/// A sink that only counts: it has room for `LIMIT` bytes and keeps none of them.
#[derive(Drop)]
pub struct Room<const LIMIT: usize> {
    used: usize,
    ghost within: { used ≤ LIMIT },
}

impl<const LIMIT: usize> Room<LIMIT> {
    /// Returns an unused `Room`.
    pub fn new() -> Room<LIMIT>
        ensures { result.used ≡ 0 }
    {
        Room { used: 0 }
    }
}

impl<const LIMIT: usize> Sink for Room<LIMIT> {
    ghost text = { λ it. replicate it.used 0 };

    ghost kept = { λ _. 0 };

    ghost limit = { suc LIMIT };

    #[inline]
    fn put(&mut self, bytes: &[u8]) -> bool {
        if bytes.len() > LIMIT - self.used {
            return false;
        }
        self.used += bytes.len();
        true
    }
}

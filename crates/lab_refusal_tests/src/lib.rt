//! Shared by the tests of failing memory: allocations that fail in turn.
#![tactic(auto)]

use std::alloc::{AllocError, Global};

// What .ci/refuse.c reads in sizes of blocks; without it these are ordinary blocks, and no allocation is refused.
const MARK: usize = 5_000_011;

const ASK: usize = 5_100_003;

/// From now on the n-th allocation is refused, or none at 0.
pub fn refuse(alloc: Global, n: u16) {
    let _: Result<Vec<u8>, AllocError> = Vec::with_capacity(alloc, MARK + n as usize);
}

/// Whether an allocation was refused since. From now on none is.
pub fn was_refused(alloc: Global) -> bool {
    let block: Result<Vec<u8>, AllocError> = Vec::with_capacity(alloc, ASK);
    let refused = block.is_err();
    refuse(alloc, 0);
    refused
}

//! Judges many files with several threads.

ghost use Rattle.std.specs.Prelude.{IfOk};
ghost use Rattle.std.specs.List.{AllZip};
ghost use Rattle.lab_judge.specs.FileJudgement.{IsFileAnswer};

use crate::judging::judge_bytes;
use crate::report::Report;
use lab_history::FileFault;
use lab_table::NoMemory;
use rayon::prelude::*;
use std::alloc::{AllocError, Global};
use std::thread::Threads;

/// Judges one file, and returns `NoMemory` separately from other faults.
fn judged(alloc: Global, bytes: &[u8]) -> Result<Result<Report, FileFault>, NoMemory>
    ensures { IfOk result (IsFileAnswer bytes.now) }
{
    match judge_bytes(alloc, bytes) {
        Ok(report) => Ok(Ok(report)),
        Err(FileFault::NoMemory) => Err(AllocError),
        Err(fault) => Ok(Err(fault)),
    }
}

/// Judges the history of each file. Returns one result for each file, in the order of the files: a judgement, or a
/// fault that is true of the file. The results don't depend on the number of threads. Starts as many threads as there
/// are processors, and waits for them.
pub fn judge_all<R: Threads + Sync>(
    rt: &R,
    alloc: Global,
    files: &[Vec<u8>],
) -> Result<Vec<Result<Report, FileFault>>, NoMemory>
    ensures { IfOk result (λ answers. AllZip (λ file answer. IsFileAnswer file.items answer) files.now answers.items) }
{
    let all = files
        .par_iter()
        // A file is work enough for a thread; by itself rayon would give a thread a thousand of them.
        .with_min_len(1)
        .map(
            |file: &Vec<u8>| -> Result<Result<Report, FileFault>, NoMemory>
                ensures { IfOk result (IsFileAnswer file.entry.now.items) }
            { judged(alloc, file.as_slice()) },
        )
        .collect::<Result<Vec<Result<Report, FileFault>>, NoMemory>>(rt, alloc);
    match all {
        Ok(Ok(answers)) => Ok(answers),
        _ => Err(AllocError),
    }
}

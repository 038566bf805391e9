//! Prints why a file isn't a history. On failure, a part of the text may have been appended.

ghost use Rattle.std.specs.Prelude.{◌≡◌, IfOk};
ghost use Rattle.lab_judge.specs.FileFaultText.{file_fault_text};

use itoa::Buffer;
use lab_history::FileFault;
use lab_table::NoMemory;
use std::alloc::Global;

/// Returns the line that reports a fault, such as `file: BadStatement T1 op 1` and a newline. For `NoMemory` the text
/// is empty.
pub fn print_file_fault(alloc: Global, fault: &FileFault) -> Result<Vec<u8>, NoMemory>
    ensures { IfOk result (λ text. text.items ≡ file_fault_text fault.now) }
{
    let mut digits = Buffer::new();
    let mut text = Vec::new(alloc);
    match fault {
        FileFault::NoMemory => return Ok(text),
        FileFault::NotJson => text.extend_from_slice(b"file: NotJson")?,
        FileFault::WrongFormat { path } => {
            text.extend_from_slice(b"file: WrongFormat ")?;
            text.extend_from_slice(&path.print(alloc)?)?;
        }
        FileFault::WrongVersion { number } => {
            text.extend_from_slice(b"file: WrongVersion ")?;
            text.extend_from_slice(digits.format(*number).as_bytes())?;
        }
        FileFault::RepeatedTxn { no } => {
            text.extend_from_slice(b"file: RepeatedTxn ")?;
            text.extend_from_slice(digits.format(no.number()).as_bytes())?;
        }
        FileFault::BadStatement { txn, op } => {
            text.extend_from_slice(b"file: BadStatement T")?;
            text.extend_from_slice(digits.format(txn.number()).as_bytes())?;
            text.extend_from_slice(b" op ")?;
            text.extend_from_slice(digits.format(*op).as_bytes())?;
        }
        FileFault::Unsorted { path } => {
            text.extend_from_slice(b"file: Unsorted ")?;
            text.extend_from_slice(&path.print(alloc)?)?;
        }
        FileFault::OverLimit { which } => {
            text.extend_from_slice(b"file: OverLimit ")?;
            text.extend_from_slice(which.name().as_bytes())?;
        }
    }
    text.push(b'\n')?;
    Ok(text)
}

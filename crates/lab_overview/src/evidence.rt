//! The evidence of a page: the report and the history. Functions that take bytes append; on failure, a part of the text
//! may have been appended.

ghost use Rattle.std.specs.Prelude.{◌≡◌, ◌++◌, OnOk};
ghost use Rattle.lab_overview.specs.Check.{report_part, file_of, file_text, no_file, shown_file, history_text, history_part};

use crate::tags::{file_open, history_head, page_close, report_head};
use lab_drawing::put_escaped;
use lab_history::History;
use lab_history_file::{WriteFault, write_history};
use lab_judge::{Report, print_report};
use lab_table::NoMemory;
use std::alloc::{AllocError, Global};

/// The most bytes of a history that is put in.
const MAX_FILE: usize = 65_536;

/// Appends the ten lines of the report.
#[tactic(auto, unfolding(crate::specs::Check::report_part))]
pub fn put_report(alloc: Global, out: &mut Vec<u8>, report: &Report) -> Result<(), NoMemory>
    ensures { OnOk result (out.new.items ≡ out.old.items ++ report_part report.now) }
{
    let text = print_report(alloc, report)?;
    out.extend_from_slice(report_head())?;
    put_escaped(out, &text)?;
    out.extend_from_slice(b"</pre>\n</section>\n")
}

/// Appends a file.
#[tactic(auto, unfolding(crate::specs::Check::file_text))]
fn put_file(out: &mut Vec<u8>, file: &[u8]) -> Result<(), NoMemory>
    ensures { OnOk result (out.new.items ≡ out.old.items ++ file_text file.now) }
{
    out.extend_from_slice(file_open())?;
    put_escaped(out, file)?;
    out.extend_from_slice(b"</pre>\n</details>\n")
}

/// What stands in place of a file that is too long.
#[tactic(auto, unfolding(crate::specs::Check::no_file))]
fn no_file() -> &'static [u8]
    ensures { result.now ≡ no_file }
{
    b"<p>It has more than 65,536 bytes of JSON, and isn't here: attach the file.</p>\n"
}

/// Appends a file, if it isn't too long.
fn put_shown_file(out: &mut Vec<u8>, file: &[u8]) -> Result<(), NoMemory>
    ensures { OnOk result (out.new.items ≡ out.old.items ++ shown_file file.now) }
{
    if file.len() <= MAX_FILE {
        put_file(out, file)
    } else {
        out.extend_from_slice(no_file())
    }
}

/// Appends the file of a history, if it isn't too long.
#[tactic(auto, unfolding(crate::specs::Check::file_of), using(crate::proofs::LongFiles::long_file))]
fn put_file_of(alloc: Global, out: &mut Vec<u8>, history: &History) -> Result<(), NoMemory>
    ensures { OnOk result (out.new.items ≡ out.old.items ++ shown_file (file_of history.now)) }
{
    match write_history(alloc, history) {
        Ok(file) => put_shown_file(out, &file),
        Err(WriteFault::TooLong) => out.extend_from_slice(no_file()),
        Err(WriteFault::NoMemory) => Err(AllocError),
    }
}

/// Appends the history itself.
#[tactic(auto, unfolding(crate::specs::Check::history_text))]
fn put_history_text(alloc: Global, out: &mut Vec<u8>, history: &History) -> Result<(), NoMemory>
    ensures { OnOk result (out.new.items ≡ out.old.items ++ history_text (file_of history.now)) }
{
    out.extend_from_slice(history_head())?;
    put_file_of(alloc, out, history)
}

/// Appends the history, and the end of the page.
#[tactic(auto, unfolding(crate::specs::Check::history_part))]
pub fn put_history(alloc: Global, out: &mut Vec<u8>, history: &History) -> Result<(), NoMemory>
    ensures { OnOk result (out.new.items ≡ out.old.items ++ history_part (file_of history.now)) }
{
    put_history_text(alloc, out, history)?;
    out.extend_from_slice(page_close())
}

//! Prints the cases at given levels. The functions append; on failure, a part of the text may have been appended.

ghost use Rattle.std.specs.Prelude.{◌≡◌, ◌-◌, ◌++◌, length, IfOk, OnOk};
ghost use Rattle.lab_matrix.specs.Columns.{lead_of, text_in, rest_of, line_of, columns_text};
ghost use Rattle.lab_matrix.specs.MatrixText.{cell_text};

use crate::columns::CaseReports;
use crate::matrix_text::{mark, put_spaces};
use crate::name::CaseName;
use crate::promised::promise;
use lab_judge::Report;
use lab_levels::level_name;
use lab_table::NoMemory;
use std::alloc::Global;

/// The width of the column of cases.
const CASE_WIDTH: usize = 10;

/// The width of the column of a level.
const LEVEL_WIDTH: usize = 12;

/// A line of the text.
#[derive(Clone, Copy, Debug, PartialEq, Eq)]
pub enum Line {
    /// That of the levels' names.
    Heading,
    /// That of a case.
    Case(CaseName),
    /// That of what is promised.
    Promised,
}

impl Line {
    /// What stands first in it.
    fn lead(self) -> &'static str
        ensures { result.now ≡ lead_of self }
    {
        match self {
            Line::Heading => "case",
            Line::Case(case) => case.name(),
            Line::Promised => "promised",
        }
    }
}

/// Appends a text, and answers how long it is.
fn put_measured(out: &mut Vec<u8>, text: &str) -> Result<usize, NoMemory>
    ensures text { OnOk result (out.new.items ≡ out.old.items ++ text.now) }
    ensures length { IfOk result (λ count. count ≡ length text.now) }
{
    out.extend_from_slice(text.as_bytes())?;
    Ok(text.len())
}

/// Appends a level that a history meets, and `SI` where it is a snapshot run; answers how long that is.
fn put_report(out: &mut Vec<u8>, report: &Report) -> Result<usize, NoMemory>
    ensures text { OnOk result (out.new.items ≡ out.old.items ++ cell_text report.now) }
    ensures length { IfOk result (λ count. count ≡ length (cell_text report.now)) }
{
    let level = put_measured(out, report.level.name())?;
    let mark = put_measured(out, mark(&report.snapshot))?;
    Ok(level + mark)
}

/// Appends what stands in a line in a column, and answers how long it is.
fn put_text(out: &mut Vec<u8>, line: Line, column: &CaseReports) -> Result<usize, NoMemory>
    ensures text { OnOk result (out.new.items ≡ out.old.items ++ text_in line column.now) }
    ensures length { IfOk result (λ count. count ≡ length (text_in line column.now)) }
{
    match line {
        Line::Heading => put_measured(out, level_name(column.level)),
        Line::Case(case) => put_report(out, column.report(case)),
        Line::Promised => put_measured(out, promise(column.level).name()),
    }
}

/// Appends the rest of a line, where so many bytes of this width stand before the next column.
fn put_rest(
    out: &mut Vec<u8>,
    line: Line,
    lead: usize,
    columns: &[CaseReports],
) -> Result<(), NoMemory>
    ensures { OnOk result (out.new.items ≡ out.old.items ++ rest_of line (10 - lead) columns.now) }
{
    let mut free = CASE_WIDTH.saturating_sub(lead);
    for column in columns {
        put_spaces(out, 0, free)?;
        free = LEVEL_WIDTH.saturating_sub(put_text(out, line, column)?);
    }
    out.extend_from_slice(b"\n")
}

/// Appends a line.
fn put_line(out: &mut Vec<u8>, line: Line, columns: &[CaseReports]) -> Result<(), NoMemory>
    ensures { OnOk result (out.new.items ≡ out.old.items ++ line_of line columns.now) }
{
    let lead = put_measured(out, line.lead())?;
    put_rest(out, line, lead, columns)
}

/// Returns the table of the cases at these levels. It has a line of the levels' names. Then each case has a line with
/// the level that its history meets on each engine, and `SI` if it is a snapshot run. The last line lists what each
/// engine promises.
pub fn print_columns(alloc: Global, columns: &[CaseReports]) -> Result<Vec<u8>, NoMemory>
    ensures { IfOk result (λ text. text.items ≡ columns_text columns.now) }
{
    let mut text = Vec::new(alloc);
    put_line(&mut text, Line::Heading, columns)?;
    put_line(&mut text, Line::Case(CaseName::G0), columns)?;
    put_line(&mut text, Line::Case(CaseName::G1a), columns)?;
    put_line(&mut text, Line::Case(CaseName::G1b), columns)?;
    put_line(&mut text, Line::Case(CaseName::G1c), columns)?;
    put_line(&mut text, Line::Case(CaseName::Otv), columns)?;
    put_line(&mut text, Line::Case(CaseName::Pmp), columns)?;
    put_line(&mut text, Line::Case(CaseName::P4), columns)?;
    put_line(&mut text, Line::Case(CaseName::GSingle), columns)?;
    put_line(&mut text, Line::Case(CaseName::G2Item), columns)?;
    put_line(&mut text, Line::Case(CaseName::G2), columns)?;
    put_line(&mut text, Line::Promised, columns)?;
    Ok(text)
}

//! Prints the matrix.

ghost use Rattle.std.specs.Prelude.{◌≡◌, ◌-◌, ◌++◌, IfOk, OnOk};
ghost use Rattle.lab_printing.specs.Printed.{newline};
ghost use Rattle.lab_matrix.specs.MatrixText.{cell_text, heading, matrix_text, padded, promised_line, row_line, snapshot_mark, spaces};

use crate::cells::{Column, Matrix, Row};
use crate::name::CaseName;
use crate::promised::promise;
use lab_judge::{Places, Report};
use lab_table::NoMemory;
use std::alloc::Global;

/// The width of the column of cases.
const CASE_WIDTH: usize = 10;

/// The width of the column of an engine.
const CELL_WIDTH: usize = 12;

/// Returns the matrix as text. It has a line of the columns. Then each case has a line with its level on each engine,
/// and `SI` if the history is a snapshot run. The last line lists what each engine promises.
pub fn print_matrix(alloc: Global, matrix: &Matrix) -> Result<Vec<u8>, NoMemory>
    ensures { IfOk result (λ text. text.items ≡ matrix_text matrix.now) }
{
    let mut text = Vec::new(alloc);
    put_heading(&mut text)?;
    put_row(&mut text, CaseName::G0, &matrix.g0)?;
    put_row(&mut text, CaseName::G1a, &matrix.g1a)?;
    put_row(&mut text, CaseName::G1b, &matrix.g1b)?;
    put_row(&mut text, CaseName::G1c, &matrix.g1c)?;
    put_row(&mut text, CaseName::Otv, &matrix.otv)?;
    put_row(&mut text, CaseName::Pmp, &matrix.pmp)?;
    put_row(&mut text, CaseName::P4, &matrix.p4)?;
    put_row(&mut text, CaseName::GSingle, &matrix.g_single)?;
    put_row(&mut text, CaseName::G2Item, &matrix.g2_item)?;
    put_row(&mut text, CaseName::G2, &matrix.g2)?;
    put_promised(&mut text)?;
    Ok(text)
}

fn put_heading(out: &mut Vec<u8>) -> Result<(), NoMemory>
    ensures { OnOk result (out.new.items ≡ out.old.items ++ heading) }
{
    out.extend_from_slice(b"case      locking     committed   snapshot\n")?;
    Ok(())
}

fn put_row(out: &mut Vec<u8>, case: CaseName, row: &Row) -> Result<(), NoMemory>
    ensures { OnOk result (out.new.items ≡ out.old.items ++ row_line case row.now) }
{
    put_padded(out, case.name(), CASE_WIDTH)?;
    put_cell(out, &row.locking, CELL_WIDTH)?;
    put_cell(out, &row.committed, CELL_WIDTH)?;
    put_last_cell(out, &row.snapshot)?;
    Ok(())
}

/// The line of what each engine promises.
fn put_promised(out: &mut Vec<u8>) -> Result<(), NoMemory>
    ensures { OnOk result (out.new.items ≡ out.old.items ++ promised_line) }
{
    put_padded(out, "promised", CASE_WIDTH)?;
    put_padded(out, promise(Column::Locking.level()).name(), CELL_WIDTH)?;
    put_padded(out, promise(Column::Committed.level()).name(), CELL_WIDTH)?;
    out.extend_from_slice(promise(Column::Snapshot.level()).name().as_bytes())?;
    out.push(b'\n')?;
    Ok(())
}

fn put_padded(out: &mut Vec<u8>, text: &str, width: usize) -> Result<(), NoMemory>
    ensures { OnOk result (out.new.items ≡ out.old.items ++ padded width text.now) }
{
    out.extend_from_slice(text.as_bytes())?;
    put_spaces(out, text.len(), width)
}

/// Spaces from one column up to another.
pub fn put_spaces(out: &mut Vec<u8>, used: usize, width: usize) -> Result<(), NoMemory>
    ensures { OnOk result (out.new.items ≡ out.old.items ++ spaces (width - used)) }
{
    for _column in used..width {
        out.push(b' ')?;
    }
    Ok(())
}

/// ` SI` where a history is a snapshot run, else nothing.
pub fn mark(places: &Places) -> &'static str
    ensures { result.now ≡ snapshot_mark places.now }
{
    match places {
        Places::Yes(_) => " SI",
        Places::NoFault(_) | Places::NoCycle(_) => "",
    }
}

fn put_cell(out: &mut Vec<u8>, report: &Report, width: usize) -> Result<(), NoMemory>
    ensures { OnOk result (out.new.items ≡ out.old.items ++ padded width (cell_text report.now)) }
{
    let level = report.level.name();
    let mark = mark(&report.snapshot);
    out.extend_from_slice(level.as_bytes())?;
    out.extend_from_slice(mark.as_bytes())?;
    put_spaces(out, level.len() + mark.len(), width)
}

fn put_last_cell(out: &mut Vec<u8>, report: &Report) -> Result<(), NoMemory>
    ensures { OnOk result (out.new.items ≡ out.old.items ++ cell_text report.now ++ newline) }
{
    out.extend_from_slice(report.level.name().as_bytes())?;
    out.extend_from_slice(mark(&report.snapshot).as_bytes())?;
    out.push(b'\n')?;
    Ok(())
}

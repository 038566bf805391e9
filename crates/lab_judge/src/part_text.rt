//! The parts of a report as texts, each with the space before it. The functions append; on failure, a part of the text
//! may have been appended.

ghost use Rattle.std.specs.Prelude.{◌≡◌, ◌++◌, codes, flat_map, OnOk};
ghost use Rattle.std.specs.Fmt.{decimal};
ghost use Rattle.lab_judge.specs.Runs.{span_of, spans_of};
ghost use Rattle.lab_judge.specs.ReportText.{circle_text, fault_text, kind_name, place_text, point_text, row_text, span_text, step_text, txn_text, walk_text};

use crate::places::Point;
use itoa::Buffer;
use lab_deps::{Edge, FaultParts, Kind, LocalFault};
use lab_printing::put_row_name;
use lab_table::{NoMemory, RowName, TxnNo};

fn put_number(out: &mut Vec<u8>, number: u32) -> Result<(), NoMemory>
    ensures { OnOk result (out.new.items ≡ out.old.items ++ decimal number) }
{
    out.extend_from_slice(Buffer::new().format(number).as_bytes())
}

fn put_txn(out: &mut Vec<u8>, txn: TxnNo) -> Result<(), NoMemory>
    ensures { OnOk result (out.new.items ≡ out.old.items ++ txn_text txn) }
{
    out.extend_from_slice(b" T")?;
    put_number(out, txn.number())
}

fn put_row(out: &mut Vec<u8>, row: RowName) -> Result<(), NoMemory>
    ensures { OnOk result (out.new.items ≡ out.old.items ++ row_text row) }
{
    out.extend_from_slice(b" row ")?;
    put_row_name(out, row)
}

/// Appends an operation of a transaction at a row.
pub fn put_place(out: &mut Vec<u8>, txn: TxnNo, op: u32, row: RowName) -> Result<(), NoMemory>
    ensures { OnOk result (out.new.items ≡ out.old.items ++ place_text txn op row) }
{
    put_txn(out, txn)?;
    out.extend_from_slice(b" op ")?;
    put_number(out, op)?;
    put_row(out, row)
}

/// Appends the code and the name of a kind of fault.
fn put_fault_kind(out: &mut Vec<u8>, code: &str, name: &str) -> Result<(), NoMemory>
    ensures { OnOk result (out.new.items ≡ out.old.items ++ (code.now ++ codes " " ++ name.now)) }
{
    out.extend_from_slice(code.as_bytes())?;
    out.extend_from_slice(b" ")?;
    out.extend_from_slice(name.as_bytes())
}

/// Appends the fault of a history, without a space before it.
pub fn put_fault(out: &mut Vec<u8>, fault: LocalFault) -> Result<(), NoMemory>
    ensures { OnOk result (out.new.items ≡ out.old.items ++ fault_text fault) }
{
    match fault.parts() {
        FaultParts::Operation { kind, txn, op, row } => {
            put_fault_kind(out, kind.code(), kind.name())?;
            put_place(out, txn, op, row)
        }
        FaultParts::Row { kind, row } => {
            put_fault_kind(out, kind.code(), kind.name())?;
            put_row(out, row)
        }
    }
}

/// Returns the printed name of a kind of dependency: `ww`, `wr`, `wr-p`, `rw` or `rw-p`.
pub fn kind_name(kind: Kind) -> &'static str
    ensures { result.now ≡ kind_name kind }
{
    match kind {
        Kind::Write => "ww",
        Kind::ItemRead => "wr",
        Kind::PredicateRead => "wr-p",
        Kind::ItemAnti => "rw",
        Kind::PredicateAnti => "rw-p",
    }
}

fn put_step(out: &mut Vec<u8>, edge: Edge) -> Result<(), NoMemory>
    ensures { OnOk result (out.new.items ≡ out.old.items ++ step_text edge) }
{
    out.extend_from_slice(b" ")?;
    out.extend_from_slice(kind_name(edge.kind).as_bytes())?;
    out.extend_from_slice(b"(")?;
    put_row_name(out, edge.row)?;
    out.extend_from_slice(b")")?;
    put_txn(out, edge.to)
}

/// Appends transactions, in their order.
pub fn put_order(out: &mut Vec<u8>, order: &[TxnNo]) -> Result<(), NoMemory>
    ensures { OnOk result (out.new.items ≡ out.old.items ++ flat_map txn_text order.now) }
{
    for txn in order {
        put_txn(out, *txn)?;
    }
    Ok(())
}

fn put_steps(out: &mut Vec<u8>, walk: &[Edge]) -> Result<(), NoMemory>
    ensures { OnOk result (out.new.items ≡ out.old.items ++ flat_map step_text walk.now) }
{
    for edge in walk {
        put_step(out, *edge)?;
    }
    Ok(())
}

/// Appends a cycle of dependencies.
pub fn put_walk(out: &mut Vec<u8>, walk: &[Edge]) -> Result<(), NoMemory>
    ensures { OnOk result (out.new.items ≡ out.old.items ++ walk_text walk.now) }
{
    if let Some(first) = walk.first() {
        put_txn(out, first.from)?;
        put_steps(out, walk)?;
    }
    Ok(())
}

fn put_span(out: &mut Vec<u8>, txn: TxnNo, start: u32, commit: u32) -> Result<(), NoMemory>
    ensures { OnOk result (out.new.items ≡ out.old.items ++ span_text (span_of (txn, start, commit))) }
{
    put_txn(out, txn)?;
    out.extend_from_slice(b" ")?;
    put_number(out, start)?;
    out.extend_from_slice(b"-")?;
    put_number(out, commit)
}

/// Appends transactions with the places of their starts and commits.
pub fn put_spans(out: &mut Vec<u8>, spans: &[(TxnNo, u32, u32)]) -> Result<(), NoMemory>
    ensures { OnOk result (out.new.items ≡ out.old.items ++ flat_map span_text (spans_of spans.now)) }
{
    for (txn, start, commit) in spans {
        put_span(out, *txn, *start, *commit)?;
    }
    Ok(())
}

fn put_point(out: &mut Vec<u8>, point: Point) -> Result<(), NoMemory>
    ensures { OnOk result (out.new.items ≡ out.old.items ++ point_text point) }
{
    match point {
        Point::Start(txn) => {
            out.extend_from_slice(b" s")?;
            put_number(out, txn.number())
        }
        Point::Commit(txn) => {
            out.extend_from_slice(b" c")?;
            put_number(out, txn.number())
        }
    }
}

fn put_points(out: &mut Vec<u8>, points: &[Point]) -> Result<(), NoMemory>
    ensures { OnOk result (out.new.items ≡ out.old.items ++ flat_map point_text points.now) }
{
    for point in points {
        put_point(out, *point)?;
    }
    Ok(())
}

/// Appends a cycle of starts and commits, each with a space before it, and the first of them again at the end.
pub fn put_circle(out: &mut Vec<u8>, circle: &[Point]) -> Result<(), NoMemory>
    ensures { OnOk result (out.new.items ≡ out.old.items ++ circle_text circle.now) }
{
    if let Some(first) = circle.first() {
        put_points(out, circle)?;
        put_point(out, *first)?;
    }
    Ok(())
}

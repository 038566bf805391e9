//! Draws the picture of a report that is already computed.

ghost use Rattle.std.specs.Prelude.{IfOk};
ghost use Rattle.lab_judge.specs.Judgement.{IsExactJudgement};
ghost use Rattle.lab_picture.specs.Drawn.{IsPictureWith};

use crate::forward::{forward_arrows, with_forward};
use crate::svg::print_drawing;
use lab_drawing::draw;
use lab_history::History;
use lab_judge::Report;
use lab_reports::Phenomenon;
use lab_table::NoMemory;
use std::alloc::Global;

/// Returns the picture of a report on a history: of its serial verdict, or of its finding about a phenomenon.
pub fn picture_with(
    alloc: Global,
    history: &History,
    report: &Report,
    asked: Option<Phenomenon>,
) -> Result<Vec<u8>, NoMemory>
    requires { IsExactJudgement history.now report.now }
    ensures { IfOk result (λ text. IsPictureWith history.now report.now asked text.items) }
{
    let forward = forward_arrows(alloc, history, report, asked)?;
    let drawing = with_forward(forward, draw(alloc, history, report, asked)?);
    print_drawing(alloc, history, &drawing)
}

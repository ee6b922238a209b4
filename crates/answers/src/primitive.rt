// `primitive`: the text of the primitive cell of a cell.

ghost use Rattle.std.specs.Prelude.{IfOk};
ghost use Rattle.crystal_spec.specs.Crystals.{Structure};
ghost use Rattle.command_words.specs.declared.command.Command.TheVariants.{Primitive};
ghost use Rattle.answers.specs.Answers.{IsAnswer};
ghost use Rattle.answers.specs.Findings.{IsReducedPrimitive};
ghost use Rattle.answers.specs.Reports.{IsReport};
ghost use Rattle.crystal.specs.Sizes.{HasSizesOfRead};

use crate::answer::{Answer, Report};
use crate::found::{kept, made_of};
use crystal::Cell;
use report_text::prim_report;
use std::alloc::{AllocError, Global};

/// The text of the primitive cell.
fn report_of_primitive(alloc: Global, made: &prim_cell::Primitive) -> Result<Report, AllocError>
    ensures { IfOk result (λ report. (c : Structure) → IsReducedPrimitive c made.now → IsReport Primitive c report.kept report.text) }
{
    let text = prim_report(alloc, made)?;
    Ok(Report {
        kept: kept(made),
        text,
    })
}

/// The primitive cell of a cell that was read, in a Niggli-reduced basis.
pub(crate) fn answer_primitive(alloc: Global, cell: &Cell) -> Result<Answer, AllocError>
    requires { HasSizesOfRead cell.now }
    ensures { IfOk result (λ answer. IsAnswer Primitive cell.now answer) }
{
    let made = made_of(alloc, cell)?;
    let report = report_of_primitive(alloc, &made)?;
    Ok(Answer::Report(report))
}

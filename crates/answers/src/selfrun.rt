// `selfrun`: the summary of the cell that a seed generates.

ghost use Rattle.std.specs.Prelude.{true, IfOk};
ghost use Rattle.generated_cell.specs.GeneratedText.{generated_text};
ghost use Rattle.cell_text.specs.CellFile.{Spells};
ghost use Rattle.crystal.specs.Sizes.{HasSizesOfRead};
ghost use Rattle.op_group.specs.Groups.{IsGroupModulo};
ghost use Rattle.mag_type.specs.MagneticTypes.{HasOnlyZeroTranslation};
ghost use Rattle.answers.specs.Answers.{IsSeedAnswer};
ghost use Rattle.answers.specs.Findings.{IsFound};
ghost use Rattle.answers.specs.SummaryReports.{IsSeedReport};

use crate::answer::{Answer, Report};
use crate::dataset::order_of;
use crate::found::{Found, found_of, kept};
use cell_text::read_cell;
use crystal::{Cell, Steps};
use generated_cell::generate;
use mag_type::classify;
use report_text::summary_report;
use std::alloc::{AllocError, Global};
use std::sync::ledger::Ledger;

/// The cell that the text of a seed spells.
fn cell_of(alloc: Global, seed: u32) -> Result<Cell, AllocError>
    ensures spelled { IfOk result (λ cell. Spells (generated_text seed) cell) }
    ensures sizes { IfOk result HasSizesOfRead }
{
    let text = generate(alloc, seed)?;
    let Ok(cell) = read_cell(alloc, &text) else {
        return Err(AllocError);
    };
    Ok(cell)
}

/// The summary of what is found of a cell: how many atoms it has, its index, its order, its type, and how many symmetry
/// operations it has itself.
fn report_of_summary(
    alloc: Global,
    seed: u32,
    cell: &Cell,
    found: &Found,
) -> Result<Report, AllocError>
    requires spelled { Spells (generated_text seed) cell.now }
    requires found { IsFound cell.now true found.now.made found.now.group }
    requires group { IsGroupModulo found.now.group.n found.now.group.operations }
    requires primitive { HasOnlyZeroTranslation found.now.group.operations }
    ensures { IfOk result (λ report. IsSeedReport seed report.kept report.text) }
{
    let order = order_of(alloc, found)?;
    let kind = classify(&found.group);
    let text = summary_report(
        alloc,
        cell.count() as u64,
        found.made.index() as u64,
        found.group.count() as u64,
        kind.kind,
        order,
    )?;
    Ok(Report {
        kept: kept(&found.made),
        text,
    })
}

/// The summary of the cell that this seed generates, with its primitive cell in a Niggli-reduced basis.
///
/// Every seed gives a text that spells a cell, so it refuses for want of memory alone.
pub fn answer_selfrun<L: Ledger>(
    alloc: Global,
    seed: u32,
    steps: &mut Steps<L>,
) -> Result<Answer, AllocError>
    ensures { IfOk result (λ answer. IsSeedAnswer seed answer) }
{
    let cell = cell_of(alloc, seed)?;
    let found = found_of(alloc, &cell, true, steps)?;
    let report = report_of_summary(alloc, seed, &cell, &found)?;
    Ok(Answer::Report(report))
}

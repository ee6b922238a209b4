// `symmetry`: the lines of the symmetry operations of a cell.

ghost use Rattle.std.specs.Prelude.{◌≡◌, ◌⊎◌, Bool, IfOk};
ghost use Rattle.crystal_spec.specs.Crystals.{Structure};
ghost use Rattle.crystal_spec.specs.Operations.{ListsAll, ListsAllSame};
ghost use Rattle.command_words.specs.declared.command.Command.TheVariants.{Symmetry};
ghost use Rattle.answers.specs.Answers.{IsAnswer};
ghost use Rattle.answers.specs.Findings.{IsFound};
ghost use Rattle.answers.specs.Reports.{IsReport};
ghost use Rattle.crystal.specs.Sizes.{HasSizesOfRead};

use crate::answer::{Answer, Report};
use crate::found::{Found, found_of};
use crystal::{Cell, Steps};
use mag_ops::in_cell;
use report_basis::Kept;
use report_text::ops_report;
use std::alloc::{AllocError, Global};
use std::sync::ledger::Ledger;

/// The same number, if there is one, in 64 bits.
fn widened(number: Option<u32>) -> Option<u64>
    ensures { result ≡ number }
{
    match number {
        Some(most) => Some(most as u64),
        None => None,
    }
}

/// The lines of a page of the symmetry operations of a cell.
///
/// They are those of its primitive cell whose matrices are of integers in the basis of the cell.
fn report_of_page(
    alloc: Global,
    found: &Found,
    skip: u32,
    take: Option<u32>,
) -> Result<Report, AllocError>
    requires group { ListsAll found.now.made.cell found.now.group.operations ⊎ ListsAllSame found.now.made.cell found.now.group.operations }
    ensures { IfOk result (λ report. (c : Structure) (time : Bool) → IsFound c time found.now.made found.now.group → IsReport (Symmetry time skip take) c report.kept report.text) }
{
    let list = in_cell(alloc, &found.made, &found.group)?;
    let most = widened(take);
    let text = ops_report(alloc, &list, skip as u64, most)?;
    Ok(Report {
        kept: Kept::NoBase,
        text,
    })
}

/// The symmetry operations of a cell that was read, in the basis of the cell: those that reverse time only where `time` is
/// set; of the list the part behind its first `skip`, and of that at most `take` where it is given.
pub(crate) fn answer_symmetry<L: Ledger>(
    alloc: Global,
    cell: &Cell,
    time: bool,
    skip: u32,
    take: Option<u32>,
    steps: &mut Steps<L>,
) -> Result<Answer, AllocError>
    requires { HasSizesOfRead cell.now }
    ensures { IfOk result (λ answer. IsAnswer (Symmetry time skip take) cell.now answer) }
{
    let found = found_of(alloc, cell, time, steps)?;
    let report = report_of_page(alloc, &found, skip, take)?;
    Ok(Answer::Report(report))
}

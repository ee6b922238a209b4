// `moments`: which moments the site of each atom allows.

ghost use Rattle.std.specs.Prelude.{true, IfOk};
ghost use Rattle.command_words.specs.declared.command.Command.TheVariants.{Moments};
ghost use Rattle.answers.specs.Answers.{IsAnswer};
ghost use Rattle.answers.specs.Findings.{IsFound};
ghost use Rattle.answers.specs.Reports.{IsReport};
ghost use Rattle.crystal.specs.Sizes.{HasSizesOfRead};

use crate::answer::{Answer, Report};
use crate::found::{Found, found_of, kept};
use crystal::{Cell, Steps};
use moments_text::moments_report;
use site_orbits::orbits;
use std::alloc::{AllocError, Global};
use std::sync::ledger::Ledger;

/// The moments that the atoms of a cell allow.
fn report_of_moments(alloc: Global, cell: &Cell, found: &Found) -> Result<Report, AllocError>
    requires { IsFound cell.now true found.now.made found.now.group }
    ensures { IfOk result (λ report. IsReport Moments cell.now report.kept report.text) }
{
    let orbit_list = orbits(alloc, cell, &found.made, &found.group)?;
    let text = moments_report(alloc, &found.made, cell, &orbit_list)?;
    Ok(Report {
        kept: kept(&found.made),
        text,
    })
}

/// The moments that the atoms of a cell that was read allow, under all symmetry operations of its primitive cell in a
/// Niggli-reduced basis.
pub(crate) fn answer_moments<L: Ledger>(
    alloc: Global,
    cell: &Cell,
    steps: &mut Steps<L>,
) -> Result<Answer, AllocError>
    requires { HasSizesOfRead cell.now }
    ensures { IfOk result (λ answer. IsAnswer Moments cell.now answer) }
{
    let found = found_of(alloc, cell, true, steps)?;
    let report = report_of_moments(alloc, cell, &found)?;
    Ok(Answer::Report(report))
}

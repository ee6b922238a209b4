// `orbits`: which atoms are symmetry-equivalent, and their site-symmetry groups.

ghost use Rattle.std.specs.Prelude.{true, IfOk};
ghost use Rattle.command_words.specs.declared.command.Command.TheVariants.{Orbits};
ghost use Rattle.answers.specs.Answers.{IsAnswer};
ghost use Rattle.answers.specs.Findings.{IsFound};
ghost use Rattle.answers.specs.Reports.{IsReport};
ghost use Rattle.crystal.specs.Sizes.{HasSizesOfRead};

use crate::answer::{Answer, Report};
use crate::found::{Found, found_of, kept};
use crystal::{Cell, Steps};
use report_text::orbit_report;
use site_orbits::orbits;
use std::alloc::{AllocError, Global};
use std::sync::ledger::Ledger;

/// The orbits of the atoms of a cell, and their site-symmetry groups.
fn report_of_orbits(alloc: Global, cell: &Cell, found: &Found) -> Result<Report, AllocError>
    requires { IsFound cell.now true found.now.made found.now.group }
    ensures { IfOk result (λ report. IsReport Orbits cell.now report.kept report.text) }
{
    let orbit_list = orbits(alloc, cell, &found.made, &found.group)?;
    let text = orbit_report(alloc, cell, &orbit_list)?;
    Ok(Report {
        kept: kept(&found.made),
        text,
    })
}

/// The orbits of the atoms of a cell that was read, under all symmetry operations of its primitive cell in a Niggli-reduced
/// basis.
pub(crate) fn answer_orbits<L: Ledger>(
    alloc: Global,
    cell: &Cell,
    steps: &mut Steps<L>,
) -> Result<Answer, AllocError>
    requires { HasSizesOfRead cell.now }
    ensures { IfOk result (λ answer. IsAnswer Orbits cell.now answer) }
{
    let found = found_of(alloc, cell, true, steps)?;
    let report = report_of_orbits(alloc, cell, &found)?;
    Ok(Answer::Report(report))
}

// `dataset`: the magnetic type, the operations of the primitive cell, and the orbits of the atoms.

ghost use Rattle.std.specs.Prelude.{true, IfOk};
ghost use Rattle.crystal_spec.specs.Crystals.{Structure};
ghost use Rattle.crystal_spec.specs.Operations.{ListsAll};
ghost use Rattle.op_group.specs.Groups.{IsGroupModulo};
ghost use Rattle.mag_type.specs.MagneticTypes.{HasOnlyZeroTranslation};
ghost use Rattle.command_words.specs.declared.command.Command.TheVariants.{Dataset};
ghost use Rattle.answers.specs.Answers.{IsAnswer};
ghost use Rattle.answers.specs.Findings.{IsFound, IsOrder};
ghost use Rattle.answers.specs.Reports.{IsReport};
ghost use Rattle.crystal.specs.Sizes.{HasSizesOfRead};

use crate::answer::{Answer, Report};
use crate::found::{Found, found_of, kept};
use crystal::{Cell, Steps};
use mag_ops::in_cell;
use mag_type::classify;
use report_text::dataset_report;
use site_orbits::orbits;
use std::alloc::{AllocError, Global};
use std::sync::ledger::Ledger;

/// How many symmetry operations the cell has, of whose primitive cell all operations were found.
pub(crate) fn order_of(alloc: Global, found: &Found) -> Result<u64, AllocError>
    requires group { ListsAll found.now.made.cell found.now.group.operations }
    ensures { IfOk result (λ order. (c : Structure) → IsFound c true found.now.made found.now.group → IsOrder c order) }
{
    let listed = in_cell(alloc, &found.made, &found.group)?;
    Ok(listed.count() as u64)
}

/// What is found of a cell: its primitive cell with all operations of that, and the magnetic type.
fn report_of_dataset(alloc: Global, cell: &Cell, found: &Found) -> Result<Report, AllocError>
    requires found { IsFound cell.now true found.now.made found.now.group }
    requires group { IsGroupModulo found.now.group.n found.now.group.operations }
    requires primitive { HasOnlyZeroTranslation found.now.group.operations }
    ensures { IfOk result (λ report. IsReport Dataset cell.now report.kept report.text) }
{
    let order = order_of(alloc, found)?;
    let kind = classify(&found.group);
    let orbit_list = orbits(alloc, cell, &found.made, &found.group)?;
    let text = dataset_report(
        alloc,
        &found.made,
        &found.group,
        order,
        &kind,
        &orbit_list,
        cell.count(),
    )?;
    Ok(Report {
        kept: kept(&found.made),
        text,
    })
}

/// What is found of a cell that was read, with its primitive cell in a Niggli-reduced basis.
pub(crate) fn answer_dataset<L: Ledger>(
    alloc: Global,
    cell: &Cell,
    steps: &mut Steps<L>,
) -> Result<Answer, AllocError>
    requires { HasSizesOfRead cell.now }
    ensures { IfOk result (λ answer. IsAnswer Dataset cell.now answer) }
{
    let found = found_of(alloc, cell, true, steps)?;
    let report = report_of_dataset(alloc, cell, &found)?;
    Ok(Answer::Report(report))
}

// `standard`: the crystal in the basis and with the origin of the first symbol of a table that has a map.

ghost use Rattle.std.specs.Prelude.{◌^◌, ◌≤◌, ◌<◌, true, length, IfOk, IfSome, IfNone};
ghost use Rattle.crystal_spec.specs.Crystals.{Structure};
ghost use Rattle.op_group.specs.Groups.{IsGroupModulo};
ghost use Rattle.mag_type.specs.MagneticTypes.{HasOnlyZeroTranslation};
ghost use Rattle.op_group.specs.Lists.{HasEntriesAtMost};
ghost use Rattle.command_words.specs.declared.command.Command.TheVariants.{Standard};
ghost use Rattle.answers.specs.Answers.{IsTableAnswer};
ghost use Rattle.answers.specs.Findings.{IsFound};
ghost use Rattle.answers.specs.Matchings.{IsMatching};
ghost use Rattle.crystal.specs.Sizes.{HasSizesOfRead};
ghost use Rattle.answers.specs.StandardReports.{AreUnmatched};

use crate::answer::{Answer, Report};
use crate::found::{Found, found_of, kept};
use crate::identify::map_of;
use crystal::{Cell, Steps};
use group_match::Map;
use hall_text::Table;
use op_group::OpList;
use standard_cell::{first_maps_can_be_taken, standard, standard_has_group_of_symbol};
use standard_text::{none_report, standard_report};
use std::alloc::{AllocError, Global};
use std::sync::ledger::Ledger;

/// A row of a table, counted from 0, and its first map.
#[derive(Clone, Copy)]
pub(crate) struct Matching {
    pub row: usize,
    pub map: Map,
}

/// The first row that has a map onto the found group, if there is one.
fn first_match(alloc: Global, table: &Table, found: &OpList) -> Result<Option<Matching>, AllocError>
    requires group { IsGroupModulo found.now.n found.now.operations }
    requires primitive { HasOnlyZeroTranslation found.now.operations }
    requires small { HasEntriesAtMost 1 found.now.operations }
    requires n { found.now.n ≤ 10 ^ 6 }
    ensures matched { IfOk result (λ m. IfSome m (IsMatching found.now.n found.now.operations table.now)) }
    ensures none { IfOk result (λ m. IfNone m (AreUnmatched found.now.n found.now.operations table.now)) }
{
    for row in 0..table.count() {
        if let Some(map) = map_of(alloc, table.symbol(row), found)? {
            return Ok(Some(Matching { row, map }));
        }
    }
    Ok(None)
}

/// The crystal in the basis of the symbol of a row, or that no cell can hold it.
fn answer_of_match(
    alloc: Global,
    found: &Found,
    table: &Table,
    matching: &Matching,
) -> Result<Answer, AllocError>
    requires matching { IsMatching found.now.group.n found.now.group.operations table.now matching.now }
    ensures { IfOk result (λ answer. (c : Structure) → IsFound c true found.now.made found.now.group → IsTableAnswer Standard c table.now answer) }
{
    first_maps_can_be_taken();
    standard_has_group_of_symbol();
    let _rows = table.count();
    match standard(alloc, &found.made, &matching.map)? {
        None => Ok(Answer::TooWide(*found.made.back())),
        Some(cell) => {
            let name = table.name(matching.row);
            let text = standard_report(alloc, matching.row + 1, name, &matching.map, &cell)?;
            Ok(Answer::Report(Report {
                kept: kept(&found.made),
                text,
            }))
        }
    }
}

/// What is answered where a row is matched or none is.
fn answer_of_matching(
    alloc: Global,
    found: &Found,
    table: &Table,
    matching: &Option<Matching>,
) -> Result<Answer, AllocError>
    requires matched { IfSome matching.now (IsMatching found.now.group.n found.now.group.operations table.now) }
    requires none { IfNone matching.now (AreUnmatched found.now.group.n found.now.group.operations table.now) }
    ensures { IfOk result (λ answer. (c : Structure) → IsFound c true found.now.made found.now.group → IsTableAnswer Standard c table.now answer) }
{
    match matching {
        Some(matching) => answer_of_match(alloc, found, table, matching),
        None => {
            let text = none_report(alloc)?;
            Ok(Answer::NoMatch(*found.made.back(), text))
        }
    }
}

/// What `standard` answers on a cell that was read and a table of symbols: the crystal in the basis and with the origin of the
/// first row that has a map onto the group of all symmetry operations of the primitive cell.
///
/// That cell is in a Niggli-reduced basis, and its Q takes coordinates of the cell that was read to those there; the row's first
/// map takes coordinates in the basis of the symbol to these. The answer is `NoMatch` where no row has a map, `TooWide` where
/// no cell can hold the crystal in that basis, and else `Report`. Refuses for want of memory alone.
pub(crate) fn answer_standard<L: Ledger>(
    alloc: Global,
    cell: &Cell,
    table: &Table,
    steps: &mut Steps<L>,
) -> Result<Answer, AllocError>
    requires { HasSizesOfRead cell.now }
    ensures { IfOk result (λ answer. IsTableAnswer Standard cell.now table.now answer) }
{
    let found = found_of(alloc, cell, true, steps)?;
    found.made.cell().invariant();
    let matching = first_match(alloc, table, &found.group)?;
    answer_of_matching(alloc, &found, table, &matching)
}

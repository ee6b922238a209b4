// `identify`: the first maps of a table's rows onto the group of a crystal.

ghost use Rattle.std.specs.Prelude.{◌≤◌, ◌^◌, true, map, IfOk, IfSome};
ghost use Rattle.crystal_spec.specs.Crystals.{Structure};
ghost use Rattle.op_group.specs.Groups.{IsGroupModulo};
ghost use Rattle.mag_type.specs.MagneticTypes.{HasOnlyZeroTranslation};
ghost use Rattle.op_group.specs.Lists.{HasEntriesAtMost};
ghost use Rattle.command_words.specs.declared.command.Command.TheVariants.{Identify};
ghost use Rattle.answers.specs.Answers.{IsTableAnswer};
ghost use Rattle.answers.specs.Findings.{IsFound};
ghost use Rattle.answers.specs.IdentifyReports.{IsRowMap, AreRowMaps};
ghost use Rattle.answers.specs.Matchings.{IsMapOfGroup};
ghost use Rattle.crystal.specs.Sizes.{HasSizesOfRead};

use crate::answer::{Answer, Report};
use crate::found::{Found, found_of, kept};
use crystal::{Cell, Steps};
use group_match::{Map, Maps, match_row};
use hall_text::{Symbol, Table, expand};
use match_text::{has_match, match_report};
use op_group::OpList;
use std::alloc::{AllocError, Global};
use std::sync::ledger::Ledger;

/// The first map of a symbol's group onto the found one, or that there is none.
///
/// A symbol of a table that was read has at most 48 different matrices, so it refuses for want of memory alone.
pub(crate) fn map_of(
    alloc: Global,
    symbol: &Symbol,
    found: &OpList,
) -> Result<Option<Map>, AllocError>
    requires group { IsGroupModulo found.now.n found.now.operations }
    requires primitive { HasOnlyZeroTranslation found.now.operations }
    requires small { HasEntriesAtMost 1 found.now.operations }
    requires n { found.now.n ≤ 10 ^ 6 }
    ensures value { IfOk result (λ m. IsRowMap found.now.n found.now.operations symbol.now m) }
    ensures group { IfOk result (λ m. IfSome m (IsMapOfGroup found.now.n found.now.operations symbol.now)) }
{
    let Ok(list) = expand(alloc, symbol) else {
        return Err(AllocError);
    };
    match_row(alloc, &list, found)
}

/// The first map of each row's group onto the found one, in order, or that there is none.
fn maps_of(alloc: Global, table: &Table, found: &OpList) -> Result<Maps, AllocError>
    requires group { IsGroupModulo found.now.n found.now.operations }
    requires primitive { HasOnlyZeroTranslation found.now.operations }
    requires small { HasEntriesAtMost 1 found.now.operations }
    requires n { found.now.n ≤ 10 ^ 6 }
    ensures { IfOk result (λ maps. AreRowMaps found.now.n found.now.operations (map (λ row. row.symbol) table.now) maps) }
{
    let mut maps = Maps::new(alloc);
    for i in 0..table.count() {
        maps.push(map_of(alloc, table.symbol(i), found)?)?;
    }
    Ok(maps)
}

/// The report of the maps, told apart by whether a row has one.
fn answer_of_maps(
    alloc: Global,
    table: &Table,
    found: &Found,
    maps: &Maps,
) -> Result<Answer, AllocError>
    requires { AreRowMaps found.now.group.n found.now.group.operations (map (λ row. row.symbol) table.now) maps.now }
    ensures { IfOk result (λ answer. (c : Structure) → IsFound c true found.now.made found.now.group → IsTableAnswer Identify c table.now answer) }
{
    let text = match_report(alloc, found.made.back(), table, maps)?;
    if !has_match(maps) {
        return Ok(Answer::NoMatch(*found.made.back(), text));
    }
    Ok(Answer::Report(Report {
        kept: kept(&found.made),
        text,
    }))
}

/// What `identify` answers on a cell that was read and a table of symbols: for each row the first map that carries the group
/// of its symbol onto the group of all symmetry operations of the primitive cell.
///
/// That cell is in a Niggli-reduced basis, of which the report speaks, and its Q takes coordinates of the cell that was read to
/// those there; a map takes coordinates in the basis of the symbol to these. The answer is `NoMatch` where no row has a map, and
/// else `Report`. Refuses for want of memory alone.
pub(crate) fn answer_identify<L: Ledger>(
    alloc: Global,
    cell: &Cell,
    table: &Table,
    steps: &mut Steps<L>,
) -> Result<Answer, AllocError>
    requires { HasSizesOfRead cell.now }
    ensures { IfOk result (λ answer. IsTableAnswer Identify cell.now table.now answer) }
{
    let found = found_of(alloc, cell, true, steps)?;
    found.made.cell().invariant();
    let maps = maps_of(alloc, table, &found.group)?;
    answer_of_maps(alloc, table, &found, &maps)
}

// `compare`: all maps between two crystals.

ghost use Rattle.std.specs.Prelude.{IfOk};
ghost use Rattle.crystal_spec.specs.Crystals.{Structure};
ghost use Rattle.answers.specs.Answers.{IsCompareAnswer};
ghost use Rattle.answers.specs.Findings.{IsReducedPrimitive};
ghost use Rattle.crystal.specs.Sizes.{HasSizesOfRead};

use crate::answer::{Answer, Report};
use crate::found::made_of;
use compare_text::compare_report;
use crystal::Cell;
use crystal_compare::all_maps;
use prim_cell::Primitive;
use report_basis::Kept;
use std::alloc::{AllocError, Global};

/// The maps between two primitive cells, told apart by whether there is one.
fn answer_of_cells(alloc: Global, one: &Primitive, other: &Primitive) -> Result<Answer, AllocError>
    ensures { IfOk result (λ answer. (c c' : Structure) → IsReducedPrimitive c one.now → IsReducedPrimitive c' other.now → IsCompareAnswer c c' answer) }
{
    let maps = all_maps(alloc, one, other)?;
    let text = compare_report(alloc, one, other, &maps)?;
    if maps.count() == 0 {
        return Ok(Answer::Different(*one.back(), *other.back(), text));
    }
    Ok(Answer::Report(Report {
        kept: Kept::Two(*one.back(), *other.back()),
        text,
    }))
}

/// What `compare` answers on two cells that were read: all maps that carry the crystal of the one onto that of the other.
///
/// They are maps between the primitive cells in Niggli-reduced bases, and the two matrices take coordinates of the cells that
/// were read to those there. The answer is `Different` where there is no map, and else `Report`. Refuses for want of memory
/// alone.
pub fn answer_compare(alloc: Global, cell: &Cell, other: &Cell) -> Result<Answer, AllocError>
    requires one { HasSizesOfRead cell.now }
    requires other { HasSizesOfRead other.now }
    ensures { IfOk result (λ answer. IsCompareAnswer cell.now other.now answer) }
{
    let first = made_of(alloc, cell)?;
    let second = made_of(alloc, other)?;
    answer_of_cells(alloc, &first, &second)
}

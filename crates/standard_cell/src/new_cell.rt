// The standard cell.

ghost use Rattle.std.specs.Prelude.{◌≡◌, IfOk, IfSome, IfNone};
ghost use Rattle.exact_num.specs.Meanings.{fraction_of};
ghost use Rattle.matrix3.specs.Matrices.{vector_map};
ghost use Rattle.crystal_spec.specs.Crystals.{Structure};
ghost use Rattle.match_spec.specs.Fractions.{point_of};
ghost use Rattle.standard_cell.specs.Conditions.{CanTake};
ghost use Rattle.standard_cell.specs.StandardCells.{IsStandard, IsWithinLimits};
ghost use Rattle.standard_cell.specs.Crystals.{SameAt};
ghost use Rattle.standard_cell.specs.Frames.{IsFrame, origin_of};

use crate::atoms::standard_atoms;
use crate::frame::{Frame, frame_of};
use crate::limits::{has_room, units_of};
use crate::made::cell_of;
use crate::origin::common_origin;
use crystal::Cell;
use group_match::Map;
use prim_cell::Primitive;
use std::alloc::{AllocError, Global};

/// The cell in a new basis and with a new origin, or `None` where no cell can hold it.
fn cell_in_frame(alloc: Global, frame: &Frame, cell: &Cell) -> Result<Option<Cell>, AllocError>
    requires frame { IsFrame frame.now }
    requires n { frame.now.n ≡ cell.now.n }
    ensures value { IfOk result (λ r. IfSome r (λ made. IsStandard cell.now frame.now.turn (origin_of frame.now) made)) }
    ensures fits { IfOk result (λ r. IfSome r IsWithinLimits) }
    ensures too_wide { IfOk result (λ r. IfNone r ((s : Structure) → IsStandard cell.now frame.now.turn (origin_of frame.now) s → IsWithinLimits s → ⊥)) }
{
    cell.invariant();
    let units = units_of(frame, cell);
    if !has_room(frame, cell, &units) {
        return Ok(None);
    }
    let atoms = standard_atoms(alloc, frame, cell, &units)?;
    let made = cell_of(alloc, cell, &units, &atoms)?;
    Ok(Some(made))
}

/// The crystal of a primitive cell in the basis Q and with the origin shift p of a map, or `None` where no cell can hold it.
///
/// The metric tensor is QᵀGQ. The atoms are at the places x, each coordinate at least 0 and below 1, for which Q x + p is the
/// position of an atom; they are ordered by the atom of the primitive cell to which they belong, then by x. Positions are in
/// units of 1/n with the least n, moments of vectors in units of 1 / (k det(Q)), those of scalars in units of 1/k. `None`
/// comes exactly where there are more than 1,024 atoms, n or k passes 10^6, an entry of the metric tensor 10^16 in size, or a
/// component of a moment 2 · 10^27 in size. Asks that Q has entries of size up to 5184 and a determinant from 1 to 1728, and
/// that each coordinate of p is at least 0 and below 1, as each map of `match_row` has. Refuses for want of memory alone.
pub fn standard(alloc: Global, prim: &Primitive, map: &Map) -> Result<Option<Cell>, AllocError>
    requires map { CanTake map.now.turn (point_of (vector_map fraction_of map.now.origin)) }
    ensures value { IfOk result (λ r. IfSome r (λ made. IsStandard prim.now.cell map.now.turn (point_of (vector_map fraction_of map.now.origin)) made)) }
    ensures same { IfOk result (λ r. IfSome r (λ made. SameAt made prim.now.cell map.now.turn (point_of (vector_map fraction_of map.now.origin)))) }
    ensures fits { IfOk result (λ r. IfSome r IsWithinLimits) }
    ensures too_wide { IfOk result (λ r. IfNone r ((s : Structure) → IsStandard prim.now.cell map.now.turn (point_of (vector_map fraction_of map.now.origin)) s → IsWithinLimits s → ⊥)) }
{
    let cell = prim.cell();
    cell.invariant();
    let Some(origin) = common_origin(&map.origin) else {
        return Ok(None);
    };
    let frame = frame_of(cell.n(), &map.turn, &origin);
    cell_in_frame(alloc, &frame, cell)
}

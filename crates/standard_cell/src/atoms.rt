// The atoms of the standard cell: for each atom of the primitive cell those that it has in the new basis.

ghost use Rattle.std.specs.Prelude.{◌≡◌, ◌*◌, ◌^◌, ◌<◌, ◌≤ℤ◌, pos, length, map, slice_get, Some, unsigned_abs, IfOk};
ghost use Rattle.crystal_spec.specs.Crystals.{Atom as ViewedAtom};
ghost use Rattle.crystal.specs.Views.{atom_of};
ghost use Rattle.standard_cell.specs.StandardCells.{AreBlocks};
ghost use Rattle.standard_cell.specs.Frames.{IsFrame, origin_of, IsCopies, AreCopiesOf};
ghost use Rattle.standard_cell.specs.Rooms.{AreUnits};

use crate::copies::{Copies, add_copies};
use crate::frame::{Frame, goal, source, step};
use crate::limits::Units;
use crystal::{Atom, Cell, turn_matrix};
use std::alloc::{AllocError, Global};

/// What is told of the atoms that the atom number i has in the new basis.
fn copies_of(frame: &Frame, cell: &Cell, i: usize, units: &Units) -> Copies
    requires frame { IsFrame frame.now }
    requires n { frame.now.n ≡ cell.now.n }
    requires units { AreUnits cell.now frame.now.turn (origin_of frame.now) units.now }
    requires few { units.now.n ≤ℤ pos (10 ^ 6) }
    requires i { i < length cell.now.atoms }
    ensures copies { IsCopies frame.now result }
    ensures of_atom { (a : ViewedAtom) → slice_get cell.now.atoms i ≡ Some a → AreCopiesOf cell.now frame.now result a (unsigned_abs units.now.n) }
{
    let atom = cell.atom(i);
    let goal = goal(frame, atom.place);
    Copies {
        start: source(frame, &goal).remainders(step(frame)),
        goal,
        species: atom.species,
        moment: turn_matrix(cell.kind(), &frame.back).apply(&atom.moment),
        divisor: units.divisor,
    }
}

/// The atoms of the standard cell, ordered by the atom of the primitive cell to which they belong, then by their places.
///
/// Refuses for want of memory alone.
pub(crate) fn standard_atoms(
    alloc: Global,
    frame: &Frame,
    cell: &Cell,
    units: &Units,
) -> Result<Vec<Atom>, AllocError>
    requires frame { IsFrame frame.now }
    requires n { frame.now.n ≡ cell.now.n }
    requires units { AreUnits cell.now frame.now.turn (origin_of frame.now) units.now }
    requires few { units.now.n ≤ℤ pos (10 ^ 6) }
    ensures { IfOk result (λ made. AreBlocks cell.now frame.now.turn (origin_of frame.now) (unsigned_abs units.now.n) cell.now.atoms (map atom_of made.items)) }
{
    let mut made = Vec::new(alloc);
    for i in 0..cell.count() {
        add_copies(&mut made, frame, &copies_of(frame, cell, i, units))?;
    }
    Ok(made)
}

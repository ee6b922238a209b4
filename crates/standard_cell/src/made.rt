// A cell made of names and atoms.

ghost use Rattle.std.specs.Prelude.{◌≡◌, ◌^◌, ◌≤◌, pos, ◌≤ℤ◌, length, map, slice_get, Some, take, unsigned_abs, IfOk, OnOk};
ghost use Rattle.lists.specs.Increasing.{IsDistinct};
ghost use Rattle.crystal_spec.specs.Crystals.{Atom as ViewedAtom, IsPositive};
ghost use Rattle.crystal.specs.Views.{metric_of, atom_of};
ghost use Rattle.matrix3.specs.Bounds.{EntriesAtMost};
ghost use Rattle.crystal.specs.Cells.{AreCellAtoms, AreApart};

use crate::integers::natural;
use crate::limits::Units;
use crystal::{Atom, Cell, MOST_ATOMS, MOST_NAMES};
use std::alloc::{AllocError, Global};

/// Adds atoms, of which the first is there.
///
/// Refuses for want of memory alone.
fn add_atoms(made: &mut Cell, atoms: &[Atom]) -> Result<(), AllocError>
    requires first { made.old.atoms ≡ take 1 (map atom_of atoms.now) }
    requires atoms { AreCellAtoms (length made.old.names) made.old.n made.old.kind (map atom_of atoms.now) }
    requires apart { AreApart (map atom_of atoms.now) }
    requires few { length (map atom_of atoms.now) ≤ MOST_ATOMS }
    ensures { OnOk result (made.new ≡ record made.old { atoms = map atom_of atoms.now }) }
{
    for i in 1..atoms.len() {
        made.add(atoms[i])?;
    }
    Ok(())
}

/// A cell of these atoms in these units, with the names, the scale and the kind of moments of another.
///
/// Refuses for want of memory alone.
pub(crate) fn cell_of(
    alloc: Global,
    cell: &Cell,
    units: &Units,
    atoms: &[Atom],
) -> Result<Cell, AllocError>
    requires n_at_least { pos 1 ≤ℤ units.now.n }
    requires n_at_most { units.now.n ≤ℤ pos (10 ^ 6) }
    requires k_at_least { 1 ≤ units.now.k }
    requires k_at_most { units.now.k ≤ 10 ^ 6 }
    requires positive { IsPositive (metric_of units.now.metric) }
    requires entries { EntriesAtMost (10 ^ 16) (metric_of units.now.metric) }
    requires some { 1 ≤ length (map atom_of atoms.now) }
    requires few { length (map atom_of atoms.now) ≤ MOST_ATOMS }
    requires first { (atom : ViewedAtom) → slice_get (map atom_of atoms.now) 0 ≡ Some atom → atom.species ≡ 0 }
    requires atoms { AreCellAtoms (length cell.now.names) (unsigned_abs units.now.n) cell.now.kind (map atom_of atoms.now) }
    requires apart { AreApart (map atom_of atoms.now) }
    ensures { IfOk result (λ made. made ≡ record { names = cell.now.names; scale = cell.now.scale; metric = metric_of units.now.metric; n = unsigned_abs units.now.n; k = units.now.k; kind = cell.now.kind; atoms = map atom_of atoms.now }) }
{
    cell.invariant();
    let n = natural(units.n);
    let name = cell.name(0).copied();
    let mut made = Cell::build(
        alloc,
        cell.scale(),
        units.metric,
        n,
        units.k,
        cell.kind(),
        name,
        atoms[0],
    )?;
    made.add_names_of(cell)?;
    add_atoms(&mut made, atoms)?;
    Ok(made)
}

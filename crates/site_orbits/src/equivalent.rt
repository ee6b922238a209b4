// Which atoms of a cell are symmetry-equivalent.

ghost use Rattle.std.specs.Prelude.{◌≡◌, ◌<◌, length, IfOk};
ghost use Rattle.crystal_spec.specs.Operations.{ListsAll};
ghost use Rattle.basis_spec.specs.Bases.{cell_in_basis, IsPrimitiveIn};
ghost use Rattle.site_orbits.specs.Orbits.{IsAlike, IsEquivalence, HasOneSpecies};
ghost use Rattle.site_orbits.specs.Entries.{IsOrbitAt, HaveOrbits, AreFirstsBelow};

use crate::atom_orbits::{Entry, Orbits};
use crate::images::{count_among, first_among, fixing, images};
use crystal::Cell;
use op_group::OpList;
use positions::MatrixModulo;
use prim_cell::Primitive;
use std::alloc::{AllocError, Global};

/// The orbit of the atom number i.
fn orbit_of(
    alloc: Global,
    cell: &Cell,
    prim: &Primitive,
    list: &OpList,
    i: usize,
) -> Result<Entry, AllocError>
    requires primitive { IsPrimitiveIn cell.now prim.now.back }
    requires same_cell { cell_in_basis cell.now prim.now.back ≡ prim.now.cell }
    requires n { list.now.n ≡ prim.now.cell.n }
    requires group { ListsAll prim.now.cell list.now.operations }
    requires below { i < length cell.now.atoms }
    ensures { IfOk result (λ orbit. IsOrbitAt cell.now prim.now.back prim.now.cell list.now.operations i orbit) }
{
    prim.invariant();
    cell.invariant();
    prim.cell().invariant();
    let place = MatrixModulo::new(prim.back(), cell.n()).image(cell.atom(i).place);
    let images = images(alloc, list, place)?;
    let first = first_among(cell, prim.back(), &images, i);
    let size = count_among(prim.cell(), &images);
    let site = fixing(alloc, list, place)?;
    Ok(Entry::new(first, size, site))
}

/// The orbits of the atoms of a cell under all operations of its primitive cell.
///
/// It is given the cell, its primitive cell, and all operations of that, each in order; n is one for all. Site-symmetry groups
/// are in the basis of the primitive cell, their translation parts in units of 1/n. Refuses for want of memory alone.
pub fn orbits(
    alloc: Global,
    cell: &Cell,
    prim: &Primitive,
    list: &OpList,
) -> Result<Orbits, AllocError>
    requires primitive { IsPrimitiveIn cell.now prim.now.back }
    requires same_cell { cell_in_basis cell.now prim.now.back ≡ prim.now.cell }
    requires n { list.now.n ≡ prim.now.cell.n }
    requires group { ListsAll prim.now.cell list.now.operations }
    ensures count { IfOk result (λ found. length found ≡ length cell.now.atoms) }
    ensures firsts { IfOk result (λ found. AreFirstsBelow found) }
    ensures exact { IfOk result (λ found. HaveOrbits cell.now prim.now.back prim.now.cell list.now.operations found) }
    ensures equivalence { IsEquivalence (IsAlike cell.now.n list.now.operations) }
    ensures one_species { HasOneSpecies cell.now prim.now.back (IsAlike cell.now.n list.now.operations) }
{
    prim.cell().invariant();
    let mut entries = Vec::new(alloc);
    for i in 0..cell.count() {
        entries.push(orbit_of(alloc, cell, prim, list, i)?)?;
    }
    Ok(Orbits::new(entries))
}

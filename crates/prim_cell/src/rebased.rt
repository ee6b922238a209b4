// The cell of a crystal in another basis.

ghost use Rattle.std.specs.Prelude.{◌≡◌, ◌↔◌, ◌<◌, ◌≤◌, ◌*◌, ◌^◌, ◌≤ℤ◌, ◌*ℤ◌, pos, [], ◌∷◌, ◌++◌, List, length, map, take, IfOk, OnOk, IsTrue};
ghost use Rattle.std.specs.Int.{int_rem_euclid};
ghost use Rattle.ring.specs.Size.{AtMost};
ghost use Rattle.crystal_spec.specs.Matrices.{determinant, adjugate, image};
ghost use Rattle.crystal_spec.specs.Crystals.{Atom as ViewedAtom, IsPositive};
ghost use Rattle.crystal.specs.Views.{metric_of, atom_of};
ghost use Rattle.matrix3.specs.Bounds.{EntriesAtMost, CoordinatesAtMost};
ghost use Rattle.crystal.specs.Cells.{IsCellAtom};
ghost use Rattle.crystal.specs.Occupants.{NoneAt};
ghost use Rattle.positions.specs.Positions.{modulo, triple_of};
ghost use Rattle.basis_spec.specs.Metrics.{metric_in};
ghost use Rattle.basis_spec.specs.Bases.{cell_in_basis, first_at_each_position, in_basis};
ghost use Rattle.crystal.specs.Sizes.{HasMomentsAtMost};
ghost use Rattle.prim_cell.specs.Rebasing.{with_atoms, started};

use crystal::{Atom, Cell, MOST_ATOMS, Metric, MomentKind, turn_matrix};
use exact_num::Int;
use matrix3::Mat3;
use positions::MatrixModulo;
use std::alloc::{AllocError, Global};

/// An atom with a moment of this kind in the basis to which Q takes coordinates, brought into the cell.
fn atom_in_basis(r: &MatrixModulo, kind: MomentKind, atom: &Atom) -> Atom
    requires basis { EntriesAtMost 50000000 r.now.matrix }
    requires moment { CoordinatesAtMost (10 ^ 9) atom.now.moment }
    ensures value { atom_of result ≡ in_basis r.now.modulus kind r.now.matrix (atom_of atom.now) }
    ensures moment { CoordinatesAtMost (2 * 10 ^ 27) result.moment }
{
    Atom {
        species: atom.species,
        place: r.image(atom.place),
        moment: turn_matrix(kind, r.matrix()).apply(&atom.moment),
    }
}

/// Adds the atom, unless one is at its position.
fn put(made: &mut Cell, atom: Atom) -> Result<(), AllocError>
    requires atom { IsCellAtom (length made.old.names) made.old.n made.old.kind (atom_of atom) }
    requires fewer { length made.old.atoms < MOST_ATOMS }
    ensures { OnOk result ((atoms : List ViewedAtom) → made.old.atoms ≡ first_at_each_position atoms → made.new ≡ record made.old { atoms = first_at_each_position (atoms ++ atom_of atom ∷ []) }) }
{
    if made.is_free(atom.place) {
        made.add(atom)?;
    }
    Ok(())
}

/// Adds the atoms of a cell in another basis, of which the first is there, each unless one is at its position.
///
/// Refuses for want of memory alone.
fn add_atoms(made: &mut Cell, cell: &Cell, r: &Mat3<Int>) -> Result<(), AllocError>
    requires basis { EntriesAtMost 50000000 r.now }
    requires moments { HasMomentsAtMost (10 ^ 9) cell.now }
    requires n { made.old.n ≡ cell.now.n }
    requires kind { made.old.kind ≡ cell.now.kind }
    requires names { made.old.names ≡ cell.now.names }
    requires first { made.old.atoms ≡ first_at_each_position (map (in_basis cell.now.n cell.now.kind r.now) (take 1 cell.now.atoms)) }
    ensures { OnOk result (made.new ≡ with_atoms made.old cell.now r.now cell.now.atoms) }
{
    cell.invariant();
    let basis = MatrixModulo::new(r, cell.n());
    let kind = cell.kind();
    for i in 1..cell.count() {
        put(made, atom_in_basis(&basis, kind, cell.atom(i)))?;
    }
    Ok(())
}

/// The cell in another basis with the first name and the first atom alone.
fn first_in_basis(
    alloc: Global,
    cell: &Cell,
    r: &Mat3<Int>,
    index: u32,
    metric: Metric,
) -> Result<Cell, AllocError>
    requires index { pos index ≡ determinant r.now }
    requires at_least { 1 ≤ index }
    requires at_most { index ≤ MOST_ATOMS }
    requires basis { EntriesAtMost 50000000 r.now }
    requires metric { metric_of metric ≡ metric_in (adjugate r.now) cell.now.metric }
    requires positive { IsPositive (metric_of metric) }
    requires entries { EntriesAtMost (10 ^ 16) (metric_of metric) }
    requires scale { cell.now.scale ≤ℤ pos (10 ^ 9) }
    requires moments { HasMomentsAtMost (10 ^ 9) cell.now }
    ensures { IfOk result (λ made. made ≡ started cell.now r.now) }
{
    cell.invariant();
    let scale = Int::from(index) * Int::from(index) * cell.scale();
    let kind = cell.kind();
    let basis = MatrixModulo::new(r, cell.n());
    let first = atom_in_basis(&basis, kind, cell.atom(0));
    let name = cell.name(0).copied();
    let made = Cell::build(alloc, scale, metric, cell.n(), cell.k(), kind, name, first)?;
    Ok(made)
}

/// The cell in the basis to which Q takes coordinates, of determinant `index`, with its metric tensor there.
///
/// Of atoms at one position in it the first is kept. Refuses for want of memory alone.
pub(crate) fn rebased(
    alloc: Global,
    cell: &Cell,
    r: &Mat3<Int>,
    index: u32,
    metric: Metric,
) -> Result<Cell, AllocError>
    requires index { pos index ≡ determinant r.now }
    requires at_least { 1 ≤ index }
    requires at_most { index ≤ MOST_ATOMS }
    requires basis { EntriesAtMost 50000000 r.now }
    requires metric { metric_of metric ≡ metric_in (adjugate r.now) cell.now.metric }
    requires positive { IsPositive (metric_of metric) }
    requires entries { EntriesAtMost (10 ^ 16) (metric_of metric) }
    requires scale { cell.now.scale ≤ℤ pos (10 ^ 9) }
    requires moments { HasMomentsAtMost (10 ^ 9) cell.now }
    ensures { IfOk result (λ made. made ≡ cell_in_basis cell.now r.now) }
{
    cell.invariant();
    let mut made = first_in_basis(alloc, cell, r, index, metric)?;
    made.add_names_of(cell)?;
    add_atoms(&mut made, cell, r)?;
    Ok(made)
}

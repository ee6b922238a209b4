// Cells that are filled with a moment and with those to which operations carry it.

ghost use Rattle.std.specs.Prelude.{◌≡◌, ◌↔◌, ◌<◌, ◌≤◌, ◌*◌, ◌^◌, ◌*ℤ◌, pos, length, take, IsTrue, IsSome, IfOk, IfSome, IfNone, OnOk};
ghost use Rattle.lists.specs.Increasing.{IsDistinct};
ghost use Rattle.crystal_spec.specs.Matrices.{determinant};
ghost use Rattle.crystal_spec.specs.Moments.{IsOfKind};
ghost use Rattle.crystal_spec.specs.Crystals.{moment_after};
ghost use Rattle.crystal_spec.specs.Operations.{ListsAll, IsWithinCell, sign_factor};
ghost use Rattle.crystal.specs.Views.{atom_of};
ghost use Rattle.positions.specs.Positions.{triple_of};
ghost use Rattle.matrix3.specs.Bounds.{EntriesAtMost, CoordinatesAtMost};
ghost use Rattle.crystal.specs.Cells.{IsCellAtom};
ghost use Rattle.basis_spec.specs.Bases.{cell_in_basis, IsPrimitiveIn};
ghost use Rattle.op_group.specs.Views.{operation_of};
ghost use Rattle.site_orbits.specs.Orbits.{Carries, IsAlike};
ghost use Rattle.moment_space.specs.Projectors.{IsAllowed};
ghost use Rattle.op_group.specs.Lists.{HasEntriesAtMost};
ghost use Rattle.moment_space.specs.Filled.{IsSiteAt, IsFilledAt, HasOneMomentAt, AllowsOwnMoment, IsKeptBy};
ghost use Rattle.moment_space.specs.Replacements.{HasUnitDeterminants, IsCarriedMoment, ReplacesAt, AreReplaced, HasReplaced, started};

use crate::average::projector;
use crystal::{Atom, Cell, MOST_NAMES, MomentKind, moment_matrix};
use exact_num::Int;
use matrix3::Vec3;
use op_group::{Op, OpList};
use positions::MatrixModulo;
use prim_cell::Primitive;
use std::alloc::{AllocError, Global};

/// Whether two translation parts are one.
fn is_same(a: [u32; 3], b: [u32; 3]) -> bool
    ensures { IsTrue result ↔ (triple_of a ≡ triple_of b) }
{
    a == b
}

/// Whether the operation carries the one position to the other, but for whole cells.
fn carries(op: &Op, from: [u32; 3], onto: [u32; 3], n: u32) -> bool
    requires within { IsWithinCell n (triple_of op.now.shift) }
    requires at_least { 1 ≤ n }
    requires at_most { n ≤ 10 ^ 6 }
    ensures { IsTrue result ↔ Carries n (operation_of op.now) (triple_of from) (triple_of onto) }
{
    is_same(
        op.shift,
        MatrixModulo::new(&op.w, n).translation_onto(from, onto),
    )
}

/// The moment to which the operation carries a moment of this kind.
fn carried(kind: MomentKind, op: &Op, m: &Vec3<Int>) -> Vec3<Int>
    requires small { EntriesAtMost 1 op.now.w }
    requires isometry { determinant op.now.w *ℤ determinant op.now.w ≡ pos 1 }
    requires moment { CoordinatesAtMost (10 ^ 15) m.now }
    ensures value { result ≡ moment_after kind op.now.w (sign_factor op.now.sign) m.now }
    ensures size { CoordinatesAtMost (2 * 10 ^ 27) result }
{
    moment_matrix(kind, &op.w, op.sign).apply(m)
}

/// The moment to which the first operation of the list that carries the one position to the other carries a moment, or `None`
/// where no operation does so.
fn carried_moment(
    list: &OpList,
    kind: MomentKind,
    from: [u32; 3],
    m: &Vec3<Int>,
    onto: [u32; 3],
) -> Option<Vec3<Int>>
    requires small { HasEntriesAtMost 1 list.now.operations }
    requires units { HasUnitDeterminants list.now.operations }
    requires at_least { 1 ≤ list.now.n }
    requires at_most { list.now.n ≤ 10 ^ 6 }
    requires moment { CoordinatesAtMost (10 ^ 15) m.now }
    ensures found { IfSome result (IsCarriedMoment kind list.now.n list.now.operations (triple_of from) m.now (triple_of onto)) }
    ensures size { IfSome result (CoordinatesAtMost (2 * 10 ^ 27)) }
    ensures absent { IfNone result (IsAlike list.now.n list.now.operations (triple_of from) (triple_of onto) → ⊥) }
{
    let n = list.n();
    for i in 0..list.count() {
        let op = list.at(i);
        if carries(op, from, onto, n) {
            return Some(carried(kind, op, m));
        }
    }
    None
}

/// The atom number i of the cell, with the moment to which the first operation of the list that carries the position to that of
/// the atom carries a moment. Where no operation does so, the atom keeps its own.
fn replaced(cell: &Cell, i: usize, list: &OpList, from: [u32; 3], m: &Vec3<Int>) -> Atom
    requires below { i < length cell.now.atoms }
    requires small { HasEntriesAtMost 1 list.now.operations }
    requires units { HasUnitDeterminants list.now.operations }
    requires at_least { 1 ≤ list.now.n }
    requires at_most { list.now.n ≤ 10 ^ 6 }
    requires moment { CoordinatesAtMost (10 ^ 15) m.now }
    requires of_kind { IsOfKind cell.now.kind m.now }
    ensures value { ReplacesAt cell.now.kind list.now.n list.now.operations (triple_of from) m.now cell.now.atoms i (atom_of result) }
    ensures atom { IsCellAtom (length cell.now.names) cell.now.n cell.now.kind (atom_of result) }
{
    let atom = cell.atom(i);
    match carried_moment(list, cell.kind(), from, m, atom.place) {
        Some(moment) => Atom {
            species: atom.species,
            place: atom.place,
            moment,
        },
        None => *atom,
    }
}

/// The cell with the first of its names and this atom alone.
///
/// Refuses for want of memory alone.
fn started(alloc: Global, cell: &Cell, first: Atom) -> Result<Cell, AllocError>
    requires species { first.species ≡ 0 }
    requires atom { IsCellAtom (length cell.now.names) cell.now.n cell.now.kind (atom_of first) }
    ensures { IfOk result (λ made. made ≡ started cell.now (atom_of first)) }
{
    cell.invariant();
    let name = cell.name(0).copied();
    let made = Cell::build(
        alloc,
        cell.scale(),
        *cell.metric(),
        cell.n(),
        cell.k(),
        cell.kind(),
        name,
        first,
    )?;
    Ok(made)
}

/// Adds the atoms of a cell, of which the first is there, each with the moment that it gets.
///
/// Refuses for want of memory alone.
fn add_atoms(
    made: &mut Cell,
    cell: &Cell,
    list: &OpList,
    from: [u32; 3],
    m: &Vec3<Int>,
) -> Result<(), AllocError>
    requires small { HasEntriesAtMost 1 list.now.operations }
    requires units { HasUnitDeterminants list.now.operations }
    requires at_least { 1 ≤ list.now.n }
    requires at_most { list.now.n ≤ 10 ^ 6 }
    requires moment { CoordinatesAtMost (10 ^ 15) m.now }
    requires of_kind { IsOfKind cell.now.kind m.now }
    requires n { made.old.n ≡ cell.now.n }
    requires kind { made.old.kind ≡ cell.now.kind }
    requires names { made.old.names ≡ cell.now.names }
    requires first { AreReplaced cell.now.kind list.now.n list.now.operations (triple_of from) m.now (take 1 cell.now.atoms) made.old.atoms }
    ensures { OnOk result (HasReplaced cell.now.kind list.now.n list.now.operations (triple_of from) m.now cell.now.atoms made.old made.new) }
{
    for i in 1..cell.count() {
        made.add(replaced(cell, i, list, from, m))?;
    }
    Ok(())
}

/// The cell with the moment at a position, and with the moments to which the operations of the list carry it where they carry
/// the position.
///
/// Refuses for want of memory alone.
fn filled(
    alloc: Global,
    cell: &Cell,
    list: &OpList,
    from: [u32; 3],
    m: &Vec3<Int>,
) -> Result<Cell, AllocError>
    requires small { HasEntriesAtMost 1 list.now.operations }
    requires units { HasUnitDeterminants list.now.operations }
    requires at_least { 1 ≤ list.now.n }
    requires at_most { list.now.n ≤ 10 ^ 6 }
    requires moment { CoordinatesAtMost (10 ^ 15) m.now }
    requires of_kind { IsOfKind cell.now.kind m.now }
    ensures { IfOk result (HasReplaced cell.now.kind list.now.n list.now.operations (triple_of from) m.now cell.now.atoms cell.now) }
{
    cell.invariant();
    let first = replaced(cell, 0, list, from, m);
    let mut made = started(alloc, cell, first)?;
    made.add_names_of(cell)?;
    add_atoms(&mut made, cell, list, from, m)?;
    Ok(made)
}

/// The primitive cell of a cell with a moment at the position of an atom, and with the moments to which all operations of the
/// primitive cell carry it, or `None` where the site of the atom does not allow the moment.
///
/// It is given the cell, its primitive cell, all operations of that, the number of an atom of the cell, from 0, and the
/// site-symmetry group of the atom, with translation parts in units of 1/n; n is one for all. The moment is in units of 1/k
/// along the axes of the primitive cell, with components of size up to 10^15, and that of a scalar is (s, 0, 0). Refuses for
/// want of memory alone.
pub fn fill(
    alloc: Global,
    cell: &Cell,
    prim: &Primitive,
    list: &OpList,
    site: &OpList,
    atom: usize,
    m: &Vec3<Int>,
) -> Result<Option<Cell>, AllocError>
    requires primitive { IsPrimitiveIn cell.now prim.now.back }
    requires same_cell { cell_in_basis cell.now prim.now.back ≡ prim.now.cell }
    requires n { list.now.n ≡ prim.now.cell.n }
    requires group { ListsAll prim.now.cell list.now.operations }
    requires below { atom < length cell.now.atoms }
    requires site_n { site.now.n ≡ prim.now.cell.n }
    requires site { IsSiteAt cell.now prim.now.back prim.now.cell list.now.operations atom site.now.operations }
    requires size { CoordinatesAtMost (10 ^ 15) m.now }
    requires of_kind { IsOfKind cell.now.kind m.now }
    ensures exact { IfOk result (λ filled. IsSome filled ↔ IsAllowed cell.now.kind site.now.operations m.now) }
    ensures value { IfOk result (λ filled. IfSome filled (IsFilledAt cell.now prim.now.back prim.now.cell list.now.operations atom m.now)) }
    ensures kept { IfOk result (λ filled. IfSome filled (IsKeptBy list.now.operations)) }
    ensures one_moment { HasOneMomentAt cell.now prim.now.back prim.now.cell list.now.operations atom site.now.operations }
    ensures own_moment { AllowsOwnMoment cell.now prim.now.back atom site.now.operations }
{
    prim.invariant();
    cell.invariant();
    prim.cell().invariant();
    list.invariant();
    if !projector(site, cell.kind()).allows(m) {
        return Ok(None);
    }
    let place = MatrixModulo::new(prim.back(), cell.n()).image(cell.atom(atom).place);
    let made = filled(alloc, prim.cell(), list, place, m)?;
    made.invariant();
    Ok(Some(made))
}

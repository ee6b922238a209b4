// The search for all maps between two cells.

ghost use Rattle.std.specs.Prelude.{◌≡◌, ◌↔◌, ◌⊎◌, ◌<◌, ◌≤◌, ◌*◌, ◌^◌, ◌<ℤ◌, ℕ, pos, length, IfOk, OnOk};
ghost use Rattle.ring.specs.Size.{AtMost};
ghost use Rattle.lists.specs.Increasing.{IsMember};
ghost use Rattle.crystal_spec.specs.Matrices.{determinant, difference, image, multiple};
ghost use Rattle.crystal_spec.specs.Operations.{Operation, IsWithinCell};
ghost use Rattle.crystal.specs.Views.{atom_of};
ghost use Rattle.positions.specs.Positions.{triple_of, IsModulo};
ghost use Rattle.matrix3.specs.Bounds.{EntriesAtMost, CoordinatesAtMost};
ghost use Rattle.matrix3.specs.Matrices.{of_columns};
ghost use Rattle.crystal_compare.specs.Steps.{operation_of};
ghost use Rattle.crystal_compare.specs.Search.{steps, AreMetricsOf, IsFolded, IsIsometry, IsMapAs, IsMapOnto, IsMapBy, IsMapOfTwo, IsMapOfOne, IsMapOfColumns, IsSmallMap, IsFoldedOnto};

use crate::atoms::{have_one_name, is_alike, multiple};
use crate::columns::{is_first_column, is_second_column, is_third_column};
use crate::images::is_onto;
use crate::matrices::{Metrics, is_isometry, metrics_of};
use crate::whole_map::{WholeMap, WholeMaps};
use crystal::{Atom, Cell, Places, Sign};
use exact_num::Int;
use lattice_iso::{CANDIDATES, candidate};
use matrix3::{Mat3, Vec3};
use positions::column;
use std::alloc::{AllocError, Global};

/// The number from 0 to n - 1 from which z differs by a multiple of n.
fn folded(z: Int, n: Int) -> Int
    requires { pos 0 <ℤ n }
    ensures { IsFolded n z result }
{
    Int::new(z.get().rem_euclid(n.get())).unwrap()
}

/// The translation part, in steps, with which the matrix carries one position onto another, but for whole cells.
///
/// The first position is in units of 1/n, the second in units of 1/m, and a step is 1/(n m).
fn translation_onto(w: &Mat3<Int>, from: [u32; 3], onto: [u32; 3], n: u32, m: u32) -> Vec3<Int>
    requires map { EntriesAtMost 1 w.now }
    requires n_at_least { 1 ≤ n }
    requires n_at_most { n ≤ 10 ^ 6 }
    requires m_at_least { 1 ≤ m }
    requires m_at_most { m ≤ 10 ^ 6 }
    ensures { IsModulo (n * m) (difference (multiple (pos n) (triple_of onto)) (multiple (pos m) (image w.now (triple_of from)))) result }
{
    let image = w.apply(&column(from));
    let u = multiple(n, &column(onto));
    let v = multiple(m, &image);
    let all = Int::from(n) * Int::from(m);
    Vec3 {
        x: folded(u.x - v.x, all),
        y: folded(u.y - v.y, all),
        z: folded(u.z - v.z, all),
    }
}

/// Puts the map into the list, where it carries the one crystal onto the other. The given atom is tried first.
fn add_map(
    one: &Cell,
    other: &Places,
    map: &WholeMap,
    from: &Atom,
    found: &mut WholeMaps,
) -> Result<(), AllocError>
    requires small { EntriesAtMost 1 map.now.w }
    requires isometry { IsIsometry one.now other.now map.now.w }
    requires kind { other.now.kind ≡ one.now.kind }
    requires within { IsWithinCell (steps one.now other.now) map.now.shift }
    requires of_cell { IsMember (atom_of from.now) one.now.atoms }
    ensures members { OnOk result ((o : Operation) → IsMember o found.new ↔ (IsMapAs one.now other.now (operation_of map.now) o ⊎ IsMember o found.old)) }
{
    if is_onto(one, other, map, from) {
        found.insert(*map)?;
    }
    Ok(())
}

/// The map of these parts.
fn map_of(w: &Mat3<Int>, shift: &Vec3<Int>, sign: Sign) -> WholeMap
    ensures { result ≡ record { w = w.now; shift = shift.now; sign = sign } }
{
    WholeMap {
        w: *w,
        shift: *shift,
        sign,
    }
}

/// Puts the maps of this matrix that carry the one atom onto the other into the list, with and without time reversal.
fn add_onto(
    one: &Cell,
    other: &Places,
    w: &Mat3<Int>,
    from: &Atom,
    onto: &Atom,
    found: &mut WholeMaps,
) -> Result<(), AllocError>
    requires small { EntriesAtMost 1 w.now }
    requires isometry { IsIsometry one.now other.now w.now }
    requires kind { other.now.kind ≡ one.now.kind }
    requires of_cell { IsMember (atom_of from.now) one.now.atoms }
    ensures members { OnOk result ((o : Operation) → IsMember o found.new ↔ (IsMapOnto one.now other.now w.now (atom_of from.now) (atom_of onto.now) o ⊎ IsMember o found.old)) }
{
    one.invariant();
    other.cell().invariant();
    let shift = translation_onto(w, from.place, onto.place, one.n(), other.cell().n());
    let same = map_of(w, &shift, Sign::Same);
    add_map(one, other, &same, from, found)?;
    let reversed = map_of(w, &shift, Sign::Reversed);
    add_map(one, other, &reversed, from, found)?;
    Ok(())
}

/// Puts the maps of this matrix into the list. Each carries this atom onto an atom of its name, so only the translation parts
/// that do so are tried.
fn add_by(
    one: &Cell,
    other: &Places,
    w: &Mat3<Int>,
    from: &Atom,
    found: &mut WholeMaps,
) -> Result<(), AllocError>
    requires small { EntriesAtMost 1 w.now }
    requires isometry { IsIsometry one.now other.now w.now }
    requires kind { other.now.kind ≡ one.now.kind }
    requires of_cell { IsMember (atom_of from.now) one.now.atoms }
    ensures members { OnOk result ((o : Operation) → IsMember o found.new ↔ (IsMapBy one.now other.now w.now o ⊎ IsMember o found.old)) }
{
    one.invariant();
    let cell = other.cell();
    for i in 0..cell.count() {
        let onto = cell.atom(i);
        if have_one_name(one, from.species, cell, onto.species) {
            add_onto(one, other, w, from, onto, found)?;
        }
    }
    Ok(())
}

/// How many atoms of the cell are of the species of this atom and have its moment.
fn count_of(cell: &Cell, atom: &Atom) -> usize {
    let mut count = 0;
    for i in 0..cell.count() {
        if is_alike(cell.atom(i), atom) {
            count += 1;
        }
    }
    count
}

/// The number of the first atom of a rarest species and moment.
fn rarest(cell: &Cell) -> usize
    ensures { result < length cell.now.atoms }
{
    let atoms = cell.count();
    let mut least = count_of(cell, cell.atom(0));
    let mut rarest = 0;
    for i in 1..atoms {
        let count = count_of(cell, cell.atom(i));
        if count < least {
            least = count;
            rarest = i;
        }
    }
    rarest
}

/// Puts the maps of the matrix of these columns into the list.
fn add_of_columns(
    one: &Cell,
    other: &Places,
    from: &Atom,
    a: &Vec3<Int>,
    b: &Vec3<Int>,
    c: &Vec3<Int>,
    found: &mut WholeMaps,
) -> Result<(), AllocError>
    requires kind { other.now.kind ≡ one.now.kind }
    requires of_cell { IsMember (atom_of from.now) one.now.atoms }
    requires a { CoordinatesAtMost 1 a.now }
    requires b { CoordinatesAtMost 1 b.now }
    requires c { CoordinatesAtMost 1 c.now }
    ensures members { OnOk result ((o : Operation) → IsMember o found.new ↔ (IsMapBy one.now other.now (of_columns a.now b.now c.now) o ⊎ IsMember o found.old)) }
{
    let w = Mat3::of_columns(a, b, c);
    if is_isometry(one, other.cell(), &w) {
        add_by(one, other, &w, from, found)?;
    }
    Ok(())
}

/// Puts the maps of matrices of these first two columns into the list.
fn add_of_two(
    one: &Cell,
    other: &Places,
    from: &Atom,
    metrics: &Metrics,
    a: &Vec3<Int>,
    b: &Vec3<Int>,
    found: &mut WholeMaps,
) -> Result<(), AllocError>
    requires kind { other.now.kind ≡ one.now.kind }
    requires of_cell { IsMember (atom_of from.now) one.now.atoms }
    requires metrics { AreMetricsOf one.now other.now metrics.now.one metrics.now.other }
    requires a { CoordinatesAtMost 1 a.now }
    requires b { CoordinatesAtMost 1 b.now }
    ensures members { OnOk result ((o : Operation) → IsMember o found.new ↔ (IsMapOfTwo one.now other.now a.now b.now o ⊎ IsMember o found.old)) }
{
    for number in 0..CANDIDATES {
        let c = candidate(number);
        if is_third_column(metrics, a, b, &c) {
            add_of_columns(one, other, from, a, b, &c, found)?;
        }
    }
    Ok(())
}

/// Puts the maps of matrices of this first column into the list.
fn add_of_one(
    one: &Cell,
    other: &Places,
    from: &Atom,
    metrics: &Metrics,
    a: &Vec3<Int>,
    found: &mut WholeMaps,
) -> Result<(), AllocError>
    requires kind { other.now.kind ≡ one.now.kind }
    requires of_cell { IsMember (atom_of from.now) one.now.atoms }
    requires metrics { AreMetricsOf one.now other.now metrics.now.one metrics.now.other }
    requires a { CoordinatesAtMost 1 a.now }
    ensures members { OnOk result ((o : Operation) → IsMember o found.new ↔ (IsMapOfOne one.now other.now a.now o ⊎ IsMember o found.old)) }
{
    for number in 0..CANDIDATES {
        let b = candidate(number);
        if is_second_column(metrics, a, &b) {
            add_of_two(one, other, from, metrics, a, &b, found)?;
        }
    }
    Ok(())
}

/// All maps of matrices of entries -1, 0 and 1, where the moments are of one kind.
///
/// A column is tried where its length and its products with the columns before it are those of the axes. An atom of a rarest
/// species and moment is tried first.
fn all_of_kind(alloc: Global, one: &Cell, other: &Places) -> Result<WholeMaps, AllocError>
    requires kind { other.now.kind ≡ one.now.kind }
    ensures { IfOk result (λ list. (o : Operation) → IsMember o list ↔ IsMapOfColumns one.now other.now o) }
{
    let from = one.atom(rarest(one));
    let metrics = metrics_of(one, other.cell());
    let mut found = WholeMaps::new(alloc);
    for number in 0..CANDIDATES {
        let a = candidate(number);
        if is_first_column(&metrics, &a) {
            add_of_one(one, other, from, &metrics, &a, &mut found)?;
        }
    }
    Ok(found)
}

/// All maps of matrices of entries -1, 0 and 1.
///
/// There is none where the moments are of two kinds, or where the cells have different numbers of atoms.
pub(crate) fn all_small(alloc: Global, one: &Cell, other: &Places) -> Result<WholeMaps, AllocError>
    ensures { IfOk result (λ list. (o : Operation) → IsMember o list ↔ IsSmallMap one.now other.now o) }
{
    let cell = other.cell();
    one.invariant();
    cell.invariant();
    if one.kind() != cell.kind() || one.count() != cell.count() {
        return Ok(WholeMaps::new(alloc));
    }
    all_of_kind(alloc, one, other)
}

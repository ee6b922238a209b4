// The numbers of isometries of the lattices of each system, in reduced bases.

ghost use Rattle.std.specs.Prelude.{◌≡◌, ◌^◌, ◌≤ℤ◌, pos, IsTrue};
ghost use Rattle.lattice_spec.specs.Niggli.{twice};
ghost use Rattle.lattice_spec.proofs.AtNumerals.{niggli_test};

use crystal::Metric;
use exact_num::Int;
use lattice_iso::{Isos, isometries};
use matrix3::Mat3;
use std::alloc::{AllocError, Global};

/// The largest squared length.
const MOST: i64 = 10_000_000_000_000_000;

/// Half of it.
const HALF: i64 = 5_000_000_000_000_000;

/// The half turn about b, the reflection across it, the inversion and the identity, by their diagonals.
const DIAGONALS: &[[i128; 3]] = &[[-1, -1, -1], [-1, 1, -1], [1, -1, 1], [1, 1, 1]];

fn whole(value: i64) -> Int
    ensures { result ≡ value }
{
    Int::new(value as i128).unwrap()
}

// The isometries of the metric tensor of these entries.
fn listed(
    alloc: Global,
    aa: i64,
    bb: i64,
    cc: i64,
    bc: i64,
    ac: i64,
    ab: i64,
) -> Result<Isos, AllocError>
    requires niggli { IsTrue (niggli_test aa bb cc (twice bc) (twice ac) (twice ab)) }
    requires small { cc ≤ℤ pos (10 ^ 16) }
{
    let metric = Metric {
        aa: whole(aa),
        bb: whole(bb),
        cc: whole(cc),
        bc: whole(bc),
        ac: whole(ac),
        ab: whole(ab),
    };
    isometries(alloc, &metric)
}

// How many isometries there are; 0 for want of memory.
fn count_of(list: Result<Isos, AllocError>) -> usize {
    match list {
        Ok(list) => list.count(),
        Err(_) => 0,
    }
}

// Anorthic, with acute angles, with others, and with a right angle.
fn anorthic(alloc: Global) -> bool {
    count_of(listed(alloc, 4, 5, 7, 1, 1, 1)) == 2
        && count_of(listed(alloc, 10, 12, 15, -3, -2, -4)) == 2
        && count_of(listed(alloc, 4, 5, 7, -1, -1, 0)) == 2
}

// Primitive and centred.
fn monoclinic(alloc: Global) -> bool {
    count_of(listed(alloc, 4, 5, 7, 0, -1, 0)) == 4
        && count_of(listed(alloc, 4, 4, 7, -1, -1, -1)) == 4
}

// Primitive and centred on a face.
fn orthorhombic(alloc: Global) -> bool {
    count_of(listed(alloc, 4, 5, 7, 0, 0, 0)) == 8
        && count_of(listed(alloc, 4, 4, 7, 0, 0, -1)) == 8
}

// Primitive and body-centred.
fn tetragonal(alloc: Global) -> bool {
    count_of(listed(alloc, 4, 4, 7, 0, 0, 0)) == 16
        && count_of(listed(alloc, 4, 4, 6, -2, -2, 0)) == 16
}

// Rhombohedral, of acute and of obtuse angle, and flat; hexagonal.
fn hexagonal(alloc: Global) -> bool {
    count_of(listed(alloc, 4, 4, 4, 1, 1, 1)) == 12
        && count_of(listed(alloc, 5, 5, 5, -1, -1, -1)) == 12
        && count_of(listed(alloc, 2, 2, 5, 1, 1, 1)) == 12
        && count_of(listed(alloc, 4, 4, 7, 0, 0, -2)) == 24
}

// Primitive, face-centred and body-centred.
fn cubic(alloc: Global) -> bool {
    count_of(listed(alloc, 1, 1, 1, 0, 0, 0)) == 48
        && count_of(listed(alloc, 2, 2, 2, 1, 1, 1)) == 48
        && count_of(listed(alloc, 3, 3, 3, -1, -1, -1)) == 48
}

#[test]
fn lattices_have_the_isometries_of_their_system(rt: HostRuntime) {
    assert!(rt; anorthic(rt.alloc()));
    assert!(rt; monoclinic(rt.alloc()));
    assert!(rt; orthorhombic(rt.alloc()));
    assert!(rt; tetragonal(rt.alloc()));
    assert!(rt; hexagonal(rt.alloc()));
    assert!(rt; cubic(rt.alloc()));
}

// Where C is large, the plane of a and b has vectors of the squared length C, as 10^8 a below.
fn of_large_c(alloc: Global) -> bool {
    count_of(listed(alloc, 1, 1, MOST, 0, 0, 0)) == 16
        && count_of(listed(alloc, 2, 2, MOST, 0, 0, -1)) == 24
        && count_of(listed(alloc, 1, 2, MOST, 0, 0, 0)) == 8
        && count_of(listed(alloc, 5, 6, MOST, 2, 2, 2)) == 2
}

fn of_large_b_and_c(alloc: Global) -> bool {
    count_of(listed(alloc, 3, MOST - 1, MOST, 0, -1, 0)) == 4
        && count_of(listed(alloc, 1, MOST, MOST, 0, 0, 0)) == 16
}

fn of_three_large_axes(alloc: Global) -> bool {
    count_of(listed(alloc, MOST - 2, MOST - 1, MOST, 1, 1, 1)) == 2
        && count_of(listed(alloc, MOST, MOST, MOST, HALF, HALF, HALF)) == 48
        && count_of(listed(alloc, MOST, MOST, MOST, HALF - 1, HALF - 1, HALF - 1)) == 12
}

#[test]
fn so_have_flat_and_large_cells(rt: HostRuntime) {
    assert!(rt; of_large_c(rt.alloc()));
    assert!(rt; of_large_b_and_c(rt.alloc()));
    assert!(rt; of_three_large_axes(rt.alloc()));
}

// Whether the matrix has this diagonal and is 0 beside it.
fn is_diagonal(w: &Mat3<Int>, diagonal: [i128; 3]) -> bool {
    let w = *w;
    [w.a11.get(), w.a22.get(), w.a33.get()] == diagonal
        && [w.a12.get(), w.a13.get(), w.a21.get()] == [0, 0, 0]
        && [w.a23.get(), w.a31.get(), w.a32.get()] == [0, 0, 0]
}

// The number of the first isometry that has not the diagonal of its number in the table; else how many there are.
fn first_other(list: &Isos) -> usize {
    for i in 0..DIAGONALS.len() {
        if i >= list.count() || !is_diagonal(list.at(i), DIAGONALS[i]) {
            return i;
        }
    }
    list.count()
}

// The same of the primitive monoclinic lattice; 0 for want of memory.
fn first_other_of_monoclinic(alloc: Global) -> usize {
    match listed(alloc, 4, 5, 7, 0, -1, 0) {
        Ok(list) => first_other(&list),
        Err(_) => 0,
    }
}

#[test]
fn a_monoclinic_lattice_has_four_in_order(rt: HostRuntime) {
    assert_eq!(rt; first_other_of_monoclinic(rt.alloc()), DIAGONALS.len());
}

// The triangular basis of the lattice of pure translations.

ghost use Rattle.std.specs.Prelude.{◌≡◌, ◌≢◌, ◌↔◌, ℕ, ℤ, pos, ◌+◌, ◌-◌, ◌*◌, ◌%◌, ◌<◌, ◌≤◌, ◌^◌, ◌*ℤ◌, length, slice_index, IsTrue};
ghost use Rattle.ring.specs.Ring.{int_ops};
ghost use Rattle.ring.specs.Size.{AtMost};
ghost use Rattle.matrix3.specs.Matrices.{EachEntry};
ghost use Rattle.matrix3.specs.Fits.{DeterminantFits};
ghost use Rattle.crystal_spec.specs.Matrices.{determinant, identity as identity_matrix, product};
ghost use Rattle.basis_spec.specs.Metrics.{matrix_multiple};
ghost use Rattle.basis_spec.specs.Translations.{pure_translation};
ghost use Rattle.basis_spec.specs.StepBases.{InLattice, IsClosed, IsStepBasis, IsSteps};
ghost use Rattle.op_group.specs.Views.{operation_of};
ghost use Rattle.positions.specs.Positions.{triple_of};
ghost use Rattle.op_group.specs.Lists.{HasOnlyPureTranslations};
ghost use Rattle.op_group.specs.Steps.{IsAlong, along, whole_cell, IsStep, IsLeastStep, upper_triangular, HasInverse};

use crate::list::OpList;
use crate::operation::Op;
use crystal_spec::Sign;
use exact_num::Int;
use matrix3::Mat3;

/// The triangular (Hermite-form) basis of a lattice of pure translations, by the matrices to it and back.
#[derive(Clone, Copy, Debug, PartialEq, Eq)]
pub struct Steps3 {
    /// The index of the whole cells in the lattice: n³ / (s1 s2 s3).
    pub index: u32,
    /// Q, which takes coordinates to those in the triangular basis.
    pub back: Mat3<Int>,
    /// The index times Q⁻¹.
    pub fore: Mat3<Int>,
}

/// An axis of the cell.
#[derive(Clone, Copy, Debug, PartialEq, Eq)]
enum Axis {
    X,
    Y,
    Z,
}

/// The matrix with these columns, which end on the diagonal.
fn upper(s1: u32, x2: u32, s2: u32, x3: u32, y3: u32, s3: u32) -> Mat3<Int>
    ensures { result ≡ upper_triangular s1 x2 s2 x3 y3 s3 }
{
    let zero = Int::from(0u32);
    Mat3 {
        a11: Int::from(s1),
        a12: Int::from(x2),
        a13: Int::from(x3),
        a21: zero,
        a22: Int::from(s2),
        a23: Int::from(y3),
        a31: zero,
        a32: zero,
        a33: Int::from(s3),
    }
}

/// Whether the operation is (I, t, +1).
pub(crate) fn is_pure_translation(op: &Op) -> bool
    ensures { IsTrue result ↔ (operation_of op.now ≡ pure_translation (triple_of op.now.shift)) }
{
    let op = *op;
    op.w == Mat3::identity() && op.sign == Sign::Same
}

/// Whether the coordinates past the axis are 0.
fn is_along(axis: Axis, shift: [u32; 3]) -> bool
    ensures { IsTrue result ↔ IsAlong axis (triple_of shift) }
{
    match axis {
        Axis::X => shift[1] == 0 && shift[2] == 0,
        Axis::Y => shift[2] == 0,
        Axis::Z => true,
    }
}

/// The coordinate along the axis.
fn along(axis: Axis, shift: [u32; 3]) -> u32
    ensures { pos result ≡ along axis (triple_of shift) }
{
    match axis {
        Axis::X => shift[0],
        Axis::Y => shift[1],
        Axis::Z => shift[2],
    }
}

/// One whole cell along the axis.
fn whole_cell(axis: Axis, n: u32) -> [u32; 3]
    ensures { triple_of result ≡ whole_cell axis n }
{
    match axis {
        Axis::X => [n, 0, 0],
        Axis::Y => [0, n, 0],
        Axis::Z => [0, 0, n],
    }
}

/// Whether the operation is a pure translation by a positive step along the axis.
fn is_step(axis: Axis, op: &Op) -> bool
    ensures { IsTrue result ↔ IsStep axis (operation_of op.now) }
{
    let shift = op.shift;
    is_pure_translation(op) && is_along(axis, shift) && 0 < along(axis, shift)
}

/// The least step along the axis: of the list, or one whole cell where the list has none.
fn least_step(list: &OpList, axis: Axis) -> [u32; 3]
    requires closed { IsClosed list.now.n list.now.operations }
    ensures { IsLeastStep list.now.n list.now.operations axis (triple_of result) }
{
    let mut least = whole_cell(axis, list.n());
    for i in 0..list.count() {
        let op = list.at(i);
        if is_step(axis, op) && along(axis, op.shift) < along(axis, least) {
            least = op.shift;
        }
    }
    least
}

/// x less so many times a step, modulo a number above the step.
fn less_multiple(x: u32, times: u32, step: u32, modulus: u32) -> u32
    requires { step < modulus }
    ensures { result ≡ (x + times * (modulus - step)) % modulus }
{
    ((x as u64 + times as u64 * (modulus - step) as u64) % modulus as u64) as u32
}

/// The triangular basis of the lattice of pure translations, with its vectors as columns: the least steps, less multiples
/// of those before.
fn triangular_basis(list: &OpList) -> Mat3<Int>
    requires closed { IsClosed list.now.n list.now.operations }
    ensures { IsStepBasis (InLattice list.now.n list.now.operations) result }
{
    let [s1, _, _] = least_step(list, Axis::X);
    let [x, s2, _] = least_step(list, Axis::Y);
    let x2 = x % s1;
    let [x, y, s3] = least_step(list, Axis::Z);
    let x3 = less_multiple(x, y / s2, x2, s1);
    upper(s1, x2, s2, x3, y % s2, s3)
}

/// The quotient of a number and one that divides it.
fn quotient(a: Int, b: Int) -> Int
    requires nonzero { b ≢ pos 0 }
    requires divides { (q : ℤ) × (q *ℤ b ≡ a) }
    ensures { result *ℤ b ≡ a }
{
    a.div_exact(&b).unwrap()
}

/// n times the inverse of an upper triangular matrix.
fn inverse_times(n: u32, basis: &Mat3<Int>) -> Mat3<Int>
    requires { HasInverse n basis.now }
    ensures { product basis.now result ≡ matrix_multiple (pos n) identity_matrix }
{
    let b = *basis;
    let n = Int::from(n);
    let zero = Int::from(0u32);
    let a11 = quotient(n, b.a11);
    let a22 = quotient(n, b.a22);
    let a33 = quotient(n, b.a33);
    let a12 = quotient(-(b.a12 * a22), b.a11);
    let a23 = quotient(-(b.a23 * a33), b.a22);
    let a13 = quotient(-(b.a12 * a23 + b.a13 * a33), b.a11);
    Mat3 {
        a11,
        a12,
        a13,
        a21: zero,
        a22,
        a23,
        a31: zero,
        a32: zero,
        a33,
    }
}

/// The determinant of a matrix, which is a natural number below 2^32.
fn index_of(back: &Mat3<Int>) -> u32
    requires fits { DeterminantFits int_ops (AtMost (10 ^ 36)) back.now }
    requires natural { (k : ℕ) × (k < 2 ^ 32) × (determinant back.now ≡ pos k) }
    ensures { pos result ≡ determinant back.now }
{
    back.handed().get() as u32
}

/// The triangular (Hermite-form) basis of the lattice of the list's pure translations, by the matrices to it and back.
///
/// Of the lattice made of the pure translations and all whole cells, in units of 1/n, the basis vectors are (s1, 0, 0) with
/// the least positive s1, (x2, s2, 0) with the least positive s2 and then the least x2 from 0, and (x3, y3, s3) with the
/// least positive s3, y3 from 0 to s2 - 1 and x3 from 0 to s1 - 1. `index` is n³ / (s1 s2 s3), the number of pure
/// translations where the list has no other operations; `back` takes coordinates to those in this basis, and its determinant
/// is the index; `fore` is index times its inverse. Asks that the pure translations of the list are closed under sums modulo
/// n, with (0, 0, 0) among them, and that the list has fewer than 2^32 operations.
pub fn step_basis(list: &OpList) -> Steps3
    requires closed { IsClosed list.now.n list.now.operations }
    requires few { length list.now.operations < 2 ^ 32 }
    ensures steps { IsSteps list.now.n (InLattice list.now.n list.now.operations) result.index result.back result.fore }
    ensures determinant { pos result.index ≡ determinant result.back }
    ensures count { HasOnlyPureTranslations list.now.operations → length list.now.operations ≡ result.index }
    ensures back_entries { EachEntry (AtMost result.index) result.back }
    ensures fore_entries { EachEntry (AtMost result.index) result.fore }
{
    list.invariant();
    let basis = triangular_basis(list);
    let back = inverse_times(list.n(), &basis);
    let fore = back.adjugate();
    Steps3 {
        index: index_of(&back),
        back,
        fore,
    }
}

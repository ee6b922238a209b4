// The mean of the matrices by which the operations of a site act on moments.

ghost use Rattle.std.specs.Prelude.{◌≡◌, ◌≢◌, ◌↔◌, ℕ, ℤ, ◌^◌, ◌<◌, ◌≤◌, pos, ◌*ℤ◌, length};
ghost use Rattle.ring.specs.Ring.{int_ops};
ghost use Rattle.ring.specs.Size.{AtMost};
ghost use Rattle.numbers.specs.Fraction.{lowest, fraction_ops};
ghost use Rattle.exact_num.specs.Meanings.{fraction_of};
ghost use Rattle.matrix3.specs.Matrices.{EachEntry, matrix_map, product, scalar, matrix_sum};
ghost use Rattle.crystal_spec.specs.Matrices.{Triple, determinant};
ghost use Rattle.matrix3.specs.Bounds.{EntriesAtMost};
ghost use Rattle.op_group.specs.Views.{operation_of};
ghost use Rattle.op_group.specs.Groups.{IsGroupModulo};
ghost use Rattle.moment_space.specs.Projectors.{IsAllowed, HasSmallParts, IsProjected, IsAllowedCount, matrix_of, moment_sum as sum_of_matrices, projector_of};
ghost use Rattle.op_group.specs.Lists.{HasEntriesAtMost};
ghost use Rattle.moment_space.specs.Counted.{counted_part, IsCounted};

use crate::allowed::Allowed;
use crystal::{MomentKind, moment_matrix};
use exact_num::{Frac, Int};
use matrix3::Mat3;
use op_group::{Op, OpList};

/// The matrix with zeros alone.
fn zero_matrix() -> Mat3<Int>
    ensures value { result ≡ scalar int_ops (pos 0) }
    ensures size { EntriesAtMost 0 result }
{
    let zero = Int::new(0).unwrap();
    Mat3 {
        a11: zero,
        a12: zero,
        a13: zero,
        a21: zero,
        a22: zero,
        a23: zero,
        a31: zero,
        a32: zero,
        a33: zero,
    }
}

/// The sum of two matrices.
fn matrix_sum(a: &Mat3<Int>, b: &Mat3<Int>) -> Mat3<Int>
    requires first { EntriesAtMost 40000 a.now }
    requires second { EntriesAtMost 1 b.now }
    ensures { result ≡ matrix_sum int_ops a.now b.now }
{
    let a = *a;
    let b = *b;
    Mat3 {
        a11: a.a11 + b.a11,
        a12: a.a12 + b.a12,
        a13: a.a13 + b.a13,
        a21: a.a21 + b.a21,
        a22: a.a22 + b.a22,
        a23: a.a23 + b.a23,
        a31: a.a31 + b.a31,
        a32: a.a32 + b.a32,
        a33: a.a33 + b.a33,
    }
}

/// The matrix by which the operation acts on moments of this kind.
fn matrix_of(kind: MomentKind, op: &Op) -> Mat3<Int>
    requires small { EntriesAtMost 1 op.now.w }
    requires isometry { determinant op.now.w *ℤ determinant op.now.w ≡ pos 1 }
    ensures value { result ≡ matrix_of kind (operation_of op.now) }
    ensures size { EntriesAtMost 1 result }
{
    moment_matrix(kind, &op.w, op.sign)
}

/// The sum of the matrices by which the operations of the site act on moments.
fn moment_sum(site: &OpList, kind: MomentKind) -> Mat3<Int>
    requires group { IsGroupModulo site.now.n site.now.operations }
    requires few { length site.now.operations ≤ 40000 }
    requires small { HasEntriesAtMost 1 site.now.operations }
    ensures value { result ≡ sum_of_matrices kind site.now.operations }
    ensures size { EntriesAtMost 40000 result }
{
    let mut sum = zero_matrix();
    for i in 0..site.count() {
        sum = matrix_sum(&sum, &matrix_of(kind, site.at(i)));
    }
    sum
}

/// The quotient of an entry by the number of operations.
fn share(entry: Int, count: u32) -> Frac
    requires at_least { 1 ≤ count }
    requires at_most { count ≤ 40000 }
    requires size { AtMost 40000 entry }
    ensures value { fraction_of result ≡ lowest entry (pos count) }
    ensures small { HasSmallParts (fraction_of result) }
{
    Frac::new(entry.get(), count as i128).unwrap()
}

/// The quotients of the entries by the number of operations.
fn shares(sum: &Mat3<Int>, count: u32) -> Mat3<Frac>
    requires at_least { 1 ≤ count }
    requires at_most { count ≤ 40000 }
    requires size { EntriesAtMost 40000 sum.now }
    ensures value { matrix_map fraction_of result ≡ matrix_map (λ x. lowest x (pos count)) sum.now }
    ensures small { EachEntry HasSmallParts (matrix_map fraction_of result) }
{
    let s = *sum;
    Mat3 {
        a11: share(s.a11, count),
        a12: share(s.a12, count),
        a13: share(s.a13, count),
        a21: share(s.a21, count),
        a22: share(s.a22, count),
        a23: share(s.a23, count),
        a31: share(s.a31, count),
        a32: share(s.a32, count),
        a33: share(s.a33, count),
    }
}

/// The part of the trace that is counted: all of it for vectors, and for scalars the first entry.
fn counted_part(sum: &Mat3<Int>, kind: MomentKind) -> Int
    requires size { EntriesAtMost 40000 sum.now }
    ensures { result ≡ counted_part kind sum.now }
{
    if kind.vector {
        sum.a11 + sum.a22 + sum.a33
    } else {
        sum.a11
    }
}

/// The quotient of a number and one that divides it.
fn quotient(a: Int, b: Int) -> Int
    requires nonzero { b ≢ pos 0 }
    requires divides { (q : ℤ) × (q *ℤ b ≡ a) }
    ensures { result *ℤ b ≡ a }
{
    a.div_exact(&b).unwrap()
}

/// A small natural number.
fn natural(value: Int) -> u32
    requires { (k : ℕ) × (k < 2 ^ 32) × (value ≡ pos k) }
    ensures { pos result ≡ value }
{
    value.get() as u32
}

/// How many of the allowed moments are independent.
fn allowed_count(sum: &Mat3<Int>, kind: MomentKind, count: u32) -> u32
    requires at_least { 1 ≤ count }
    requires size { EntriesAtMost 40000 sum.now }
    requires counted { IsCounted (pos count) (counted_part kind sum.now) }
    ensures { counted_part kind sum.now ≡ pos result *ℤ pos count }
{
    natural(quotient(counted_part(sum, kind), Int::from(count)))
}

/// Which moments a site allows whose site-symmetry group this is: those that each of its operations carries to itself.
///
/// The projector onto them is the mean of the matrices by which the operations act on moments of this kind. Its trace, for
/// scalars a third of it, is the number of independent moments. Asks a group modulo n of at most 40,000 operations, whose
/// matrices have entries -1, 0 and 1. It takes no memory.
pub fn projector(site: &OpList, kind: MomentKind) -> Allowed
    requires group { IsGroupModulo site.now.n site.now.operations }
    requires few { length site.now.operations ≤ 40000 }
    requires small { HasEntriesAtMost 1 site.now.operations }
    ensures kind { result.kind ≡ kind }
    ensures value { result.projector ≡ projector_of kind site.now.operations }
    ensures count { IsAllowedCount kind result.projector result.count }
    ensures idempotent { product fraction_ops result.projector result.projector ≡ result.projector }
    ensures exact { (m : Triple) → IsProjected result.projector m ↔ IsAllowed kind site.now.operations m }
{
    let count = site.count() as u32;
    let sum = moment_sum(site, kind);
    Allowed::new(kind, shares(&sum, count), allowed_count(&sum, kind, count))
}

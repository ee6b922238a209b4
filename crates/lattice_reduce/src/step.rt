// The steps of the reduction.

ghost use Rattle.std.specs.Prelude.{◌≡◌, ◌^◌, pos};
ghost use Rattle.ring.specs.Ring.{int_ops};
ghost use Rattle.ring.specs.Size.{AtMost};
ghost use Rattle.crystal.specs.Views.{metric_of};
ghost use Rattle.matrix3.specs.Bounds.{EntriesAtMost};
ghost use Rattle.crystal_spec.specs.Matrices.{identity};
ghost use Rattle.lattice_spec.specs.Tensor.{tensor_matrix};
ghost use Rattle.lattice_reduce.specs.Steps.{tensor_of, after_step, step_matrix, step_inverse, multiple_of, exchange_first_matrix, exchange_last_matrix, second_less_first, third_less_second, third_less_first, add_to_third};

use crate::number::{less, whole};
use crystal::Metric;
use exact_num::Int;
use matrix3::Mat3;

/// A basis change of determinant 1.
#[derive(Clone, Copy)]
pub(crate) enum Step {
    /// a and b change places, and all three axes are reversed.
    ExchangeFirst,
    /// b and c change places, and all three axes are reversed.
    ExchangeLast,
    /// b and c are reversed.
    KeepFirst,
    /// a and c are reversed.
    KeepSecond,
    /// a and b are reversed.
    KeepThird,
    /// b - k a takes the place of b.
    SecondLessFirst(Int),
    /// c - k b takes the place of c.
    ThirdLessSecond(Int),
    /// c - k a takes the place of c.
    ThirdLessFirst(Int),
    /// a + b + c takes the place of c.
    AddToThird,
}

/// The metric tensor after the step.
pub(crate) fn after_step(g: &Metric, step: &Step) -> Metric
    requires before { EntriesAtMost (10 ^ 16) (metric_of g.now) }
    requires after { EntriesAtMost (10 ^ 16) (tensor_matrix (after_step step.now (tensor_of g.now))) }
    ensures { tensor_of result ≡ after_step step.now (tensor_of g.now) }
{
    match *step {
        Step::ExchangeFirst => Metric {
            aa: g.bb,
            bb: g.aa,
            bc: g.ac,
            ac: g.bc,
            ..*g
        },
        Step::ExchangeLast => Metric {
            bb: g.cc,
            cc: g.bb,
            ac: g.ab,
            ab: g.ac,
            ..*g
        },
        Step::KeepFirst => Metric {
            ac: -g.ac,
            ab: -g.ab,
            ..*g
        },
        Step::KeepSecond => Metric {
            bc: -g.bc,
            ab: -g.ab,
            ..*g
        },
        Step::KeepThird => Metric {
            bc: -g.bc,
            ac: -g.ac,
            ..*g
        },
        Step::SecondLessFirst(k) => second_less_first(g, k),
        Step::ThirdLessSecond(k) => third_less_second(g, k),
        Step::ThirdLessFirst(k) => third_less_first(g, k),
        Step::AddToThird => add_to_third(g),
    }
}

fn second_less_first(g: &Metric, k: Int) -> Metric
    requires before { EntriesAtMost (10 ^ 16) (metric_of g.now) }
    requires after { EntriesAtMost (10 ^ 16) (tensor_matrix (second_less_first int_ops k (tensor_of g.now))) }
    ensures { tensor_of result ≡ second_less_first int_ops k (tensor_of g.now) }
{
    let ab = less(g.ab, k, g.aa);
    let bb = less(g.bb, k, g.ab + ab);
    let bc = less(g.bc, k, g.ac);
    Metric { bb, bc, ab, ..*g }
}

fn third_less_second(g: &Metric, k: Int) -> Metric
    requires before { EntriesAtMost (10 ^ 16) (metric_of g.now) }
    requires after { EntriesAtMost (10 ^ 16) (tensor_matrix (third_less_second int_ops k (tensor_of g.now))) }
    ensures { tensor_of result ≡ third_less_second int_ops k (tensor_of g.now) }
{
    let bc = less(g.bc, k, g.bb);
    let cc = less(g.cc, k, g.bc + bc);
    let ac = less(g.ac, k, g.ab);
    Metric { cc, bc, ac, ..*g }
}

fn third_less_first(g: &Metric, k: Int) -> Metric
    requires before { EntriesAtMost (10 ^ 16) (metric_of g.now) }
    requires after { EntriesAtMost (10 ^ 16) (tensor_matrix (third_less_first int_ops k (tensor_of g.now))) }
    ensures { tensor_of result ≡ third_less_first int_ops k (tensor_of g.now) }
{
    let ac = less(g.ac, k, g.aa);
    let cc = less(g.cc, k, g.ac + ac);
    let bc = less(g.bc, k, g.ab);
    Metric { cc, bc, ac, ..*g }
}

fn add_to_third(g: &Metric) -> Metric
    requires before { EntriesAtMost (10 ^ 16) (metric_of g.now) }
    ensures { tensor_of result ≡ add_to_third int_ops (tensor_of g.now) }
{
    let bc = g.bb + g.bc + g.ab;
    let ac = g.aa + g.ac + g.ab;
    let cc = g.cc + (g.bc + bc) + (g.ac + ac);
    Metric { cc, bc, ac, ..*g }
}

/// A matrix with small integers on the diagonal and 0 elsewhere.
fn diagonal(first: i8, second: i8, third: i8) -> Mat3<Int>
    ensures { result ≡ record { a11 = first; a12 = pos 0; a13 = pos 0; a21 = pos 0; a22 = second; a23 = pos 0; a31 = pos 0; a32 = pos 0; a33 = third } }
{
    let zero = whole(0);
    Mat3 {
        a11: whole(first),
        a12: zero,
        a13: zero,
        a21: zero,
        a22: whole(second),
        a23: zero,
        a31: zero,
        a32: zero,
        a33: whole(third),
    }
}

/// The identity matrix.
pub(crate) fn identity() -> Mat3<Int>
    ensures { result ≡ identity }
{
    diagonal(1, 1, 1)
}

/// The exchange of a and b, with all three axes reversed, which is its own inverse.
fn exchange_first() -> Mat3<Int>
    ensures { result ≡ exchange_first_matrix int_ops }
{
    let minus = whole(-1);
    Mat3 {
        a12: minus,
        a21: minus,
        ..diagonal(0, 0, -1)
    }
}

/// That of b and c.
fn exchange_last() -> Mat3<Int>
    ensures { result ≡ exchange_last_matrix int_ops }
{
    let minus = whole(-1);
    Mat3 {
        a23: minus,
        a32: minus,
        ..diagonal(-1, 0, 0)
    }
}

/// The basis change: the new axes as columns, in the old ones.
pub(crate) fn step_matrix(step: &Step) -> Mat3<Int>
    requires { AtMost (10 ^ 22) (multiple_of step.now) }
    ensures { result ≡ step_matrix step.now }
{
    let one = whole(1);
    match *step {
        Step::ExchangeFirst => exchange_first(),
        Step::ExchangeLast => exchange_last(),
        Step::KeepFirst => diagonal(1, -1, -1),
        Step::KeepSecond => diagonal(-1, 1, -1),
        Step::KeepThird => diagonal(-1, -1, 1),
        Step::SecondLessFirst(k) => Mat3 {
            a12: -k,
            ..identity()
        },
        Step::ThirdLessSecond(k) => Mat3 {
            a23: -k,
            ..identity()
        },
        Step::ThirdLessFirst(k) => Mat3 {
            a13: -k,
            ..identity()
        },
        Step::AddToThird => Mat3 {
            a13: one,
            a23: one,
            ..identity()
        },
    }
}

/// The inverse of the basis change.
pub(crate) fn step_inverse(step: &Step) -> Mat3<Int>
    ensures { result ≡ step_inverse step.now }
{
    let minus = whole(-1);
    match *step {
        Step::ExchangeFirst => exchange_first(),
        Step::ExchangeLast => exchange_last(),
        Step::KeepFirst => diagonal(1, -1, -1),
        Step::KeepSecond => diagonal(-1, 1, -1),
        Step::KeepThird => diagonal(-1, -1, 1),
        Step::SecondLessFirst(k) => Mat3 {
            a12: k,
            ..identity()
        },
        Step::ThirdLessSecond(k) => Mat3 {
            a23: k,
            ..identity()
        },
        Step::ThirdLessFirst(k) => Mat3 {
            a13: k,
            ..identity()
        },
        Step::AddToThird => Mat3 {
            a13: minus,
            a23: minus,
            ..identity()
        },
    }
}

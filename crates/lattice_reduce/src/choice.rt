// The choice of the next step.
//
// Exchanges come first, then the nearest multiples, that of a from b before those from c, then the signs, the sum of
// form II, and last the equalities. Without nearest multiples, or with those from c first, some metric tensors take a
// number of steps that grows with their entries.

ghost use Rattle.std.specs.Prelude.{◌≡◌, ◌^◌, pos, ◌≤ℤ◌, ◌<ℤ◌, MatchOption};
ghost use Rattle.std.specs.Bool.{MatchBool};
ghost use Rattle.crystal.specs.Views.{metric_of};
ghost use Rattle.matrix3.specs.Bounds.{EntriesAtMost};
ghost use Rattle.lattice_spec.specs.Niggli.{IsAcute, IsObtuse, IsNiggli};
ghost use Rattle.lattice_reduce.specs.Steps.{tensor_of};
ghost use Rattle.lattice_reduce.specs.Parts.{IsSorted, IsShort, IsSigned, HasAcuteEdges, HasObtuseEdges, HasPositiveDiagonal, excess_of, edge_of};
ghost use Rattle.lattice_reduce.specs.Progress.{IsGoodStep};

use crate::number::{
    is_above, is_back_edge, is_edge, is_long, is_negative, is_positive, is_zero, nearest, twice,
    whole,
};
use crate::step::Step;
use crystal::Metric;
use exact_num::Int;

/// A change of places: lengths in order, and products in order where two lengths are equal.
fn sort_step(g: &Metric) -> Option<Step>
    requires { EntriesAtMost (10 ^ 16) (metric_of g.now) }
    ensures { MatchOption result (IsSorted (tensor_of g.now)) (λ step. IsGoodStep (tensor_of g.now) step) }
{
    if is_above(g.aa, g.bb, g.bc, g.ac) {
        Some(Step::ExchangeFirst)
    } else if is_above(g.bb, g.cc, g.ac, g.ab) {
        Some(Step::ExchangeLast)
    } else {
        None
    }
}

/// Takes the nearest multiple of a shorter axis off a longer one.
fn short_step(g: &Metric) -> Option<Step>
    requires small { EntriesAtMost (10 ^ 16) (metric_of g.now) }
    requires diagonal { HasPositiveDiagonal (tensor_of g.now) }
    ensures { MatchOption result (IsShort (tensor_of g.now)) (λ step. IsGoodStep (tensor_of g.now) step) }
{
    if is_long(g.ab, g.aa) {
        Some(Step::SecondLessFirst(nearest(g.ab, g.aa)))
    } else if is_long(g.bc, g.bb) {
        Some(Step::ThirdLessSecond(nearest(g.bc, g.bb)))
    } else if is_long(g.ac, g.aa) {
        Some(Step::ThirdLessFirst(nearest(g.ac, g.aa)))
    } else {
        None
    }
}

/// Where b·c alone is positive: leaves none positive, or all three.
fn first_alone(g: &Metric) -> Step
    requires first { pos 0 <ℤ g.now.bc }
    requires second { g.now.ac ≤ℤ pos 0 }
    requires third { g.now.ab ≤ℤ pos 0 }
    ensures { IsGoodStep (tensor_of g.now) result }
{
    if is_zero(g.ac) {
        Step::KeepThird
    } else if is_zero(g.ab) {
        Step::KeepSecond
    } else {
        Step::KeepFirst
    }
}

/// Where a·c alone is positive.
fn second_alone(g: &Metric) -> Step
    requires first { g.now.bc ≤ℤ pos 0 }
    requires second { pos 0 <ℤ g.now.ac }
    requires third { g.now.ab ≤ℤ pos 0 }
    ensures { IsGoodStep (tensor_of g.now) result }
{
    if is_zero(g.bc) {
        Step::KeepThird
    } else if is_zero(g.ab) {
        Step::KeepFirst
    } else {
        Step::KeepSecond
    }
}

/// Where a·b alone is positive.
fn third_alone(g: &Metric) -> Step
    requires first { g.now.bc ≤ℤ pos 0 }
    requires second { g.now.ac ≤ℤ pos 0 }
    requires third { pos 0 <ℤ g.now.ab }
    ensures { IsGoodStep (tensor_of g.now) result }
{
    if is_zero(g.bc) {
        Step::KeepSecond
    } else if is_zero(g.ac) {
        Step::KeepFirst
    } else {
        Step::KeepThird
    }
}

/// Reverses two axes where one or two of the products are positive, and not all three.
fn sign_step(g: &Metric) -> Option<Step>
    ensures { MatchOption result (IsSigned g.now.bc g.now.ac g.now.ab) (λ step. IsGoodStep (tensor_of g.now) step) }
{
    if is_positive(g.bc) {
        if is_positive(g.ac) {
            if is_positive(g.ab) {
                None
            } else {
                Some(Step::KeepThird)
            }
        } else if is_positive(g.ab) {
            Some(Step::KeepSecond)
        } else {
            Some(first_alone(g))
        }
    } else if is_positive(g.ac) {
        if is_positive(g.ab) {
            Some(Step::KeepFirst)
        } else {
            Some(second_alone(g))
        }
    } else if is_positive(g.ab) {
        Some(third_alone(g))
    } else {
        None
    }
}

/// The squared length of a + b + c less that of c.
fn excess(g: &Metric) -> Int
    requires { EntriesAtMost (10 ^ 16) (metric_of g.now) }
    ensures { result ≡ excess_of (tensor_of g.now) }
{
    g.aa + g.bb + twice(g.bc) + twice(g.ac) + twice(g.ab)
}

/// Adds a and b to c where that is shorter.
fn sum_step(g: &Metric) -> Option<Step>
    requires { EntriesAtMost (10 ^ 16) (metric_of g.now) }
    ensures { MatchOption result (pos 0 ≤ℤ excess_of (tensor_of g.now)) (λ step. IsGoodStep (tensor_of g.now) step) }
{
    if is_negative(excess(g)) {
        Some(Step::AddToThird)
    } else {
        None
    }
}

/// The equalities of form I.
fn acute_edge(g: &Metric) -> Option<Step>
    requires small { EntriesAtMost (10 ^ 16) (metric_of g.now) }
    requires signs { IsAcute g.now.bc g.now.ac g.now.ab }
    ensures { MatchOption result (HasAcuteEdges (tensor_of g.now)) (λ step. IsGoodStep (tensor_of g.now) step) }
{
    let one = whole(1);
    if is_edge(g.bc, g.bb, g.ac, g.ab) {
        Some(Step::ThirdLessSecond(one))
    } else if is_edge(g.ac, g.aa, g.bc, g.ab) {
        Some(Step::ThirdLessFirst(one))
    } else if is_edge(g.ab, g.aa, g.bc, g.ac) {
        Some(Step::SecondLessFirst(one))
    } else {
        None
    }
}

/// 2 (A + η) + ζ
fn edge(g: &Metric) -> Int
    requires { EntriesAtMost (10 ^ 16) (metric_of g.now) }
    ensures { result ≡ edge_of (tensor_of g.now) }
{
    twice(g.aa + twice(g.ac)) + twice(g.ab)
}

/// Whether a + b + c is as long as c, and is to take its place.
fn is_sum_edge(g: &Metric) -> bool
    requires { EntriesAtMost (10 ^ 16) (metric_of g.now) }
    ensures { MatchBool result ((excess_of (tensor_of g.now) ≡ pos 0) × (pos 0 <ℤ edge_of (tensor_of g.now))) (excess_of (tensor_of g.now) ≡ pos 0 → edge_of (tensor_of g.now) ≤ℤ pos 0) }
{
    if is_zero(excess(g)) {
        is_positive(edge(g))
    } else {
        false
    }
}

/// The equalities of form II.
fn obtuse_edge(g: &Metric) -> Option<Step>
    requires small { EntriesAtMost (10 ^ 16) (metric_of g.now) }
    requires signs { IsObtuse g.now.bc g.now.ac g.now.ab }
    requires diagonal { HasPositiveDiagonal (tensor_of g.now) }
    requires short { IsShort (tensor_of g.now) }
    requires order { g.now.aa ≤ℤ g.now.bb }
    ensures { MatchOption result (HasObtuseEdges (tensor_of g.now)) (λ step. IsGoodStep (tensor_of g.now) step) }
{
    let minus = whole(-1);
    if is_back_edge(g.bc, g.bb, g.ab) {
        Some(Step::ThirdLessSecond(minus))
    } else if is_back_edge(g.ac, g.aa, g.ab) {
        Some(Step::ThirdLessFirst(minus))
    } else if is_back_edge(g.ab, g.aa, g.ac) {
        Some(Step::SecondLessFirst(minus))
    } else if is_sum_edge(g) {
        Some(Step::AddToThird)
    } else {
        None
    }
}

/// The next step, or `None` where the metric tensor is reduced.
pub(crate) fn choose(g: &Metric) -> Option<Step>
    requires small { EntriesAtMost (10 ^ 16) (metric_of g.now) }
    requires diagonal { HasPositiveDiagonal (tensor_of g.now) }
    ensures { MatchOption result (IsNiggli (metric_of g.now)) (λ step. IsGoodStep (tensor_of g.now) step) }
{
    if let Some(step) = sort_step(g) {
        return Some(step);
    }
    if let Some(step) = short_step(g) {
        return Some(step);
    }
    if let Some(step) = sign_step(g) {
        return Some(step);
    }
    if let Some(step) = sum_step(g) {
        return Some(step);
    }
    if is_positive(g.bc) {
        acute_edge(g)
    } else {
        obtuse_edge(g)
    }
}

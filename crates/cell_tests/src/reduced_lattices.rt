ghost use Rattle.std.specs.Prelude.{◌≡◌, ◌^◌, ◌<ℤ◌, ◌≤ℤ◌, pos, IfSome, IsTrue, MatchBool};
ghost use Rattle.ring.specs.Size.{AtMost};
ghost use Rattle.crystal_spec.specs.Crystals.{IsPositive};
ghost use Rattle.crystal.specs.Views.{metric_of};
ghost use Rattle.matrix3.specs.Bounds.{EntriesAtMost};

use crystal::Metric;
use exact_num::Int;
use lattice_reduce::{Reduced, reduce};
use matrix3::Mat3;

// Metric tensors and the reduced ones of their lattices, each as aa, bb, cc, bc, ac, ab.
//
// The expected ones are from another program: the published algorithm in its published order [KG76], in exact integers of
// any size, written in Python apart from this one. A lattice has one reduced metric tensor, so the order does not matter.
#[rattlefmt::skip]
const METRICS: &[([i64; 6], [i64; 6])] = &[
    // A cubic lattice in a skew basis.
    ([1, 5, 11, 1, -1, 2], [1, 1, 1, 0, 0, 0]),
    // Hexagonal: axes a and b at 60 and at 120 degrees, and the unique axis first.
    ([2, 2, 3, 0, 0, 1], [2, 2, 3, 0, 0, -1]),
    ([2, 2, 3, 0, 0, -1], [2, 2, 3, 0, 0, -1]),
    ([3, 2, 2, -1, 0, 0], [2, 2, 3, 0, 0, -1]),
    // Face-centred cubic, in another basis and reduced.
    ([4, 2, 2, 1, 0, 2], [2, 2, 2, 1, 1, 1]),
    ([2, 2, 2, 1, 1, 1], [2, 2, 2, 1, 1, 1]),
    // Body-centred cubic, likewise.
    ([4, 4, 3, 2, 2, 0], [3, 3, 3, -1, -1, -1]),
    ([3, 3, 3, -1, -1, -1], [3, 3, 3, -1, -1, -1]),
    // Tetragonal with c the shortest, and rhombohedral with angles above and below 90 degrees.
    ([9, 9, 4, 0, 0, 0], [4, 9, 9, 0, 0, 0]),
    ([5, 5, 5, -2, -2, -2], [3, 5, 5, -2, -1, -1]),
    ([5, 5, 5, 4, 4, 4], [2, 2, 5, 1, 1, 1]),
    // Monoclinic with b unique, of either sign of a·c, and with its C face centred.
    ([10, 5, 20, 0, -9, 0], [5, 10, 12, -1, 0, 0]),
    ([9, 4, 11, 0, 7, 0], [4, 6, 9, -2, 0, 0]),
    ([15, 15, 20, 4, -4, -5], [15, 15, 20, 4, 4, 5]),
    // Triclinic.
    ([25, 27, 31, 19, -13, 5], [9, 20, 27, 8, 3, 2]),
    ([30, 20, 25, 11, 13, -7], [13, 20, 23, 9, 3, 2]),
    ([17, 33, 58, 40, -21, -18], [11, 14, 17, 1, 3, 4]),
    // Form I, all conditions but one: of A = B, of B = C, of ξ = B, of η = A, of ζ = A.
    ([4, 4, 4, 2, 1, 1], [4, 4, 4, 1, 1, 2]),
    ([4, 4, 4, 1, 2, 1], [4, 4, 4, 1, 1, 2]),
    ([6, 8, 8, 4, 1, 3], [6, 8, 8, 4, 2, 3]),
    ([8, 8, 9, 1, 4, 3], [8, 8, 9, 2, 4, 3]),
    ([8, 8, 8, 1, 3, 4], [8, 8, 8, 2, 3, 4]),
    // Form II, likewise, and that of the sum.
    ([2, 2, 2, -1, 0, 0], [2, 2, 2, 0, 0, -1]),
    ([2, 2, 2, -1, -1, 0], [2, 2, 2, 1, 1, 1]),
    ([3, 4, 4, -2, 0, -1], [3, 4, 4, 2, 1, 1]),
    ([4, 4, 5, -1, -2, -1], [4, 4, 5, 2, 2, 1]),
    ([4, 4, 4, -1, -1, -2], [4, 4, 4, 1, 2, 2]),
    ([5, 7, 7, -3, -1, -2], [5, 7, 7, -2, -2, -2]),
    // An exchange between equal lengths alone.
    ([4, 4, 6, -1, 0, 0], [4, 4, 6, 0, -1, 0]),
    // In the published order this one takes 61,397 steps.
    ([10001, 10001, 822217778, 23333, -16667, 10000], [2, 10001, 22217778, -3333, 0, -1]),
    // The largest entries of this table.
    ([100000000000, 100000000000, 100000000000, 1, -99999999999, -1], [2, 100000000000, 100000000000, -1, 0, -1]),
];

fn entry(value: i64) -> Option<Int>
    ensures { IfSome result (λ r. AtMost (10 ^ 11) r) }
{
    if -100_000_000_000 <= value && value <= 100_000_000_000 {
        Int::new(value as i128)
    } else {
        None
    }
}

fn small_metric(row: [i64; 6]) -> Option<Metric>
    ensures { IfSome result (λ g. EntriesAtMost (10 ^ 11) (metric_of g)) }
{
    let [aa, bb, cc, bc, ac, ab] = row;
    Some(Metric {
        aa: entry(aa)?,
        bb: entry(bb)?,
        cc: entry(cc)?,
        bc: entry(bc)?,
        ac: entry(ac)?,
        ab: entry(ab)?,
    })
}

/// Whether a is above 0.
fn is_positive(a: Int) -> bool
    ensures { MatchBool result (pos 0 <ℤ a) (a ≤ℤ pos 0) }
{
    a.get() > 0
}

/// Whether the three leading minors are positive.
fn has_positive_minors(g: &Metric) -> bool
    requires { EntriesAtMost (10 ^ 11) (metric_of g.now) }
    ensures { IsTrue result → IsPositive (metric_of g.now) }
{
    if !is_positive(g.aa) {
        return false;
    }
    if !is_positive(g.aa * g.bb - g.ab * g.ab) {
        return false;
    }
    is_positive(g.matrix().handed())
}

/// The reduction of the metric tensor aa, bb, cc, bc, ac, ab, where it is one.
fn reduction(row: [i64; 6]) -> Option<Reduced> {
    let g = small_metric(row)?;
    if has_positive_minors(&g) {
        Some(reduce(&g))
    } else {
        None
    }
}

fn entries(g: &Metric) -> [i128; 6] {
    [
        g.aa.get(),
        g.bb.get(),
        g.cc.get(),
        g.bc.get(),
        g.ac.get(),
        g.ab.get(),
    ]
}

/// The reduced metric tensor.
fn reduced(row: [i64; 6]) -> Option<[i128; 6]> {
    Some(entries(&reduction(row)?.metric))
}

/// Whether the reduction leaves the basis as it is.
fn keeps_basis(row: [i64; 6]) -> Option<bool> {
    let found = reduction(row)?;
    Some(found.base == Mat3::identity() && found.back == Mat3::identity())
}

fn wide(row: [i64; 6]) -> [i128; 6] {
    let [aa, bb, cc, bc, ac, ab] = row;
    [
        aa as i128, bb as i128, cc as i128, bc as i128, ac as i128, ab as i128,
    ]
}

/// Three axes of the largest squared length, all nearly parallel.
fn nearly_parallel() -> Metric
    ensures positive { IsPositive (metric_of result) }
    ensures entries { EntriesAtMost (10 ^ 16) (metric_of result) }
{
    let length = Int::new(10_000_000_000_000_000).unwrap();
    let product = Int::new(9_999_999_999_999_999).unwrap();
    Metric {
        aa: length,
        bb: length,
        cc: length,
        bc: product,
        ac: product,
        ab: product,
    }
}

/// The number of the first metric tensor that comes to another one; else how many there are.
fn first_wrongly_reduced() -> usize {
    for i in 0..METRICS.len() {
        let (given, expected) = METRICS[i];
        if reduced(given) != Some(wide(expected)) {
            return i;
        }
    }
    METRICS.len()
}

#[test]
fn metrics_come_to_the_reduced_ones(rt: HostRuntime) {
    assert_eq!(rt; first_wrongly_reduced(), METRICS.len());
}

/// Whether the largest metric tensor comes to the reduced one.
fn is_the_largest_reduced() -> bool {
    entries(&reduce(&nearly_parallel()).metric) == [2, 2, 10_000_000_000_000_000, 1, 1, 1]
}

#[test]
fn nearly_parallel_axes_are_reduced(rt: HostRuntime) {
    assert!(rt; is_the_largest_reduced());
}

/// The number of the first reduced metric tensor whose basis changes; else how many there are.
fn first_changed_basis() -> usize {
    for i in 0..METRICS.len() {
        let (_, reduced) = METRICS[i];
        if keeps_basis(reduced) != Some(true) {
            return i;
        }
    }
    METRICS.len()
}

#[test]
fn a_reduced_metric_keeps_its_basis(rt: HostRuntime) {
    assert_eq!(rt; first_changed_basis(), METRICS.len());
    assert!(rt; keeps_basis([4, 4, 6, -1, 0, 0]) == Some(false));
}

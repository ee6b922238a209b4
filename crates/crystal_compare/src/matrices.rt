// Whether a matrix takes the one metric tensor to the other.

ghost use Rattle.std.specs.Prelude.{◌≡◌, ◌↔◌, ◌*◌, ◌^◌, ◌≤◌, ◌*ℤ◌, pos, IsTrue};
ghost use Rattle.ring.specs.Size.{AtMost};
ghost use Rattle.crystal_spec.specs.Matrices.{determinant, matrix_multiple};
ghost use Rattle.basis_spec.specs.Metrics.{metric_in};
ghost use Rattle.matrix3.specs.Bounds.{EntriesAtMost};
ghost use Rattle.crystal_compare.specs.Maps.{CarriesMetric};
ghost use Rattle.crystal_compare.specs.Search.{AreMetricsOf, IsIsometry};

use crystal::Cell;
use exact_num::Int;
use matrix3::Mat3;

/// The metric tensors of two cells in common units: each times the scale of the other.
#[derive(Clone, Copy)]
pub(crate) struct Metrics {
    pub one: Mat3<Int>,
    pub other: Mat3<Int>,
}

/// Whether the number is 1 or -1.
fn is_unit(h: i128) -> bool
    ensures { IsTrue result ↔ (h *ℤ h ≡ pos 1) }
{
    h == 1 || h == -1
}

/// Whether the determinant of a matrix of small entries is 1 or -1.
fn is_unimodular(w: &Mat3<Int>) -> bool
    requires { EntriesAtMost 1 w.now }
    ensures { IsTrue result ↔ (determinant w.now *ℤ determinant w.now ≡ pos 1) }
{
    is_unit(w.handed().get())
}

/// A matrix times a number.
fn multiple(k: Int, a: &Mat3<Int>) -> Mat3<Int>
    requires factor { AtMost (10 ^ 16) k }
    requires entries { EntriesAtMost (10 ^ 18) a.now }
    ensures value { result ≡ matrix_multiple k a.now }
    ensures size { EntriesAtMost (10 ^ 34) result }
{
    a.multiple(k)
}

/// The metric tensor in the basis whose vectors are the columns of a matrix of small entries.
fn metric_in(w: &Mat3<Int>, g: &Mat3<Int>) -> Mat3<Int>
    requires map { EntriesAtMost 1 w.now }
    requires metric { EntriesAtMost (10 ^ 16) g.now }
    ensures value { result ≡ metric_in w.now g.now }
    ensures size { EntriesAtMost (10 ^ 18) result }
{
    w.transpose().times(&g.times(w))
}

/// The metric tensors of two cells in common units.
pub(crate) fn metrics_of(one: &Cell, other: &Cell) -> Metrics
    ensures { AreMetricsOf one.now other.now result.one result.other }
{
    one.invariant();
    other.invariant();
    Metrics {
        one: multiple(other.scale(), &one.metric().matrix()),
        other: multiple(one.scale(), &other.metric().matrix()),
    }
}

/// Whether the matrix takes the metric tensor of the first cell to that of the second, each in units of its scale.
fn carries_metric(one: &Cell, other: &Cell, w: &Mat3<Int>) -> bool
    requires { EntriesAtMost 1 w.now }
    ensures { IsTrue result ↔ CarriesMetric one.now other.now w.now }
{
    one.invariant();
    other.invariant();
    let turned = metric_in(w, &other.metric().matrix());
    multiple(one.scale(), &turned) == multiple(other.scale(), &one.metric().matrix())
}

/// Whether the matrix is unimodular and takes the metric tensor of the first cell to that of the second.
pub(crate) fn is_isometry(one: &Cell, other: &Cell, w: &Mat3<Int>) -> bool
    requires { EntriesAtMost 1 w.now }
    ensures { IsTrue result ↔ IsIsometry one.now other.now w.now }
{
    is_unimodular(w) && carries_metric(one, other, w)
}

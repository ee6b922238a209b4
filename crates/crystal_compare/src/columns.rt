// Which columns are tried, by their scalar products.

ghost use Rattle.std.specs.Prelude.{◌≡◌, ◌↔◌, ◌<◌, ◌*◌, ◌^◌, ◌≤◌, IsTrue};
ghost use Rattle.ring.specs.Size.{AtMost};
ghost use Rattle.matrix3.specs.Bounds.{EntriesAtMost, CoordinatesAtMost};
ghost use Rattle.lattice_iso.specs.Columns.{scalar_product};
ghost use Rattle.crystal_compare.specs.Search.{IsSecondColumn, IsThirdColumn};

use crate::matrices::Metrics;
use exact_num::Int;
use lattice_iso::product;
use matrix3::Vec3;

/// Whether the column has the length of the first axis.
pub(crate) fn is_first_column(metrics: &Metrics, a: &Vec3<Int>) -> bool
    requires metric { EntriesAtMost (10 ^ 34) metrics.now.other }
    requires a { CoordinatesAtMost 1 a.now }
    ensures { IsTrue result ↔ (scalar_product metrics.now.other a.now a.now ≡ metrics.now.one.a11) }
{
    product(&metrics.other, a, a) == metrics.one.a11
}

/// Whether the column b has the length of the second axis, and its product with a is that of the axes.
pub(crate) fn is_second_column(metrics: &Metrics, a: &Vec3<Int>, b: &Vec3<Int>) -> bool
    requires metric { EntriesAtMost (10 ^ 34) metrics.now.other }
    requires a { CoordinatesAtMost 1 a.now }
    requires b { CoordinatesAtMost 1 b.now }
    ensures { IsTrue result ↔ IsSecondColumn metrics.now.one metrics.now.other a.now b.now }
{
    product(&metrics.other, b, b) == metrics.one.a22
        && product(&metrics.other, a, b) == metrics.one.a12
}

/// Whether the column c has the length of the third axis, and its products with a and b are those of the axes.
pub(crate) fn is_third_column(
    metrics: &Metrics,
    a: &Vec3<Int>,
    b: &Vec3<Int>,
    c: &Vec3<Int>,
) -> bool
    requires metric { EntriesAtMost (10 ^ 34) metrics.now.other }
    requires a { CoordinatesAtMost 1 a.now }
    requires b { CoordinatesAtMost 1 b.now }
    requires c { CoordinatesAtMost 1 c.now }
    ensures { IsTrue result ↔ IsThirdColumn metrics.now.one metrics.now.other a.now b.now c.now }
{
    product(&metrics.other, c, c) == metrics.one.a33
        && product(&metrics.other, a, c) == metrics.one.a13
        && product(&metrics.other, b, c) == metrics.one.a23
}

ghost use Rattle.std.specs.Prelude.{◌≡◌, ◌↔◌, ◌^◌, IsTrue};
ghost use Rattle.crystal_spec.specs.Crystals.{KeepsMetric};
ghost use Rattle.crystal.specs.Views.{metric_of};
ghost use Rattle.matrix3.specs.Bounds.{EntriesAtMost};

use exact_num::Int;
use matrix3::{Mat3, Vec3};

/// The column of these coordinates.
fn column_of(x: Int, y: Int, z: Int) -> Vec3<Int>
    ensures { result ≡ record { x = x; y = y; z = z } }
{
    Vec3 { x, y, z }
}

/// Whether the matrix is an isometry of the metric tensor: wᵀ g w = g.
fn keeps_metric(g: &Mat3<Int>, w: &Mat3<Int>) -> bool
    requires metric { EntriesAtMost (10 ^ 16) g.now }
    requires map { EntriesAtMost 150000000 w.now }
    ensures { IsTrue result ↔ KeepsMetric g.now w.now }
{
    let carried = w.transpose().times(&g.times(w));
    carried == *g
}

/// The metric tensor of the axes a, b and c: their scalar products.
#[derive(Clone, Copy, Debug, PartialEq, Eq)]
pub struct Metric {
    pub aa: Int,
    pub bb: Int,
    pub cc: Int,
    pub bc: Int,
    pub ac: Int,
    pub ab: Int,
}

impl Metric {
    /// The symmetric matrix of the metric tensor: rows (aa ab ac), (ab bb bc), (ac bc cc).
    pub fn matrix(&self) -> Mat3<Int>
        ensures { result ≡ metric_of self.now }
    {
        let g = *self;
        let a = column_of(g.aa, g.ab, g.ac);
        let b = column_of(g.ab, g.bb, g.bc);
        let c = column_of(g.ac, g.bc, g.cc);
        Mat3::of_columns(&a, &b, &c)
    }

    /// Whether the matrix is an isometry of the metric tensor: wᵀ g w = g.
    pub fn is_kept_by(&self, w: &Mat3<Int>) -> bool
        requires metric { EntriesAtMost (10 ^ 16) (metric_of self.now) }
        requires map { EntriesAtMost 150000000 w.now }
        ensures { IsTrue result ↔ KeepsMetric (metric_of self.now) w.now }
    {
        keeps_metric(&self.matrix(), w)
    }
}

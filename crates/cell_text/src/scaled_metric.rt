// A metric tensor with its scale. Its functions stand in `metric.rt`: their contracts cite definitions that see this type.
ghost use Rattle.std.specs.Prelude.{◌<◌, ◌≤◌, ◌^◌};
ghost use Rattle.crystal.specs.Views.{metric_of};
ghost use Rattle.matrix3.specs.Bounds.{EntriesAtMost};

use crystal::Metric;

/// A metric tensor in units of 1/scale.
#[derive(Clone, Copy)]
pub(crate) struct ScaledMetric {
    pub scale: u128,
    pub metric: Metric,
    ghost some: { 0 < scale },
    ghost within: { scale ≤ 10 ^ 9 },
    ghost small: { EntriesAtMost (10 ^ 9) (metric_of metric) },
}

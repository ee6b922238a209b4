// The reduction.

ghost use Rattle.std.specs.Prelude.{◌≡◌, ℕ, ◌^◌, pos, ◌+ℤ◌, ◌≤ℤ◌};
ghost use Rattle.crystal_spec.specs.Matrices.{product, transposed, determinant, identity};
ghost use Rattle.crystal_spec.specs.Crystals.{IsPositive};
ghost use Rattle.lattice_spec.specs.Niggli.{IsNiggli};
ghost use Rattle.crystal.specs.Views.{metric_of};
ghost use Rattle.matrix3.specs.Bounds.{EntriesAtMost};

use crate::choice::choose;
use crate::step::{after_step, identity, step_inverse, step_matrix};
use crystal::Metric;
use exact_num::Int;
use matrix3::Mat3;

/// A reduced metric tensor, the basis change P that leads to it, and the inverse Q = P⁻¹.
///
/// P has the new axes as columns, in the old ones.
#[derive(Clone, Copy, Debug, PartialEq, Eq)]
pub struct Reduced {
    pub metric: Metric,
    pub base: Mat3<Int>,
    pub back: Mat3<Int>,
}

/// A Niggli-reduced metric tensor of the lattice, with a basis change of determinant 1 that leads to it.
///
/// The basis change is the identity where the metric tensor is reduced already. Takes no memory [KG76].
pub fn reduce(metric: &Metric) -> Reduced
    requires positive { IsPositive (metric_of metric.now) }
    requires small { EntriesAtMost (10 ^ 16) (metric_of metric.now) }
    ensures niggli { IsNiggli (metric_of result.metric) }
    ensures metric { product (transposed result.base) (product (metric_of metric.now) result.base) ≡ metric_of result.metric }
    ensures unit_determinant { determinant result.base ≡ pos 1 }
    ensures inverse { product result.base result.back ≡ identity }
    ensures inverse_left { product result.back result.base ≡ identity }
    ensures kept { IsNiggli (metric_of metric.now) → result.base ≡ identity }
    ensures trace { (result.metric.aa +ℤ result.metric.bb +ℤ result.metric.cc) ≤ℤ (metric.now.aa +ℤ metric.now.bb +ℤ metric.now.cc) }
    ensures entries { (m : ℕ) → EntriesAtMost m (metric_of metric.now) → EntriesAtMost m (metric_of result.metric) }
    ensures base_entries { EntriesAtMost (10 ^ 24) result.base }
    ensures back_entries { EntriesAtMost (10 ^ 24) result.back }
{
    let mut now = *metric;
    let mut base = identity();
    let mut back = identity();
    while let Some(step) = choose(&now) {
        now = after_step(&now, &step);
        base = base.times(&step_matrix(&step));
        back = step_inverse(&step).times(&back);
    }
    Reduced {
        metric: now,
        base,
        back,
    }
}

// Metric lines: the least scale, the range, and the metric tensor.
ghost use Rattle.std.specs.Prelude.{◌≡◌, ◌≤◌, ◌<◌, ◌^◌, ◌++◌, int_lt, pos, MatchOption, true, false};
ghost use Rattle.std.specs.List.{list_all};
ghost use Rattle.ring.specs.Size.{AtMost};
ghost use Rattle.crystal.specs.Views.{metric_of as tensor};
ghost use Rattle.plain_text.specs.NumberWords.{scaled, common_denominator};
ghost use Rattle.plain_text.specs.Views.{fraction_of};
ghost use Rattle.cell_text.specs.Entries.{is_metric_in_range, scaled_tensor, metric_of, is_positive, is_billion};
ghost use Rattle.cell_text.specs.Views.{numbers_view};
ghost use Rattle.cell_text.specs.Readers.{metric_view};

use crate::number_words::{are_billions, whole};
use crate::scaled_metric::ScaledMetric;
use crate::three::ThreeNumbers;
use crystal::Metric;
use exact_num::Int;
use plain_text::grown;

/// The least common denominator of six numbers, where it is at most 10^9.
fn scale_of(squares: &ThreeNumbers, products: &ThreeNumbers) -> Option<u128>
    ensures { MatchOption result (1000000000 < common_denominator (numbers_view squares.now ++ numbers_view products.now)) (λ d. (d ≡ common_denominator (numbers_view squares.now ++ numbers_view products.now)) × (0 < d) × (d ≤ 1000000000)) }
{
    let half = grown(1, &squares.a, &squares.b, &squares.c, 1_000_000_000)?;
    let scale = grown(half, &products.a, &products.b, &products.c, 1_000_000_000)?;
    Some(scale)
}

/// The metric tensor in units of 1/d.
fn scaled(squares: &ThreeNumbers, products: &ThreeNumbers, d: u128) -> ScaledMetric
    requires some { 0 < d }
    requires within { d ≤ 1000000000 }
    requires squares { list_all (λ f. is_billion (scaled d f)) (numbers_view squares.now) ≡ true }
    requires products { list_all (λ f. is_billion (scaled d f)) (numbers_view products.now) ≡ true }
    ensures { metric_view result ≡ scaled_tensor d (numbers_view squares.now ++ numbers_view products.now) }
{
    ScaledMetric {
        scale: d,
        metric: Metric {
            aa: whole(&squares.a, d),
            bb: whole(&squares.b, d),
            cc: whole(&squares.c, d),
            bc: whole(&products.a, d),
            ac: whole(&products.b, d),
            ab: whole(&products.c, d),
        },
    }
}

/// The metric tensor of squared lengths and scalar products in units of 1/s with the least s, where it is in range.
pub(crate) fn metric_of(squares: &ThreeNumbers, products: &ThreeNumbers) -> Option<ScaledMetric>
    ensures { MatchOption result (is_metric_in_range (numbers_view squares.now ++ numbers_view products.now) ≡ false) (λ m. (is_metric_in_range (numbers_view squares.now ++ numbers_view products.now) ≡ true) × (metric_view m ≡ metric_of (numbers_view squares.now ++ numbers_view products.now))) }
{
    let scale = scale_of(squares, products)?;
    if !are_billions(squares, scale) || !are_billions(products, scale) {
        return None;
    }
    Some(scaled(squares, products, scale))
}

fn is_above_zero(n: Int) -> bool
    ensures { result ≡ int_lt (pos 0) n }
{
    n.get() > 0
}

impl ScaledMetric {
    /// Whether the three leading minors are positive.
    #[tactic(auto, unfolding(crate::specs::Entries::is_positive))]
    pub fn is_positive(&self) -> bool
        ensures { result ≡ is_positive (tensor self.now.metric) }
    {
        let g = self.metric;
        is_above_zero(g.aa)
            && is_above_zero(g.aa * g.bb - g.ab * g.ab)
            && is_above_zero(g.matrix().handed())
    }
}

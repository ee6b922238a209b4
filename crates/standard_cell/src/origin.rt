// An origin shift over one denominator.

ghost use Rattle.std.specs.Prelude.{◌≡◌, ◌^◌, ◌<◌, ◌≤◌, ◌*ℤ◌, ◌<ℤ◌, pos, ℕ, IfSome, IfNone};
ghost use Rattle.std.specs.Int.{◌∣◌};
ghost use Rattle.ring.specs.Size.{AtMost};
ghost use Rattle.numbers.specs.Gcd.{IsLcm};
ghost use Rattle.exact_num.specs.Meanings.{fraction_of};
ghost use Rattle.standard_cell.specs.PlaceDivisors.{IsMultiple};
ghost use Rattle.standard_cell.specs.Origins.{IsOrigin, DenominatorsDivide};

use exact_num::{Frac, Int, lcm_within};
use matrix3::Vec3;

/// An origin shift: three numerators over one denominator.
#[derive(Clone, Copy, Debug)]
pub(crate) struct Origin {
    pub(crate) shift: Vec3<Int>,
    pub(crate) parts: Int,
}

/// The least common multiple, or `None` where it passes 10^12.
fn common_multiple(a: u128, b: u128) -> Option<u128>
    requires a { 0 < a }
    requires b { 0 < b }
    ensures found { IfSome result (λ m. IsLcm a b m) }
    ensures positive { IfSome result (λ m. 0 < m) }
    ensures bound { IfSome result (λ m. m ≤ 10 ^ 12) }
    ensures absent { IfNone result ((k : ℕ) → 0 < k → a ∣ k → b ∣ k → 10 ^ 12 < k) }
{
    lcm_within(a, b, 1_000_000_000_000)
}

/// The denominator of a fraction.
fn denominator(f: &Frac) -> u128
    ensures value { pos result ≡ (fraction_of f.now).denominator }
    ensures positive { 0 < result }
{
    f.den().unsigned_abs()
}

/// The denominator as an exact integer.
fn whole_denominator(f: &Frac) -> Int
    ensures value { result ≡ (fraction_of f.now).denominator }
    ensures positive { pos 0 <ℤ result }
{
    Int::new(f.den()).unwrap()
}

/// The numerator as an exact integer.
fn whole_numerator(f: &Frac) -> Int
    ensures value { result ≡ (fraction_of f.now).numerator }
    ensures size { AtMost (10 ^ 24) result }
{
    Int::new(f.num()).unwrap()
}

/// A natural number up to 10^12 as an exact integer.
fn whole_multiple(m: u128) -> Int
    requires positive { 0 < m }
    requires small { m ≤ 10 ^ 12 }
    ensures value { result ≡ pos m }
    ensures positive { pos 0 <ℤ result }
    ensures size { AtMost (10 ^ 12) result }
{
    Int::new(m as i128).unwrap()
}

/// The numerator of a fraction over a multiple of its denominator.
fn numerator(f: &Frac, parts: Int) -> Int
    requires size { AtMost (10 ^ 12) parts }
    requires divides { IsMultiple (fraction_of f.now).denominator parts }
    ensures { result *ℤ (fraction_of f.now).denominator ≡ (fraction_of f.now).numerator *ℤ parts }
{
    let share = parts.div_exact(&whole_denominator(f)).unwrap();
    whole_numerator(f) * share
}

/// The three fractions over their least common denominator, or `None` where that passes 10^12.
pub(crate) fn common_origin(origin: &Vec3<Frac>) -> Option<Origin>
    ensures found { IfSome result (IsOrigin origin.now) }
    ensures absent { IfNone result ((k : ℕ) → 0 < k → DenominatorsDivide origin.now k → 10 ^ 12 < k) }
{
    let two = common_multiple(denominator(&origin.x), denominator(&origin.y))?;
    let all = common_multiple(two, denominator(&origin.z))?;
    let parts = whole_multiple(all);
    Some(Origin {
        shift: Vec3 {
            x: numerator(&origin.x, parts),
            y: numerator(&origin.y, parts),
            z: numerator(&origin.z, parts),
        },
        parts,
    })
}

// Fractions in lowest terms.

ghost use Rattle.std.specs.Prelude.{◌≡◌, ◌≢◌, ◌^◌, ◌*◌, ◌↔◌, ◌<ℤ◌, pos, int_div, unsigned_abs, IfSome, IsSome};
ghost use Rattle.ring.specs.Size.{AtMost};
ghost use Rattle.numbers.specs.Gcd.{gcd as greatest};
ghost use Rattle.numbers.specs.Fraction.{fraction, IsLowest, lowest, plus, multiply, quotient, reciprocal};
ghost use Rattle.exact_num.specs.Small.{IsSmall};

use crate::divisor::gcd;
use crate::exact::Exact;
use std::ops::{Add, Mul, Neg, Sub};

/// A fraction in lowest terms: numerator of size up to 10^24, denominator from 1 to 10^12.
///
/// The operators ask that the result, in lowest terms, is within these bounds.
#[derive(Clone, Copy, PartialEq, Eq, Debug)]
pub struct Frac {
    num: i128,
    den: i128,
    ghost lowest: { IsLowest (fraction num den) },
    ghost small: { IsSmall (fraction num den) },
}

// The quotient by a positive number, rounded toward zero.
fn part(a: i128, d: i128) -> i128
    requires { pos 0 <ℤ d }
    ensures { result ≡ int_div a d }
{
    a / d
}

// Both numbers, divided by their greatest common divisor.
fn cancel(num: i128, den: i128) -> (i128, i128)
    requires positive { pos 0 <ℤ den }
    requires num_size { AtMost (2 * 10 ^ 36) num }
    ensures num { result.0 ≡ int_div num (pos (greatest (unsigned_abs num) (unsigned_abs den))) }
    ensures den { result.1 ≡ int_div den (pos (greatest (unsigned_abs num) (unsigned_abs den))) }
{
    let divisor = gcd(num.abs(), den);
    (part(num, divisor), part(den, divisor))
}

// Two numbers in lowest terms as a fraction, or `None` where they pass the bounds.
fn within_bounds(num: i128, den: i128) -> Option<Frac>
    requires { IsLowest (fraction num den) }
    ensures value { IfSome result (λ r. fraction r.num r.den ≡ fraction num den) }
    ensures exact { IsSome result ↔ IsSmall (fraction num den) }
{
    if -1_000_000_000_000_000_000_000_000 <= num
        && num <= 1_000_000_000_000_000_000_000_000
        && den <= 1_000_000_000_000
    {
        Some(Frac { num, den })
    } else {
        None
    }
}

// The lowest terms of num / den, or `None` where they pass the bounds.
fn reduce(num: i128, den: i128) -> Option<Frac>
    requires positive { pos 0 <ℤ den }
    requires num_size { AtMost (2 * 10 ^ 36) num }
    ensures value { IfSome result (λ r. fraction r.num r.den ≡ lowest num den) }
    ensures exact { IsSome result ↔ IsSmall (lowest num den) }
{
    let (lowest_num, lowest_den) = cancel(num, den);
    within_bounds(lowest_num, lowest_den)
}

// The product of a / b and c / d, cancelled crosswise, or `None` where it passes the bounds.
fn cross(a: i128, b: i128, c: i128, d: i128) -> Option<Frac>
    requires first { IsLowest (fraction a b) }
    requires second { IsLowest (fraction c d) }
    requires a_size { AtMost (10 ^ 24) a }
    requires c_size { AtMost (10 ^ 24) c }
    ensures value { IfSome result (λ r. fraction r.num r.den ≡ multiply (fraction a b) (fraction c d)) }
    ensures exact { IsSome result ↔ IsSmall (multiply (fraction a b) (fraction c d)) }
{
    let (x, w) = cancel(a, d);
    let (z, y) = cancel(c, b);
    let num = x.checked_mul(z)?;
    let den = y.checked_mul(w)?;
    within_bounds(num, den)
}

impl Frac {
    ghost use Rattle.exact_num.specs.Meanings.{fraction_of};

    /// The numerator in lowest terms, of size up to 10^24.
    pub fn num(&self) -> i128
        ensures value { result ≡ (fraction_of self.now).numerator }
        ensures size { AtMost (10 ^ 24) result }
    {
        self.num
    }

    /// The denominator in lowest terms, from 1 to 10^12.
    pub fn den(&self) -> i128
        ensures value { result ≡ (fraction_of self.now).denominator }
        ensures positive { pos 0 <ℤ result }
        ensures size { AtMost (10 ^ 12) result }
    {
        self.den
    }

    /// num / den in lowest terms, or `None` where den is 0 or they pass the bounds.
    ///
    /// Asks that num and den are of size up to 10^36.
    pub fn new(num: i128, den: i128) -> Option<Frac>
        requires num_size { AtMost (10 ^ 36) num }
        requires den_size { AtMost (10 ^ 36) den }
        ensures value { IfSome result (λ r. fraction_of r ≡ quotient num den) }
        ensures exact { IsSome result ↔ (den ≢ pos 0) × IsSmall (quotient num den) }
    {
        if den == 0 {
            None
        } else if den < 0 {
            reduce(-num, -den)
        } else {
            reduce(num, den)
        }
    }

    // The sum, or `None` where it passes the bounds.
    fn sum(&self, other: &Frac) -> Option<Frac>
        ensures value { IfSome result (λ r. fraction_of r ≡ plus (fraction_of self.now) (fraction_of other.now)) }
        ensures exact { IsSome result ↔ IsSmall (plus (fraction_of self.now) (fraction_of other.now)) }
    {
        reduce(
            self.num * other.den + other.num * self.den,
            self.den * other.den,
        )
    }

    // The product, or `None` where it passes the bounds.
    fn product(&self, other: &Frac) -> Option<Frac>
        ensures value { IfSome result (λ r. fraction_of r ≡ multiply (fraction_of self.now) (fraction_of other.now)) }
        ensures exact { IsSome result ↔ IsSmall (multiply (fraction_of self.now) (fraction_of other.now)) }
    {
        cross(self.num, self.den, other.num, other.den)
    }

    /// The quotient in lowest terms, or `None` where the other is 0 or it passes the bounds.
    pub fn checked_div(&self, other: &Frac) -> Option<Frac>
        ensures value { IfSome result (λ r. fraction_of r ≡ multiply (fraction_of self.now) (reciprocal (fraction_of other.now))) }
        ensures exact { IsSome result ↔ ((fraction_of other.now).numerator ≢ pos 0)
            × IsSmall (multiply (fraction_of self.now) (reciprocal (fraction_of other.now))) }
    {
        if other.num == 0 {
            None
        } else if other.num < 0 {
            cross(self.num, self.den, -other.den, -other.num)
        } else {
            cross(self.num, self.den, other.den, other.num)
        }
    }
}

impl Add<Frac> for Frac {
    ghost use Rattle.std.specs.Prelude.{◌≡◌};
    ghost use Rattle.numbers.specs.Fraction.{plus};
    ghost use Rattle.exact_num.specs.Small.{IsSmall};
    ghost use Rattle.exact_num.specs.Meanings.{fraction_of};

    type Output = Frac;

    ghost can_add = { λ a b. IsSmall (plus (fraction_of a) (fraction_of b)) };

    ghost add_gives = { λ a b r. fraction_of r ≡ plus (fraction_of a) (fraction_of b) };

    fn add(self, rhs: Frac) -> Frac {
        self.sum(&rhs).unwrap()
    }
}

impl Neg for Frac {
    ghost use Rattle.std.specs.Prelude.{◌≡◌};
    ghost use Rattle.numbers.specs.Fraction.{negative};
    ghost use Rattle.exact_num.specs.Small.{IsSmall};
    ghost use Rattle.exact_num.specs.Meanings.{fraction_of};

    type Output = Frac;

    ghost can_neg = { λ a. IsSmall (negative (fraction_of a)) };

    ghost neg_gives = { λ a r. fraction_of r ≡ negative (fraction_of a) };

    fn neg(self) -> Frac {
        Frac {
            num: -self.num,
            den: self.den,
        }
    }
}

impl Sub<Frac> for Frac {
    ghost use Rattle.std.specs.Prelude.{◌≡◌};
    ghost use Rattle.numbers.specs.Fraction.{plus, negative};
    ghost use Rattle.exact_num.specs.Small.{IsSmall};
    ghost use Rattle.exact_num.specs.Meanings.{fraction_of};

    type Output = Frac;

    ghost can_sub = { λ a b. IsSmall (plus (fraction_of a) (negative (fraction_of b))) };

    ghost sub_gives = { λ a b r. fraction_of r ≡ plus (fraction_of a) (negative (fraction_of b)) };

    fn sub(self, rhs: Frac) -> Frac {
        self.sum(&-rhs).unwrap()
    }
}

impl Mul<Frac> for Frac {
    ghost use Rattle.std.specs.Prelude.{◌≡◌};
    ghost use Rattle.numbers.specs.Fraction.{multiply};
    ghost use Rattle.exact_num.specs.Small.{IsSmall};
    ghost use Rattle.exact_num.specs.Meanings.{fraction_of};

    type Output = Frac;

    ghost can_mul = { λ a b. IsSmall (multiply (fraction_of a) (fraction_of b)) };

    ghost mul_gives = { λ a b r. fraction_of r ≡ multiply (fraction_of a) (fraction_of b) };

    fn mul(self, rhs: Frac) -> Frac {
        self.product(&rhs).unwrap()
    }
}

impl Exact for Frac {
    ghost use Rattle.std.specs.Prelude.{ℕ};
    ghost use Rattle.numbers.specs.Fraction.{Fraction, fraction_ops, IsLowest};
    ghost use Rattle.numbers.proofs.FractionRing.{fraction_laws};
    ghost use Rattle.exact_num.specs.Small.{IsSmall};
    ghost use Rattle.exact_num.specs.Meanings.{fraction_of};
    ghost use Rattle.std.proofs.Common.{refl};

    ghost Meaning = { Fraction };

    ghost meaning = { fraction_of };

    ghost modulus = { λ _. 0 };

    ghost ring = { λ _. fraction_ops };

    ghost IsProper = { λ _. IsLowest };

    ghost fits = { IsSmall };

    fn zero_like(&self) -> Frac {
        Frac { num: 0, den: 1 }
    }

    fn one_like(&self) -> Frac {
        Frac { num: 1, den: 1 }
    }

    fn is_zero(&self) -> bool {
        self.num == 0
    }

    fn checked_add(&self, other: &Frac) -> Option<Frac> {
        self.sum(other)
    }

    fn checked_mul(&self, other: &Frac) -> Option<Frac> {
        self.product(other)
    }

    ghost proper = { λ a. a.lowest };

    ghost can_add_law = { λ a b m h. h };

    ghost add_law = { λ a b r m h. (refl, h) };

    ghost can_sub_law = { λ a b m h. h };

    ghost sub_law = { λ a b r m h. (refl, h) };

    ghost can_mul_law = { λ a b m h. h };

    ghost mul_law = { λ a b r m h. (refl, h) };

    ghost can_neg_law = { λ a h. h };

    ghost neg_law = { λ a r h. (refl, h) };

    ghost laws = { λ m. fraction_laws };
}

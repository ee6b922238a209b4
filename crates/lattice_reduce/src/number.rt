// Comparisons of exact integers, and the multiple of one that is nearest to another.

ghost use Rattle.std.specs.Prelude.{◌≡◌, ◌≢◌, ◌^◌, ◌+ℤ◌, ◌*ℤ◌, neg_ℤ, pos, ◌≤ℤ◌, ◌<ℤ◌, ◌⊎◌};
ghost use Rattle.std.specs.Bool.{MatchBool};
ghost use Rattle.ring.specs.Size.{AtMost};
ghost use Rattle.lattice_spec.specs.Niggli.{size, twice};

use exact_num::Int;

/// A small integer.
pub(crate) fn whole(value: i8) -> Int
    ensures { result ≡ value }
{
    Int::new(value as i128).unwrap()
}

/// Whether a is below b.
pub(crate) fn is_less(a: Int, b: Int) -> bool
    ensures { MatchBool result (a <ℤ b) (b ≤ℤ a) }
{
    a.get() < b.get()
}

/// Whether a is b.
pub(crate) fn is_equal(a: Int, b: Int) -> bool
    ensures { MatchBool result (a ≡ b) (a ≢ b) }
{
    a.get() == b.get()
}

/// Whether a is above 0.
pub(crate) fn is_positive(a: Int) -> bool
    ensures { MatchBool result (pos 0 <ℤ a) (a ≤ℤ pos 0) }
{
    a.get() > 0
}

/// Whether a is below 0.
pub(crate) fn is_negative(a: Int) -> bool
    ensures { MatchBool result (a <ℤ pos 0) (pos 0 ≤ℤ a) }
{
    a.get() < 0
}

/// Whether a is 0.
pub(crate) fn is_zero(a: Int) -> bool
    ensures { MatchBool result (a ≡ pos 0) (a ≢ pos 0) }
{
    a.get() == 0
}

/// 2 a
pub(crate) fn twice(a: Int) -> Int
    requires { AtMost (10 ^ 30) a }
    ensures { result ≡ twice a }
{
    a + a
}

/// The absolute value.
pub(crate) fn size(a: Int) -> Int
    requires { AtMost (10 ^ 30) a }
    ensures { result ≡ size a }
{
    if is_negative(a) { -a } else { a }
}

/// a - k b
pub(crate) fn less(a: Int, k: Int, b: Int) -> Int
    requires product { AtMost (10 ^ 36) (k *ℤ b) }
    requires difference { AtMost (10 ^ 36) (a +ℤ neg_ℤ (k *ℤ b)) }
    ensures { result ≡ a +ℤ neg_ℤ (k *ℤ b) }
{
    a - k * b
}

/// Whether a is above b, or equal to it while x is larger in size than y.
pub(crate) fn is_above(a: Int, b: Int, x: Int, y: Int) -> bool
    requires x_small { AtMost (10 ^ 30) x }
    requires y_small { AtMost (10 ^ 30) y }
    ensures { MatchBool result ((b <ℤ a) ⊎ ((a ≡ b) × (size y <ℤ size x))) ((a ≤ℤ b) × (a ≡ b → size x ≤ℤ size y)) }
{
    if is_less(b, a) {
        true
    } else if is_equal(a, b) {
        is_less(size(y), size(x))
    } else {
        false
    }
}

/// Whether twice x is larger in size than a.
pub(crate) fn is_long(x: Int, a: Int) -> bool
    requires { AtMost (10 ^ 20) x }
    ensures { MatchBool result (a <ℤ size (twice x)) (size (twice x) ≤ℤ a) }
{
    is_less(a, size(twice(x)))
}

/// Whether twice x is a, and twice y is below z.
pub(crate) fn is_edge(x: Int, a: Int, y: Int, z: Int) -> bool
    requires x_small { AtMost (10 ^ 20) x }
    requires y_small { AtMost (10 ^ 20) y }
    requires z_small { AtMost (10 ^ 20) z }
    ensures { MatchBool result ((twice x ≡ a) × (twice (twice y) <ℤ twice z)) (twice x ≡ a → twice z ≤ℤ twice (twice y)) }
{
    if is_equal(twice(x), a) {
        is_less(twice(twice(y)), twice(z))
    } else {
        false
    }
}

/// Whether twice x is -a, and z is negative.
pub(crate) fn is_back_edge(x: Int, a: Int, z: Int) -> bool
    requires x_small { AtMost (10 ^ 20) x }
    requires a_small { AtMost (10 ^ 20) a }
    ensures { MatchBool result ((twice x ≡ neg_ℤ a) × (z <ℤ pos 0)) (twice x ≡ neg_ℤ a → pos 0 ≤ℤ z) }
{
    if is_equal(twice(x), -a) {
        is_negative(z)
    } else {
        false
    }
}

/// A quotient, rounded towards 0, and the rest.
#[derive(Clone, Copy)]
pub(crate) struct Division {
    pub(crate) quotient: Int,
    pub(crate) rest: Int,
}

/// x divided by a.
fn divide(x: Int, a: Int) -> Division
    requires positive { pos 0 <ℤ a }
    requires x_small { AtMost (10 ^ 20) x }
    requires a_small { AtMost (10 ^ 20) a }
    ensures whole { result.quotient *ℤ a +ℤ result.rest ≡ x }
    ensures rest { size result.rest <ℤ a }
{
    let dividend = x.get();
    let divisor = a.get();
    Division {
        quotient: Int::new(dividend / divisor).unwrap(),
        rest: Int::new(dividend % divisor).unwrap(),
    }
}

/// The multiple of a that is nearest to x.
pub(crate) fn nearest(x: Int, a: Int) -> Int
    requires positive { pos 0 <ℤ a }
    requires x_small { AtMost (10 ^ 20) x }
    requires a_small { AtMost (10 ^ 20) a }
    ensures rest { size (twice (x +ℤ neg_ℤ (result *ℤ a))) ≤ℤ a }
    ensures small { AtMost (10 ^ 22) result }
{
    let parts = divide(x, a);
    let twice_rest = twice(parts.rest);
    if is_less(a, twice_rest) {
        parts.quotient + whole(1)
    } else if is_less(twice_rest, -a) {
        parts.quotient - whole(1)
    } else {
        parts.quotient
    }
}

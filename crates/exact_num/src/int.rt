// Integers of size up to 10^36.

ghost use Rattle.std.specs.Prelude.{◌≡◌, ◌≢◌, ℤ, pos, ◌^◌, ◌+ℤ◌, ◌-ℤ◌, ◌*ℤ◌, neg_ℤ, IfSome, IfNone, ◌↔◌, IsSome};
ghost use Rattle.ring.specs.Size.{AtMost};

use crate::exact::Exact;
use std::marker::Model;
use std::ops::{Add, Mul, Neg, Sub};

/// An integer of size up to 10^36. In a contract it is the integer.
///
/// The operators ask that the result is within this bound.
#[derive(Clone, Copy, Debug, PartialEq, Eq, PartialOrd, Ord)]
pub struct Int {
    value: i128,
}

impl Model for Int {
    ghost use Rattle.std.specs.Prelude.{ℤ, ◌^◌};
    ghost use Rattle.ring.specs.Size.{AtMost};

    ghost Value = { ℤ };

    ghost view = { λ a. a.value };

    ghost invariant = { λ a. AtMost (10 ^ 36) a.value };

    ghost inverse = { λ z. record { value = z } };
}

impl Int {
    /// v as an `Int`, or `None` where its size passes 10^36.
    pub fn new(v: i128) -> Option<Int>
        ensures value { IfSome result (λ r. r ≡ v) }
        ensures exact { IsSome result ↔ AtMost (10 ^ 36) v }
    {
        if -1_000_000_000_000_000_000_000_000_000_000_000_000 <= v
            && v <= 1_000_000_000_000_000_000_000_000_000_000_000_000
        {
            Some(Int { value: v })
        } else {
            None
        }
    }

    /// The quotient, or `None` where the other is 0 or does not divide this one.
    pub fn div_exact(&self, other: &Int) -> Option<Int>
        ensures value { IfSome result (λ r. r *ℤ other.now ≡ self.now) }
        ensures exact { IsSome result ↔ (other.now ≢ pos 0) × ((q : ℤ) × (q *ℤ other.now ≡ self.now)) }
    {
        if other.value == 0 {
            None
        } else if self.value % other.value == 0 {
            Some(Int {
                value: self.value / other.value,
            })
        } else {
            None
        }
    }

    /// The number, of size up to 10^36.
    pub fn get(&self) -> i128
        ensures value { result ≡ self.now }
        ensures size { AtMost (10 ^ 36) self.now }
    {
        self.value
    }
}

impl From<u32> for Int {
    ghost from_gives = { λ number z. z ≡ pos number };

    fn from(number: u32) -> Int {
        Int {
            value: number as i128,
        }
    }
}

impl From<i8> for Int {
    ghost from_gives = { λ number z. z ≡ number };

    fn from(number: i8) -> Int {
        Int {
            value: number as i128,
        }
    }
}

impl Add<Int> for Int {
    type Output = Int;

    ghost can_add = { λ a b. AtMost (10 ^ 36) (a +ℤ b) };

    ghost add_gives = { λ a b r. r ≡ a +ℤ b };

    fn add(self, rhs: Int) -> Int {
        Int {
            value: self.value + rhs.value,
        }
    }
}

impl Sub<Int> for Int {
    type Output = Int;

    ghost can_sub = { λ a b. AtMost (10 ^ 36) (a -ℤ b) };

    ghost sub_gives = { λ a b r. r ≡ a -ℤ b };

    fn sub(self, rhs: Int) -> Int {
        Int {
            value: self.value - rhs.value,
        }
    }
}

impl Mul<Int> for Int {
    type Output = Int;

    ghost can_mul = { λ a b. AtMost (10 ^ 36) (a *ℤ b) };

    ghost mul_gives = { λ a b r. r ≡ a *ℤ b };

    fn mul(self, rhs: Int) -> Int {
        Int {
            value: self.value * rhs.value,
        }
    }
}

impl Neg for Int {
    type Output = Int;

    ghost can_neg = { λ a. AtMost (10 ^ 36) (neg_ℤ a) };

    ghost neg_gives = { λ a r. r ≡ neg_ℤ a };

    fn neg(self) -> Int {
        Int { value: -self.value }
    }
}

impl Exact for Int {
    ghost use Rattle.std.specs.Prelude.{◌^◌, ℤ};
    ghost use Rattle.ring.specs.Size.{AtMost};
    ghost use Rattle.ring.specs.Ring.{int_ops};
    ghost use Rattle.exact_num.specs.Integers.{integers_on};
    ghost use Rattle.std.proofs.Common.{refl};

    ghost Meaning = { ℤ };

    ghost meaning = { λ a. a };

    ghost modulus = { λ _. 0 };

    ghost ring = { λ _. int_ops };

    ghost IsProper = { λ _ _. Unit {0} };

    ghost fits = { λ z. AtMost (10 ^ 36) z };

    fn zero_like(&self) -> Int {
        Int { value: 0 }
    }

    fn one_like(&self) -> Int {
        Int { value: 1 }
    }

    fn is_zero(&self) -> bool {
        self.value == 0
    }

    fn checked_add(&self, other: &Int) -> Option<Int> {
        Int::new(self.value + other.value)
    }

    fn checked_mul(&self, other: &Int) -> Option<Int> {
        Int::new(self.value.checked_mul(other.value)?)
    }

    ghost proper = { λ a. tt };

    ghost can_add_law = { λ a b m h. h };

    ghost add_law = { λ a b r m h. (refl, h) };

    ghost can_sub_law = { λ a b m h. h };

    ghost sub_law = { λ a b r m h. (refl, h) };

    ghost can_mul_law = { λ a b m h. h };

    ghost mul_law = { λ a b r m h. (refl, h) };

    ghost can_neg_law = { λ a h. h };

    ghost neg_law = { λ a r h. (refl, h) };

    ghost laws = { integers_on };
}

// Matrices and columns of integers: the identity, multiples, sums, differences and remainders.

ghost use Rattle.std.specs.Prelude.{◌≡◌, ◌^◌, ◌*ℤ◌, ◌<ℤ◌, pos};
ghost use Rattle.std.specs.Int.{int_rem_euclid};
ghost use Rattle.ring.specs.Ring.{int_ops};
ghost use Rattle.ring.specs.Size.{AtMost};
ghost use Rattle.matrix3.specs.Matrices.{scalar, matrix_map, sum_of, difference, multiple};
ghost use Rattle.matrix3.specs.Bounds.{EntriesAtMost, CoordinatesAtMost};

use crate::matrix::Mat3;
use crate::vector::Vec3;
use exact_num::Int;

// The remainder of a number by a positive one, from 0.
fn remainder(a: Int, d: Int) -> Int
    requires { pos 0 <ℤ d }
    ensures { result ≡ int_rem_euclid a d }
{
    Int::new(a.get().rem_euclid(d.get())).unwrap()
}

impl Mat3<Int> {
    /// The identity matrix.
    pub fn identity() -> Mat3<Int>
        ensures { result ≡ scalar int_ops (pos 1) }
    {
        let (zero, one) = (Int::from(0u32), Int::from(1u32));
        Mat3 {
            a11: one,
            a12: zero,
            a13: zero,
            a21: zero,
            a22: one,
            a23: zero,
            a31: zero,
            a32: zero,
            a33: one,
        }
    }

    /// A multiple of the matrix.
    ///
    /// Asks that the nine products are values of `Int`.
    pub fn multiple(&self, k: Int) -> Mat3<Int>
        requires fits { EntriesAtMost (10 ^ 36) (matrix_map (λ x. k *ℤ x) self.now) }
        ensures { result ≡ matrix_map (λ x. k *ℤ x) self.now }
    {
        let a = *self;
        Mat3 {
            a11: k * a.a11,
            a12: k * a.a12,
            a13: k * a.a13,
            a21: k * a.a21,
            a22: k * a.a22,
            a23: k * a.a23,
            a31: k * a.a31,
            a32: k * a.a32,
            a33: k * a.a33,
        }
    }
}

impl Vec3<Int> {
    /// The sum of two columns.
    ///
    /// Asks that the three sums are values of `Int`.
    pub fn plus(&self, other: &Vec3<Int>) -> Vec3<Int>
        requires fits { CoordinatesAtMost (10 ^ 36) (sum_of int_ops self.now other.now) }
        ensures { result ≡ sum_of int_ops self.now other.now }
    {
        let (a, b) = (*self, *other);
        Vec3 {
            x: a.x + b.x,
            y: a.y + b.y,
            z: a.z + b.z,
        }
    }

    /// The difference of two columns.
    ///
    /// Asks that the three differences are values of `Int`.
    pub fn minus(&self, other: &Vec3<Int>) -> Vec3<Int>
        requires fits { CoordinatesAtMost (10 ^ 36) (difference int_ops self.now other.now) }
        ensures { result ≡ difference int_ops self.now other.now }
    {
        let (a, b) = (*self, *other);
        Vec3 {
            x: a.x - b.x,
            y: a.y - b.y,
            z: a.z - b.z,
        }
    }

    /// A multiple of the column.
    ///
    /// Asks that the three products are values of `Int`.
    pub fn multiple(&self, k: Int) -> Vec3<Int>
        requires fits { CoordinatesAtMost (10 ^ 36) (multiple int_ops k self.now) }
        ensures { result ≡ multiple int_ops k self.now }
    {
        let a = *self;
        Vec3 {
            x: k * a.x,
            y: k * a.y,
            z: k * a.z,
        }
    }

    /// The column of the remainders by a positive number, each from 0.
    pub fn remainders(&self, d: Int) -> Vec3<Int>
        requires positive { pos 0 <ℤ d }
        ensures x { result.x ≡ int_rem_euclid self.now.x d }
        ensures y { result.y ≡ int_rem_euclid self.now.y d }
        ensures z { result.z ≡ int_rem_euclid self.now.z d }
    {
        let a = *self;
        Vec3 {
            x: remainder(a.x, d),
            y: remainder(a.y, d),
            z: remainder(a.z, d),
        }
    }
}

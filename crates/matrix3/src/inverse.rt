// Inverse matrices of integers and of fractions.

ghost use Rattle.std.specs.Prelude.{◌≡◌, ◌≢◌, ◌↔◌, ◌^◌, ◌*ℤ◌, pos, IfSome, IfNone, IsSome};
ghost use Rattle.ring.specs.Ring.{int_ops};
ghost use Rattle.ring.specs.Size.{AtMost};
ghost use Rattle.numbers.specs.Fraction.{fraction_ops, whole};
ghost use Rattle.exact_num.specs.Small.{IsSmall};
ghost use Rattle.exact_num.specs.Meanings.{fraction_of};
ghost use Rattle.matrix3.specs.Matrices.{determinant, matrix_map, EachEntry};
ghost use Rattle.matrix3.specs.Fits.{DeterminantFits, AdjugateFits};
ghost use Rattle.matrix3.specs.Inverse.{IsInverse, IsUnit, QuotientsFit, quotient_by};

use crate::matrix::Mat3;
use exact_num::{Exact, Frac, Int};

// Each entry times k.
fn multiple(a: &Mat3<Int>, k: Int) -> Mat3<Int>
    requires { EachEntry (AtMost (10 ^ 36)) (matrix_map (λ x. x *ℤ k) a.now) }
    ensures { result ≡ matrix_map (λ x. x *ℤ k) a.now }
{
    let a = *a;
    Mat3 {
        a11: a.a11 * k,
        a12: a.a12 * k,
        a13: a.a13 * k,
        a21: a.a21 * k,
        a22: a.a22 * k,
        a23: a.a23 * k,
        a31: a.a31 * k,
        a32: a.a32 * k,
        a33: a.a33 * k,
    }
}

// The quotient of two fractions, the second not 0.
fn divided(a: Frac, by: &Frac) -> Frac
    requires nonzero { (fraction_of by.now).numerator ≢ pos 0 }
    requires fits { IsSmall (quotient_by (fraction_of by.now) (fraction_of a)) }
    ensures { fraction_of result ≡ quotient_by (fraction_of by.now) (fraction_of a) }
{
    a.checked_div(by).unwrap()
}

// Each entry divided by a fraction that is not 0.
fn quotients(a: &Mat3<Frac>, by: &Frac) -> Mat3<Frac>
    requires nonzero { (fraction_of by.now).numerator ≢ pos 0 }
    requires fits { EachEntry IsSmall (matrix_map (quotient_by (fraction_of by.now)) (matrix_map fraction_of a.now)) }
    ensures { matrix_map fraction_of result ≡ matrix_map (quotient_by (fraction_of by.now)) (matrix_map fraction_of a.now) }
{
    let a = *a;
    Mat3 {
        a11: divided(a.a11, by),
        a12: divided(a.a12, by),
        a13: divided(a.a13, by),
        a21: divided(a.a21, by),
        a22: divided(a.a22, by),
        a23: divided(a.a23, by),
        a31: divided(a.a31, by),
        a32: divided(a.a32, by),
        a33: divided(a.a33, by),
    }
}

impl Mat3<Int> {
    /// The inverse of a matrix of determinant 1 or -1: the adjugate times the determinant.
    ///
    /// Asks that the products and sums of the determinant and of the adjugate are values of the type.
    pub fn inverse_unit(&self) -> Mat3<Int>
        requires unit_determinant { IsUnit (determinant int_ops self.now) }
        requires determinant_fits { DeterminantFits int_ops (AtMost (10 ^ 36)) self.now }
        requires adjugate_fits { AdjugateFits int_ops (AtMost (10 ^ 36)) self.now }
        ensures { IsInverse int_ops self.now result }
    {
        multiple(&self.adjugate(), self.handed())
    }
}

impl Mat3<Frac> {
    /// The inverse, or `None` exactly where the determinant is 0: the adjugate divided by the determinant.
    ///
    /// Asks that the products and sums of the determinant are values of the type and, where it is not 0, that those of
    /// the adjugate and the quotients of its entries by the determinant are.
    pub fn inverse(&self) -> Option<Mat3<Frac>>
        requires determinant_fits { DeterminantFits fraction_ops IsSmall (matrix_map fraction_of self.now) }
        requires quotients_fit { determinant fraction_ops (matrix_map fraction_of self.now) ≢ whole (pos 0)
            → QuotientsFit (matrix_map fraction_of self.now) }
        ensures found { IfSome result (λ r. IsInverse fraction_ops (matrix_map fraction_of self.now) (matrix_map fraction_of r)) }
        ensures exact { IsSome result ↔ (determinant fraction_ops (matrix_map fraction_of self.now) ≢ whole (pos 0)) }
        ensures absent { IfNone result (determinant fraction_ops (matrix_map fraction_of self.now) ≡ whole (pos 0)) }
    {
        let determinant = self.handed();
        if determinant.is_zero() {
            None
        } else {
            Some(quotients(&self.adjugate(), &determinant))
        }
    }
}

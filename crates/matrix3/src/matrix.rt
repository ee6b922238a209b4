// Three by three matrices.

ghost use Rattle.std.specs.Prelude.{◌≡◌};
ghost use Rattle.matrix3.specs.Matrices.{dot, minor, alternating, product, image, transposed, determinant, adjugate, of_columns, column1, column2, column3, matrix_map, vector_map};
ghost use Rattle.matrix3.specs.Fits.{FiveOfModulus, MatrixOfModulus, VectorOfModulus, DotFits, MinorFits, AlternatingFits, ProductFits, ImageFits, DeterminantFits, AdjugateFits};

use crate::vector::Vec3;
use exact_num::Exact;

/// A three by three matrix, row by row: `a12` stands in row 1 and column 2.
#[derive(Clone, Copy, Debug, PartialEq, Eq, PartialOrd, Ord)]
pub struct Mat3<T> {
    pub a11: T,
    pub a12: T,
    pub a13: T,
    pub a21: T,
    pub a22: T,
    pub a23: T,
    pub a31: T,
    pub a32: T,
    pub a33: T,
}

// The sum of three products, a·x + b·y + c·z.
fn dot<T: Exact>(a: T, b: T, c: T, x: T, y: T, z: T) -> T
    requires one_modulus { FiveOfModulus T.modulus (T.modulus a) b c x y z }
    requires fits { DotFits (T.ring (T.modulus a)) T.fits (T.meaning a) (T.meaning b) (T.meaning c) (T.meaning x) (T.meaning y) (T.meaning z) }
    ensures value { T.meaning result ≡ dot (T.ring (T.modulus a)) (T.meaning a) (T.meaning b) (T.meaning c) (T.meaning x) (T.meaning y) (T.meaning z) }
    ensures modulus { T.modulus result ≡ T.modulus a }
{
    a * x + b * y + c * z
}

// The alternating sum of three products, a·x - b·y + c·z.
fn alternating<T: Exact>(a: T, b: T, c: T, x: T, y: T, z: T) -> T
    requires one_modulus { FiveOfModulus T.modulus (T.modulus a) b c x y z }
    requires fits { AlternatingFits (T.ring (T.modulus a)) T.fits (T.meaning a) (T.meaning b) (T.meaning c) (T.meaning x) (T.meaning y) (T.meaning z) }
    ensures value { T.meaning result ≡ alternating (T.ring (T.modulus a)) (T.meaning a) (T.meaning b) (T.meaning c) (T.meaning x) (T.meaning y) (T.meaning z) }
    ensures modulus { T.modulus result ≡ T.modulus a }
{
    a * x - b * y + c * z
}

// The two-term determinant of the rows (a, b) and (c, d).
fn minor<T: Exact>(a: T, b: T, c: T, d: T) -> T
    requires b { T.modulus b ≡ T.modulus a }
    requires c { T.modulus c ≡ T.modulus a }
    requires d { T.modulus d ≡ T.modulus a }
    requires fits { MinorFits (T.ring (T.modulus a)) T.fits (T.meaning a) (T.meaning b) (T.meaning c) (T.meaning d) }
    ensures value { T.meaning result ≡ minor (T.ring (T.modulus a)) (T.meaning a) (T.meaning b) (T.meaning c) (T.meaning d) }
    ensures modulus { T.modulus result ≡ T.modulus a }
{
    a * d - b * c
}

impl<T: Copy> Mat3<T> {
    /// The matrix with these three columns.
    pub fn of_columns(a: &Vec3<T>, b: &Vec3<T>, c: &Vec3<T>) -> Mat3<T>
        ensures { result ≡ of_columns a.now b.now c.now }
    {
        let (a, b, c) = (*a, *b, *c);
        Mat3 {
            a11: a.x,
            a12: b.x,
            a13: c.x,
            a21: a.y,
            a22: b.y,
            a23: c.y,
            a31: a.z,
            a32: b.z,
            a33: c.z,
        }
    }

    /// The three columns.
    pub fn columns(&self) -> (Vec3<T>, Vec3<T>, Vec3<T>)
        ensures first { result.0 ≡ column1 self.now }
        ensures second { result.1 ≡ column2 self.now }
        ensures third { result.2 ≡ column3 self.now }
    {
        let a = *self;
        let first = Vec3 {
            x: a.a11,
            y: a.a21,
            z: a.a31,
        };
        let second = Vec3 {
            x: a.a12,
            y: a.a22,
            z: a.a32,
        };
        let third = Vec3 {
            x: a.a13,
            y: a.a23,
            z: a.a33,
        };
        (first, second, third)
    }
}

impl<T: Exact> Mat3<T> {
    /// The matrix product: first the other map, then this one.
    ///
    /// Asks that the products and sums of its nine entries are values of the type, all of one modulus.
    pub fn times(&self, other: &Mat3<T>) -> Mat3<T>
        requires left { MatrixOfModulus T.modulus (T.modulus self.now.a11) self.now }
        requires right { MatrixOfModulus T.modulus (T.modulus self.now.a11) other.now }
        requires fits { ProductFits (T.ring (T.modulus self.now.a11)) T.fits (matrix_map T.meaning self.now) (matrix_map T.meaning other.now) }
        ensures value { matrix_map T.meaning result ≡ product (T.ring (T.modulus self.now.a11)) (matrix_map T.meaning self.now) (matrix_map T.meaning other.now) }
        ensures modulus { MatrixOfModulus T.modulus (T.modulus self.now.a11) result }
    {
        let a = *self;
        let b = *other;
        Mat3 {
            a11: dot(a.a11, a.a12, a.a13, b.a11, b.a21, b.a31),
            a12: dot(a.a11, a.a12, a.a13, b.a12, b.a22, b.a32),
            a13: dot(a.a11, a.a12, a.a13, b.a13, b.a23, b.a33),
            a21: dot(a.a21, a.a22, a.a23, b.a11, b.a21, b.a31),
            a22: dot(a.a21, a.a22, a.a23, b.a12, b.a22, b.a32),
            a23: dot(a.a21, a.a22, a.a23, b.a13, b.a23, b.a33),
            a31: dot(a.a31, a.a32, a.a33, b.a11, b.a21, b.a31),
            a32: dot(a.a31, a.a32, a.a33, b.a12, b.a22, b.a32),
            a33: dot(a.a31, a.a32, a.a33, b.a13, b.a23, b.a33),
        }
    }

    /// The matrix applied to a column.
    ///
    /// Asks that the products and sums of its three coordinates are values of the type, all of one modulus.
    pub fn apply(&self, v: &Vec3<T>) -> Vec3<T>
        requires left { MatrixOfModulus T.modulus (T.modulus self.now.a11) self.now }
        requires right { VectorOfModulus T.modulus (T.modulus self.now.a11) v.now }
        requires fits { ImageFits (T.ring (T.modulus self.now.a11)) T.fits (matrix_map T.meaning self.now) (vector_map T.meaning v.now) }
        ensures value { vector_map T.meaning result ≡ image (T.ring (T.modulus self.now.a11)) (matrix_map T.meaning self.now) (vector_map T.meaning v.now) }
        ensures modulus { VectorOfModulus T.modulus (T.modulus self.now.a11) result }
    {
        let a = *self;
        let v = *v;
        Vec3 {
            x: dot(a.a11, a.a12, a.a13, v.x, v.y, v.z),
            y: dot(a.a21, a.a22, a.a23, v.x, v.y, v.z),
            z: dot(a.a31, a.a32, a.a33, v.x, v.y, v.z),
        }
    }

    /// The transpose.
    pub fn transpose(&self) -> Mat3<T>
        ensures { result ≡ transposed self.now }
    {
        let a = *self;
        Mat3 {
            a11: a.a11,
            a12: a.a21,
            a13: a.a31,
            a21: a.a12,
            a22: a.a22,
            a23: a.a32,
            a31: a.a13,
            a32: a.a23,
            a33: a.a33,
        }
    }

    /// The determinant, by six terms: the first row times its signed minors.
    ///
    /// Asks that the products and sums of the formula are values of the type, all of one modulus.
    pub fn handed(&self) -> T
        requires one_modulus { MatrixOfModulus T.modulus (T.modulus self.now.a11) self.now }
        requires fits { DeterminantFits (T.ring (T.modulus self.now.a11)) T.fits (matrix_map T.meaning self.now) }
        ensures value { T.meaning result ≡ determinant (T.ring (T.modulus self.now.a11)) (matrix_map T.meaning self.now) }
        ensures modulus { T.modulus result ≡ T.modulus self.now.a11 }
    {
        let a = *self;
        let first = minor(a.a22, a.a23, a.a32, a.a33);
        let second = minor(a.a21, a.a23, a.a31, a.a33);
        let third = minor(a.a21, a.a22, a.a31, a.a32);
        alternating(a.a11, a.a12, a.a13, first, second, third)
    }

    /// The adjugate: the matrix of signed minors, whose product with this one is the determinant times the identity.
    ///
    /// Entry (i, j) is the signed minor without row j and column i. Asks that the products and differences of the nine
    /// minors are values of the type, all of one modulus.
    pub fn adjugate(&self) -> Mat3<T>
        requires one_modulus { MatrixOfModulus T.modulus (T.modulus self.now.a11) self.now }
        requires fits { AdjugateFits (T.ring (T.modulus self.now.a11)) T.fits (matrix_map T.meaning self.now) }
        ensures value { matrix_map T.meaning result ≡ adjugate (T.ring (T.modulus self.now.a11)) (matrix_map T.meaning self.now) }
        ensures modulus { MatrixOfModulus T.modulus (T.modulus self.now.a11) result }
    {
        let a = *self;
        Mat3 {
            a11: minor(a.a22, a.a23, a.a32, a.a33),
            a12: minor(a.a13, a.a12, a.a33, a.a32),
            a13: minor(a.a12, a.a13, a.a22, a.a23),
            a21: minor(a.a23, a.a21, a.a33, a.a31),
            a22: minor(a.a11, a.a13, a.a31, a.a33),
            a23: minor(a.a13, a.a11, a.a23, a.a21),
            a31: minor(a.a21, a.a22, a.a31, a.a32),
            a32: minor(a.a12, a.a11, a.a32, a.a31),
            a33: minor(a.a11, a.a12, a.a21, a.a22),
        }
    }
}

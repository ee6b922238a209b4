// Each call at each type, against values worked by hand.

ghost use Rattle.std.specs.Prelude.{◌≡◌};
ghost use Rattle.ring.specs.Size.{AtMost};
ghost use Rattle.exact_num.specs.Meanings.{modulus_of};
ghost use Rattle.matrix3.specs.Matrices.{EachEntry, EachCoordinate};
ghost use Rattle.matrix3.specs.Fits.{MatrixOfModulus, VectorOfModulus};

use exact_num::{Exact, Frac, Int, Residue};
use matrix3::{Mat3, Vec3};

type Rows = [[i8; 3]; 3];

const A: Rows = [[1, 2, 3], [4, 5, 6], [7, 8, 10]];

const B: Rows = [[2, 0, -1], [1, 3, 0], [0, 1, 1]];

const V: [i8; 3] = [1, -1, 2];

/// Integers, and what they are modulo 7.
struct Values([[i128; 3]; 3], [[u32; 3]; 3]);

const A_TIMES_B: Values = Values(
    [[4, 9, 2], [13, 21, 2], [22, 34, 3]],
    [[4, 2, 2], [6, 0, 2], [1, 6, 3]],
);

const B_TIMES_A: [[i128; 3]; 3] = [[-5, -4, -4], [13, 17, 21], [11, 13, 16]];

const TRANSPOSE_OF_A: Values = Values(
    [[1, 4, 7], [2, 5, 8], [3, 6, 10]],
    [[1, 4, 0], [2, 5, 1], [3, 6, 3]],
);

const ADJUGATE_OF_A: Values = Values(
    [[2, 4, -3], [2, -11, 6], [-3, 6, -3]],
    [[2, 4, 4], [2, 3, 6], [4, 6, 4]],
);

/// A matrix and its inverse, where its determinant is 1 or -1.
struct Inverted(Rows, Option<[[i128; 3]; 3]>);

#[rattlefmt::skip]
const INVERSES: &[Inverted] = &[
    Inverted([[1, 2, 3], [0, 1, 4], [5, 6, 0]], Some([[-24, 18, 5], [20, -15, -4], [-5, 4, 1]])),
    Inverted([[0, 1, 0], [1, 1, 0], [0, 2, 1]], Some([[-1, 1, 0], [1, 0, 0], [-2, 0, 1]])),
    Inverted(A, None),
];

/// What `calls_on_halves` gives, as numerators and denominators.
#[rattlefmt::skip]
const ON_HALVES: [[(i128, i128); 3]; 10] = [
    [(1, 1), (3, 4), (0, 1)],
    [(1, 1), (1, 4), (1, 1)],
    [(1, 1), (0, 1), (0, 1)],
    [(1, 1), (1, 2), (-1, 1)],
    [(-1, 2), (1, 2), (0, 1)],
    [(-1, 2), (-1, 1), (1, 2)],
    [(1, 1), (-1, 1), (0, 1)],
    [(1, 1), (2, 1), (-1, 1)],
    [(3, 4), (1, 4), (-1, 1)],
    [(-1, 2), (-1, 2), (-1, 2)],
];

fn int(v: i8) -> Int
    ensures { AtMost 128 result }
{
    Int::new(v as i128).unwrap()
}

fn matrix(r: Rows) -> Mat3<Int>
    ensures { EachEntry (AtMost 128) result }
{
    Mat3 {
        a11: int(r[0][0]),
        a12: int(r[0][1]),
        a13: int(r[0][2]),
        a21: int(r[1][0]),
        a22: int(r[1][1]),
        a23: int(r[1][2]),
        a31: int(r[2][0]),
        a32: int(r[2][1]),
        a33: int(r[2][2]),
    }
}

fn column(v: [i8; 3]) -> Vec3<Int>
    ensures { EachCoordinate (AtMost 128) result }
{
    Vec3 {
        x: int(v[0]),
        y: int(v[1]),
        z: int(v[2]),
    }
}

fn rows(a: Mat3<Int>) -> [[i128; 3]; 3] {
    [
        [a.a11.get(), a.a12.get(), a.a13.get()],
        [a.a21.get(), a.a22.get(), a.a23.get()],
        [a.a31.get(), a.a32.get(), a.a33.get()],
    ]
}

fn product(a: Rows, b: Rows) -> [[i128; 3]; 3] {
    rows(matrix(a).times(&matrix(b)))
}

fn image(a: Rows, v: [i8; 3]) -> [i128; 3] {
    let w = matrix(a).apply(&column(v));
    [w.x.get(), w.y.get(), w.z.get()]
}

fn determinant(a: Rows) -> i128 {
    matrix(a).handed().get()
}

fn adjugate(a: Rows) -> [[i128; 3]; 3] {
    rows(matrix(a).adjugate())
}

fn inverse(a: Rows) -> Option<[[i128; 3]; 3]> {
    let a = matrix(a);
    if a.handed().get().abs() == 1 {
        Some(rows(a.inverse_unit()))
    } else {
        None
    }
}

fn residue(v: i8) -> Residue
    ensures { modulus_of result ≡ 7 }
{
    Residue::new(v as i128, 7)
}

fn matrix_of_residues(r: Rows) -> Mat3<Residue>
    ensures { MatrixOfModulus modulus_of 7 result }
{
    Mat3 {
        a11: residue(r[0][0]),
        a12: residue(r[0][1]),
        a13: residue(r[0][2]),
        a21: residue(r[1][0]),
        a22: residue(r[1][1]),
        a23: residue(r[1][2]),
        a31: residue(r[2][0]),
        a32: residue(r[2][1]),
        a33: residue(r[2][2]),
    }
}

fn column_of_residues(v: [i8; 3]) -> Vec3<Residue>
    ensures { VectorOfModulus modulus_of 7 result }
{
    Vec3 {
        x: residue(v[0]),
        y: residue(v[1]),
        z: residue(v[2]),
    }
}

fn residue_rows(a: Mat3<Residue>) -> [[u32; 3]; 3] {
    [
        [a.a11.get(), a.a12.get(), a.a13.get()],
        [a.a21.get(), a.a22.get(), a.a23.get()],
        [a.a31.get(), a.a32.get(), a.a33.get()],
    ]
}

fn residue_product(a: Rows, b: Rows) -> [[u32; 3]; 3] {
    residue_rows(matrix_of_residues(a).times(&matrix_of_residues(b)))
}

fn residue_image(a: Rows, v: [i8; 3]) -> [u32; 3] {
    let w = matrix_of_residues(a).apply(&column_of_residues(v));
    [w.x.get(), w.y.get(), w.z.get()]
}

fn residue_determinant(a: Rows) -> u32 {
    matrix_of_residues(a).handed().get()
}

fn residue_adjugate(a: Rows) -> [[u32; 3]; 3] {
    residue_rows(matrix_of_residues(a).adjugate())
}

fn terms(a: Frac) -> (i128, i128) {
    (a.num(), a.den())
}

fn first_row(a: Mat3<Frac>) -> [(i128, i128); 3] {
    [terms(a.a11), terms(a.a12), terms(a.a13)]
}

fn diagonal(a: Mat3<Frac>) -> [(i128, i128); 3] {
    [terms(a.a11), terms(a.a22), terms(a.a33)]
}

// Of a = (1, 1/2, 0), (0, 1/2, 0), (0, 0, -1): the first row and the diagonal of a a, aᵀ, adj(a) and the inverse, and the
// image of (1/2, 1/2, 1) with the determinant.
fn calls_on_halves() -> Option<[[(i128, i128); 3]; 10]> {
    let half = Frac::new(1, 2)?;
    let one = half.one_like();
    let zero = half.zero_like();
    let a = Mat3 {
        a11: one,
        a12: half,
        a13: zero,
        a21: zero,
        a22: half,
        a23: zero,
        a31: zero,
        a32: zero,
        a33: -one,
    };
    let v = Vec3 {
        x: half,
        y: half,
        z: one,
    };
    let square = a.times(&a);
    let image = a.apply(&v);
    let turned = a.transpose();
    let minors = a.adjugate();
    let determinant = terms(a.handed());
    let inverse = a.inverse()?;
    Some([
        first_row(square),
        diagonal(square),
        first_row(turned),
        diagonal(turned),
        first_row(minors),
        diagonal(minors),
        first_row(inverse),
        diagonal(inverse),
        [terms(image.x), terms(image.y), terms(image.z)],
        [determinant, determinant, determinant],
    ])
}

/// Whether the products of integers are these, in both orders.
fn are_products() -> bool {
    product(A, B) == A_TIMES_B.0 && product(B, A) == B_TIMES_A
}

/// Whether the transpose and the adjugate of integers are these.
fn are_rearranged() -> bool {
    rows(matrix(A).transpose()) == TRANSPOSE_OF_A.0 && adjugate(A) == ADJUGATE_OF_A.0
}

#[test]
fn matrices_of_integers(rt: HostRuntime) {
    assert!(rt; are_products());
    assert!(rt; image(A, V) == [5, 11, 19]);
    assert!(rt; are_rearranged());
    assert_eq!(rt; determinant(A), -3);
    assert_eq!(rt; determinant(B), 5);
}

/// The number of the first matrix with another inverse; else how many there are.
fn first_wrong_inverse() -> usize {
    for i in 0..INVERSES.len() {
        let Inverted(a, wanted) = &INVERSES[i];
        if inverse(*a) != *wanted {
            return i;
        }
    }
    INVERSES.len()
}

#[test]
fn inverse_matrices(rt: HostRuntime) {
    assert_eq!(rt; first_wrong_inverse(), INVERSES.len());
}

/// Whether the product, the transpose and the adjugate of residues are these.
fn are_matrices_of_residues() -> bool {
    residue_product(A, B) == A_TIMES_B.1
        && residue_rows(matrix_of_residues(A).transpose()) == TRANSPOSE_OF_A.1
        && residue_adjugate(A) == ADJUGATE_OF_A.1
}

// The same matrices as those of integers, whose values are taken modulo 7.
#[test]
fn matrices_of_residues(rt: HostRuntime) {
    assert!(rt; are_matrices_of_residues());
    assert!(rt; residue_image(A, V) == [5, 4, 5]);
    assert_eq!(rt; residue_determinant(A), 4);
}

#[test]
fn a_matrix_of_fractions(rt: HostRuntime) {
    assert!(rt; calls_on_halves() == Some(ON_HALVES));
}

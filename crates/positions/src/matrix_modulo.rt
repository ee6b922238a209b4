// A matrix of integers made ready to carry positions modulo n.
//
// Its entries modulo n are below 10^6, so the products with a position and their sum are below 2^64: one remainder a coordinate.

ghost use Rattle.std.specs.Prelude.{◌≡◌, ◌+◌, ◌*◌, ◌%◌, ◌-◌, ◌^◌, ◌≤◌, pos, slice_index};
ghost use Rattle.crystal_spec.specs.Matrices.{difference, image};
ghost use Rattle.crystal_spec.specs.Crystals.{position_after};
ghost use Rattle.positions.specs.Positions.{triple_of, modulo};
ghost use Rattle.positions.specs.Rows.{IsRowModulo, IsRowBelow, dot};

use crate::reduction::coordinate_modulo;
use exact_num::Int;
use matrix3::Mat3;
use std::marker::Model;

/// A matrix of integers, with its rows modulo n. In a contract it is the matrix beside n.
#[derive(Drop)]
pub struct MatrixModulo {
    n: u32,
    w: Mat3<Int>,
    x: [u32; 3],
    y: [u32; 3],
    z: [u32; 3],
}

impl Model for MatrixModulo {
    ghost use Rattle.positions.specs.Rows.{ModularMatrix, HoldsRows};

    ghost Value = { ModularMatrix };

    ghost view = { λ a. record { modulus = a.n; matrix = a.w } };

    ghost invariant = { λ a. HoldsRows a.n a.w a.x a.y a.z };
}

/// A row of a matrix modulo n.
fn row(a: Int, b: Int, c: Int, n: u32) -> [u32; 3]
    requires at_least { 1 ≤ n }
    requires at_most { n ≤ 10 ^ 6 }
    ensures { IsRowModulo n a b c result }
{
    [
        coordinate_modulo(a, n),
        coordinate_modulo(b, n),
        coordinate_modulo(c, n),
    ]
}

/// The coordinate modulo n that a row and a translation make of a position.
fn coordinate(row: [u32; 3], shift: u32, place: [u32; 3], n: u32) -> u32
    requires row { IsRowBelow (10 ^ 6) row }
    requires at_least { 1 ≤ n }
    ensures { result ≡ (dot row place + shift) % n }
{
    let first = row[0] as u64 * place[0] as u64;
    let second = row[1] as u64 * place[1] as u64;
    let third = row[2] as u64 * place[2] as u64;
    ((first + second + third + shift as u64) % n as u64) as u32
}

/// The coordinate modulo n of the translation with which a row carries one position onto another.
fn coordinate_onto(row: [u32; 3], from: [u32; 3], onto: u32, n: u32) -> u32
    requires row { IsRowBelow (10 ^ 6) row }
    requires at_least { 1 ≤ n }
    ensures { result ≡ (onto + (n - (dot row from + 0) % n)) % n }
{
    let image = coordinate(row, 0, from, n);
    ((onto as u64 + (n - image) as u64) % n as u64) as u32
}

impl MatrixModulo {
    /// The matrix made ready for positions in units of 1/n, with n from 1 to 10^6.
    pub fn new(w: &Mat3<Int>, n: u32) -> MatrixModulo
        requires at_least { 1 ≤ n }
        requires at_most { n ≤ 10 ^ 6 }
        ensures matrix { result.matrix ≡ w.now }
        ensures modulus { result.modulus ≡ n }
    {
        let w = *w;
        let x = row(w.a11, w.a12, w.a13, n);
        let y = row(w.a21, w.a22, w.a23, n);
        let z = row(w.a31, w.a32, w.a33, n);
        MatrixModulo { n, w, x, y, z }
    }

    /// The matrix.
    pub fn matrix(&self) -> &Mat3<Int>
        ensures { result.now ≡ self.now.matrix }
    {
        &self.w
    }

    /// The n of the unit 1/n of positions, from 1 to 10^6.
    pub fn modulus(&self) -> u32
        ensures value { result ≡ self.now.modulus }
        ensures at_least { 1 ≤ self.now.modulus }
        ensures at_most { self.now.modulus ≤ 10 ^ 6 }
    {
        self.n
    }

    /// The position to which the matrix, with a translation, carries a position, modulo n.
    pub fn carried(&self, shift: [u32; 3], place: [u32; 3]) -> [u32; 3]
        ensures { triple_of result ≡ modulo self.now.modulus (position_after self.now.matrix (triple_of shift) (triple_of place)) }
    {
        let n = self.n;
        [
            coordinate(self.x, shift[0], place, n),
            coordinate(self.y, shift[1], place, n),
            coordinate(self.z, shift[2], place, n),
        ]
    }

    /// The image of a position modulo n.
    pub fn image(&self, place: [u32; 3]) -> [u32; 3]
        ensures { triple_of result ≡ modulo self.now.modulus (image self.now.matrix (triple_of place)) }
    {
        self.carried([0, 0, 0], place)
    }

    /// The translation modulo n with which the matrix carries one position onto another.
    pub fn translation_onto(&self, from: [u32; 3], onto: [u32; 3]) -> [u32; 3]
        ensures { triple_of result ≡ modulo self.now.modulus (difference (triple_of onto) (image self.now.matrix (triple_of from))) }
    {
        let n = self.n;
        [
            coordinate_onto(self.x, from, onto[0], n),
            coordinate_onto(self.y, from, onto[1], n),
            coordinate_onto(self.z, from, onto[2], n),
        ]
    }
}

// Columns and differences of positions modulo n.

ghost use Rattle.std.specs.Prelude.{◌≡◌, ◌^◌, ◌≤◌, pos, ◌-ℤ◌};
ghost use Rattle.std.specs.Int.{int_rem_euclid};
ghost use Rattle.crystal_spec.specs.Matrices.{difference};
ghost use Rattle.positions.specs.Positions.{triple_of, modulo};

use exact_num::{Int, Residue};
use matrix3::Vec3;

/// An integer modulo n.
pub(crate) fn coordinate_modulo(z: Int, n: u32) -> u32
    requires at_least { 1 ≤ n }
    requires at_most { n ≤ 10 ^ 6 }
    ensures { pos result ≡ int_rem_euclid z (pos n) }
{
    Residue::new(z.get(), n).get()
}

/// A column of integers modulo n: each coordinate from 0 to n - 1.
///
/// Asks that n is from 1 to 10^6.
pub fn modulo(v: &Vec3<Int>, n: u32) -> [u32; 3]
    requires at_least { 1 ≤ n }
    requires at_most { n ≤ 10 ^ 6 }
    ensures { triple_of result ≡ modulo n v.now }
{
    [
        coordinate_modulo(v.x, n),
        coordinate_modulo(v.y, n),
        coordinate_modulo(v.z, n),
    ]
}

/// The difference of two coordinates modulo n.
fn coordinate_between(from: u32, onto: u32, n: u32) -> u32
    requires at_least { 1 ≤ n }
    ensures { pos result ≡ int_rem_euclid (pos onto -ℤ pos from) (pos n) }
{
    ((onto as u64 + (n - from % n) as u64) % n as u64) as u32
}

/// The translation that takes one position to another, modulo n.
///
/// Asks that n is at least 1. The positions may be outside the cell.
pub fn between(from: [u32; 3], onto: [u32; 3], n: u32) -> [u32; 3]
    requires at_least { 1 ≤ n }
    ensures { triple_of result ≡ modulo n (difference (triple_of onto) (triple_of from)) }
{
    [
        coordinate_between(from[0], onto[0], n),
        coordinate_between(from[1], onto[1], n),
        coordinate_between(from[2], onto[2], n),
    ]
}

// Exact integers as natural numbers, and columns of multiples.

ghost use Rattle.std.specs.Prelude.{◌≡◌, ◌↔◌, ◌^◌, ◌<◌, ◌<ℤ◌, ℕ, pos, IsTrue};
ghost use Rattle.std.specs.Int.{int_rem_euclid};
ghost use Rattle.ring.specs.Size.{AtMost};
ghost use Rattle.matrix3.specs.Matrices.{EachCoordinate};
ghost use Rattle.crystal_spec.specs.Matrices.{multiple, sum_of, difference};
ghost use Rattle.positions.specs.Positions.{triple_of};
ghost use Rattle.match_spec.specs.Points.{IsWhole};
ghost use Rattle.standard_cell.specs.PlaceDivisors.{IsMultiple};

use exact_num::Int;
use matrix3::Vec3;

/// An exact integer that is a natural number below 2^32.
pub(crate) fn natural(z: Int) -> u32
    requires { (k : ℕ) × (k < 2 ^ 32) × (z ≡ pos k) }
    ensures { pos result ≡ z }
{
    z.get() as u32
}

/// Whether a number is a multiple of a positive one.
fn is_multiple(a: Int, d: Int) -> bool
    requires { pos 0 <ℤ d }
    ensures { IsTrue result ↔ IsMultiple d a }
{
    a.div_exact(&d).is_some()
}

/// Whether each coordinate is a multiple of a positive number.
pub(crate) fn are_multiples(v: &Vec3<Int>, d: Int) -> bool
    requires { pos 0 <ℤ d }
    ensures { IsTrue result ↔ IsWhole d v.now }
{
    if !is_multiple(v.x, d) {
        return false;
    }
    if !is_multiple(v.y, d) {
        return false;
    }
    is_multiple(v.z, d)
}

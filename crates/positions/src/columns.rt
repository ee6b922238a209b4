// Positions and translations as columns of integers.

ghost use Rattle.std.specs.Prelude.{◌≡◌, ◌^◌};
ghost use Rattle.matrix3.specs.Bounds.{CoordinatesAtMost};
ghost use Rattle.positions.specs.Positions.{triple_of};

use exact_num::Int;
use matrix3::Vec3;

/// A position or a translation as a column of integers.
pub fn column(place: [u32; 3]) -> Vec3<Int>
    ensures value { result ≡ triple_of place }
    ensures size { CoordinatesAtMost (2 ^ 32) result }
{
    Vec3 {
        x: Int::from(place[0]),
        y: Int::from(place[1]),
        z: Int::from(place[2]),
    }
}

// The translation part of a token, in units of 1/12.
ghost use Rattle.std.specs.Prelude.{◌≡◌, ◌<◌, ◌≤◌, ◌^◌};
ghost use Rattle.hall_symbol.specs.Translations.{parts, plus, letter_translation, letters_translation, along, screw_translation};

use crate::rotation::{axis_of, order_of};
use crate::symbol::{Axis, Rotation};
use matrix3::Vec3;

/// A translation by its coordinates.
pub(crate) fn parts(x: u32, y: u32, z: u32) -> Vec3<u32>
    ensures { result ≡ parts x y z }
{
    Vec3 { x, y, z }
}

/// The sum of two translations modulo 1, in units of 1/12.
pub(crate) fn plus(u: Vec3<u32>, v: Vec3<u32>) -> Vec3<u32>
    requires u_x { u.x < 2 ^ 16 }
    requires u_y { u.y < 2 ^ 16 }
    requires u_z { u.z < 2 ^ 16 }
    requires v_x { v.x < 2 ^ 16 }
    requires v_y { v.y < 2 ^ 16 }
    requires v_z { v.z < 2 ^ 16 }
    ensures value { result ≡ plus u v }
    ensures x { result.x < 12 }
    ensures y { result.y < 12 }
    ensures z { result.z < 12 }
{
    parts((u.x + v.x) % 12, (u.y + v.y) % 12, (u.z + v.z) % 12)
}

/// The translation that the letter stands for, in units of 1/12.
fn letter_translation(b: u8) -> Vec3<u32>
    ensures value { result ≡ letter_translation b }
    ensures x { result.x < 12 }
    ensures y { result.y < 12 }
    ensures z { result.z < 12 }
{
    match b {
        b'a' => parts(6, 0, 0),
        b'b' => parts(0, 6, 0),
        b'c' => parts(0, 0, 6),
        b'n' => parts(6, 6, 6),
        b'u' => parts(3, 0, 0),
        b'v' => parts(0, 3, 0),
        b'w' => parts(0, 0, 3),
        b'd' => parts(3, 3, 3),
        _ => parts(0, 0, 0),
    }
}

/// The sum of the translations of these letters modulo 1.
pub(crate) fn letters_translation(letters: &[u8]) -> Vec3<u32>
    ensures value { result ≡ letters_translation letters.now }
    ensures x { result.x < 12 }
    ensures y { result.y < 12 }
    ensures z { result.z < 12 }
{
    let mut sum = parts(0, 0, 0);
    for b in letters {
        sum = plus(sum, letter_translation(*b));
    }
    sum
}

/// So many twelfths along x, y or z.
fn along(axis: Option<Axis>, a: u32) -> Vec3<u32>
    ensures value { result ≡ along axis a }
    ensures x { result.x ≤ a }
    ensures y { result.y ≤ a }
    ensures z { result.z ≤ a }
{
    match axis {
        None => parts(0, 0, 0),
        Some(Axis::X) => parts(a, 0, 0),
        Some(Axis::Y) => parts(0, a, 0),
        Some(Axis::Z) => parts(0, 0, a),
    }
}

/// The translation that the screw digit of a rotation stands for.
pub(crate) fn screw_translation(rotation: Rotation, screw: u32) -> Vec3<u32>
    requires { screw ≤ 5 }
    ensures value { result ≡ screw_translation rotation screw }
    ensures x { result.x ≤ 60 }
    ensures y { result.y ≤ 60 }
    ensures z { result.z ≤ 60 }
{
    along(axis_of(rotation), screw * (12 / order_of(rotation)))
}

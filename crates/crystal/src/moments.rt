// What a map and a change of basis do to moments, by their kind: each acts by one matrix.

ghost use Rattle.std.specs.Prelude.{◌≡◌, ◌*◌, ◌^◌, ◌*ℤ◌, pos, IsTrue};
ghost use Rattle.crystal_spec.specs.Matrices.{determinant, image};
ghost use Rattle.crystal_spec.specs.Moments.{axial_factor, turn_matrix, moment_matrix};
ghost use Rattle.crystal_spec.specs.Operations.{sign_factor};
ghost use Rattle.matrix3.specs.Bounds.{EntriesAtMost, CoordinatesAtMost};

use crystal_spec::{MomentKind, Sign};
use exact_num::{Exact, Int};
use matrix3::{Mat3, Vec3};

/// What a change of basis is to moments of this kind: the matrix itself to vectors, the identity to scalars.
pub fn turn_matrix(kind: MomentKind, r: &Mat3<Int>) -> Mat3<Int>
    ensures { result ≡ turn_matrix kind r.now }
{
    if kind.vector { *r } else { Mat3::identity() }
}

/// What an isometry multiplies moments of this kind by, beside the time sign: its determinant if they are axial, or 1.
fn axial_factor(kind: MomentKind, w: &Mat3<Int>) -> Int
    requires map { EntriesAtMost 150000000 w.now }
    ensures { result ≡ axial_factor kind (determinant w.now) }
{
    if kind.axial {
        w.handed()
    } else {
        Int::from(1u32)
    }
}

/// The same factor with the time sign.
fn signed_factor(kind: MomentKind, w: &Mat3<Int>, sign: Sign) -> Int
    requires map { EntriesAtMost 150000000 w.now }
    requires isometry { determinant w.now *ℤ determinant w.now ≡ pos 1 }
    ensures { result ≡ sign_factor sign *ℤ axial_factor kind (determinant w.now) }
{
    let factor = axial_factor(kind, w);
    match sign {
        Sign::Same => factor,
        Sign::Reversed => -factor,
    }
}

/// The matrix by which an isometry with this time sign acts on moments of this kind.
///
/// It is sign · det(W) · W for axial vectors, sign · W for other vectors, and these factors of the identity for scalars.
pub fn moment_matrix(kind: MomentKind, w: &Mat3<Int>, sign: Sign) -> Mat3<Int>
    requires map { EntriesAtMost 150000000 w.now }
    requires isometry { determinant w.now *ℤ determinant w.now ≡ pos 1 }
    ensures value { result ≡ moment_matrix kind w.now (sign_factor sign) }
    ensures size { EntriesAtMost 150000000 result }
{
    let factor = signed_factor(kind, w, sign);
    turn_matrix(kind, w).multiple(factor)
}

/// Whether the moment is zero.
fn is_zero(moment: &Vec3<Int>) -> bool
    ensures { IsTrue result → moment.now ≡ record { x = pos 0; y = pos 0; z = pos 0 } }
{
    moment.x.is_zero() && moment.y.is_zero() && moment.z.is_zero()
}

/// The image of a moment under the matrix of a map.
pub(crate) fn carried_moment(moments: &Mat3<Int>, moment: &Vec3<Int>) -> Vec3<Int>
    requires map { EntriesAtMost 150000000 moments.now }
    requires moment { CoordinatesAtMost (2 * 10 ^ 27) moment.now }
    ensures { result ≡ image moments.now moment.now }
{
    if is_zero(moment) {
        return *moment;
    }
    moments.apply(moment)
}

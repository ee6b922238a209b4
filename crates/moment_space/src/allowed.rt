// The moments that a site allows.

ghost use Rattle.std.specs.Prelude.{◌≡◌, ◌↔◌, ◌^◌, IsTrue};
ghost use Rattle.ring.specs.Size.{AtMost};
ghost use Rattle.numbers.specs.Fraction.{fraction_ops, whole};
ghost use Rattle.exact_num.specs.Meanings.{fraction_of};
ghost use Rattle.matrix3.specs.Matrices.{EachEntry, matrix_map, dot};
ghost use Rattle.crystal_spec.specs.Moments.{IsOfKind};
ghost use Rattle.matrix3.specs.Bounds.{CoordinatesAtMost};
ghost use Rattle.moment_space.specs.Projectors.{HasSmallParts, IsProjected};

use crystal::MomentKind;
use exact_num::{Frac, Int};
use matrix3::{Mat3, Vec3};
use std::marker::Model;

/// Which moments a site allows: the projector onto them, and the allowed count.
///
/// The entries of the projector have numerators and denominators of size up to 40,000.
#[derive(Drop)]
pub struct Allowed {
    kind: MomentKind,
    projector: Mat3<Frac>,
    count: u32,
}

impl Model for Allowed {
    ghost use Rattle.exact_num.specs.Meanings.{fraction_of};
    ghost use Rattle.matrix3.specs.Matrices.{matrix_map};
    ghost use Rattle.moment_space.specs.Projectors.{AllowedMoments, HasSmallEntries};

    ghost Value = { AllowedMoments };

    ghost view = { λ a. record { kind = a.kind; projector = matrix_map fraction_of a.projector; count = a.count } };

    ghost invariant = { λ a. HasSmallEntries (record { kind = a.kind; projector = matrix_map fraction_of a.projector; count = a.count }) };
}

/// The numerator of a fraction.
fn upper(fraction: &Frac) -> Int
    requires { HasSmallParts (fraction_of fraction.now) }
    ensures value { result ≡ (fraction_of fraction.now).numerator }
    ensures size { AtMost 40000 result }
{
    Int::new(fraction.num()).unwrap()
}

/// The denominator of a fraction.
fn lower(fraction: &Frac) -> Int
    requires { HasSmallParts (fraction_of fraction.now) }
    ensures value { result ≡ (fraction_of fraction.now).denominator }
    ensures size { AtMost 40000 result }
{
    Int::new(fraction.den()).unwrap()
}

/// Whether a row of a projector takes the moment to this coordinate.
fn is_taken_to(a: &Frac, b: &Frac, c: &Frac, m: &Vec3<Int>, coordinate: Int) -> bool
    requires first { HasSmallParts (fraction_of a.now) }
    requires second { HasSmallParts (fraction_of b.now) }
    requires third { HasSmallParts (fraction_of c.now) }
    requires moment { CoordinatesAtMost (10 ^ 15) m.now }
    requires coordinate { AtMost (10 ^ 15) coordinate }
    ensures { IsTrue result ↔ (dot fraction_ops (fraction_of a.now) (fraction_of b.now) (fraction_of c.now) (whole m.now.x) (whole m.now.y) (whole m.now.z) ≡ whole coordinate) }
{
    let m = *m;
    let d = lower(a);
    let e = lower(b);
    let f = lower(c);
    let x = upper(a) * m.x;
    let y = upper(b) * m.y;
    let z = upper(c) * m.z;
    (x * e + y * d) * f + z * (d * e) == d * e * f * coordinate
}

impl Allowed {
    /// The moments that this projector leaves, so many of them independent.
    pub(crate) fn new(kind: MomentKind, projector: Mat3<Frac>, count: u32) -> Allowed
        requires { EachEntry HasSmallParts (matrix_map fraction_of projector) }
        ensures { result ≡ record { kind = kind; projector = matrix_map fraction_of projector; count = count } }
    {
        Allowed {
            kind,
            projector,
            count,
        }
    }

    /// The kind of the moments.
    pub fn kind(&self) -> MomentKind
        ensures { result ≡ self.now.kind }
    {
        self.kind
    }

    /// The projector: the mean of the matrices by which the operations of the site act on moments.
    pub fn projector(&self) -> &Mat3<Frac>
        ensures { matrix_map fraction_of result.now ≡ self.now.projector }
    {
        &self.projector
    }

    /// The allowed count: the trace of the projector, for scalars a third of it, which is how many allowed moments are independent.
    pub fn count(&self) -> u32
        ensures { result ≡ self.now.count }
    {
        self.count
    }

    /// Whether the projector leaves the moment as it is.
    ///
    /// The components are of size up to 10^15, and a scalar is (s, 0, 0). It takes no memory.
    pub fn allows(&self, m: &Vec3<Int>) -> bool
        requires size { CoordinatesAtMost (10 ^ 15) m.now }
        requires of_kind { IsOfKind self.now.kind m.now }
        ensures { IsTrue result ↔ IsProjected self.now.projector m.now }
    {
        let p = &self.projector;
        is_taken_to(&p.a11, &p.a12, &p.a13, m, m.x)
            && is_taken_to(&p.a21, &p.a22, &p.a23, m, m.y)
            && is_taken_to(&p.a31, &p.a32, &p.a33, m, m.z)
    }
}

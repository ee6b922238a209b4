// Two atoms: whether they are alike, and whether the one is the image of the other, but for its position.

ghost use Rattle.std.specs.Prelude.{◌≡◌, ◌↔◌, ◌<◌, ◌≤◌, ◌*◌, ◌^◌, length, pos, IsTrue};
ghost use Rattle.ring.specs.Size.{AtMost};
ghost use Rattle.crystal_spec.specs.Matrices.{image, multiple};
ghost use Rattle.crystal.specs.Views.{atom_of};
ghost use Rattle.positions.specs.Positions.{triple_of};
ghost use Rattle.matrix3.specs.Bounds.{EntriesAtMost, CoordinatesAtMost};
ghost use Rattle.crystal_compare.specs.Maps.{HaveOneName};
ghost use Rattle.crystal_compare.specs.Search.{HaveOneMoment};

use crystal::{Atom, Cell, Name};
use exact_num::Int;
use matrix3::{Mat3, Vec3};

/// A column times a number.
pub(crate) fn multiple(k: u32, v: &Vec3<Int>) -> Vec3<Int>
    requires factor { k ≤ 10 ^ 6 }
    requires coordinates { CoordinatesAtMost (10 ^ 28) v.now }
    ensures value { result ≡ multiple (pos k) v.now }
{
    v.multiple(Int::from(k))
}

/// Whether two names are one.
fn is_same(a: &Name, b: &Name) -> bool
    ensures { IsTrue result ↔ (a.now ≡ b.now) }
{
    a.as_bytes() == b.as_bytes()
}

/// Whether a species of the first cell and one of the second have one name.
pub(crate) fn have_one_name(one: &Cell, species: u16, other: &Cell, another: u16) -> bool
    requires first { species < length one.now.names }
    requires second { another < length other.now.names }
    ensures { IsTrue result ↔ HaveOneName one.now other.now species another }
{
    is_same(one.name(species), other.name(another))
}

/// Whether two atoms of one cell are of one species and have one moment.
pub(crate) fn is_alike(a: &Atom, b: &Atom) -> bool
    ensures { IsTrue result ↔ ((a.now.species ≡ b.now.species) × (a.now.moment ≡ b.now.moment)) }
{
    a.species == b.species && a.moment == b.moment
}

/// Whether the moment of the second atom is the image of that of the first, under the matrix by which a map acts on moments.
pub(crate) fn have_one_moment(
    one: &Cell,
    atom: &Atom,
    other: &Cell,
    onto: &Atom,
    moments: &Mat3<Int>,
) -> bool
    requires moments { EntriesAtMost 1 moments.now }
    requires first { CoordinatesAtMost (2 * 10 ^ 27) atom.now.moment }
    requires second { CoordinatesAtMost (2 * 10 ^ 27) onto.now.moment }
    ensures { IsTrue result ↔ HaveOneMoment one.now other.now moments.now (atom_of atom.now) (atom_of onto.now) }
{
    one.invariant();
    other.invariant();
    multiple(one.k(), &onto.moment) == multiple(other.k(), &moments.apply(&atom.moment))
}

ghost use Rattle.std.specs.Prelude.{◌≡◌, ◌↔◌, ◌≤◌, ◌*◌, ◌^◌, IsTrue};
ghost use Rattle.crystal.specs.Views.{atom_of};
ghost use Rattle.positions.specs.Positions.{triple_of};
ghost use Rattle.matrix3.specs.Bounds.{EntriesAtMost, CoordinatesAtMost};
ghost use Rattle.crystal.specs.Covering.{Covers};
ghost use Rattle.crystal.specs.Images.{HasImage, HaveImages};

use crate::action::Action;
use crate::atom::Atom;
use crate::cell::Cell;
use crate::failure::Failure;
use crate::moments::carried_moment;
use crate::place_index::PlaceIndex;
use exact_num::Int;
use matrix3::{Mat3, Vec3};

/// Whether the atom is of this species and has this moment.
fn is_of(atom: &Atom, species: u16, moment: &Vec3<Int>) -> bool
    ensures { IsTrue result ↔ ((atom.now.species ≡ species) × (atom.now.moment ≡ moment.now)) }
{
    atom.species == species && atom.moment == *moment
}

/// Whether the isometry with this translation, which acts on moments by the matrix `moments`, carries an atom of the cell to
/// an atom of its species with the carried moment.
fn has_image(
    cell: &Cell,
    index: &PlaceIndex,
    action: &Action,
    shift: [u32; 3],
    moments: &Mat3<Int>,
    atom: &Atom,
) -> bool
    requires index { Covers cell.now.atoms index.now }
    requires modulus { action.now.modulus ≡ cell.now.n }
    requires moments { EntriesAtMost 150000000 moments.now }
    requires moment { CoordinatesAtMost (2 * 10 ^ 27) atom.now.moment }
    ensures { IsTrue result ↔ HasImage cell.now action.now.matrix (triple_of shift) moments.now (atom_of atom.now) }
{
    cell.invariant();
    let place = action.image(atom.place, shift);
    let moment = carried_moment(moments, &atom.moment);
    match cell.occupant(index, place) {
        Some(i) => is_of(cell.atom(i), atom.species, &moment),
        None => false,
    }
}

/// Whether the atom of this number is one of the cell without an image.
fn is_lost(
    cell: &Cell,
    index: &PlaceIndex,
    action: &Action,
    shift: [u32; 3],
    moments: &Mat3<Int>,
    i: usize,
) -> bool
    requires index { Covers cell.now.atoms index.now }
    requires modulus { action.now.modulus ≡ cell.now.n }
    requires moments { EntriesAtMost 150000000 moments.now }
    ensures { IsTrue result → HaveImages cell.now action.now.matrix (triple_of shift) moments.now cell.now.atoms → ⊥ }
{
    i < cell.count() && !has_image(cell, index, action, shift, moments, cell.atom(i))
}

/// Whether the map fails as the last one did: on the same atom, or on the atom that it carries onto the same position.
fn fails_alike(
    cell: &Cell,
    index: &PlaceIndex,
    action: &Action,
    shift: [u32; 3],
    moments: &Mat3<Int>,
    last: &Failure,
) -> bool
    requires index { Covers cell.now.atoms index.now }
    requires modulus { action.now.modulus ≡ cell.now.n }
    requires moments { EntriesAtMost 150000000 moments.now }
    ensures { IsTrue result → HaveImages cell.now action.now.matrix (triple_of shift) moments.now cell.now.atoms → ⊥ }
{
    if is_lost(cell, index, action, shift, moments, last.atom) {
        return true;
    }
    match index.proposal(action.preimage(last.place, shift)) {
        Some(i) => is_lost(cell, index, action, shift, moments, i),
        None => false,
    }
}

/// Whether it does so for each atom of the cell. Ends at the first atom for which it doesn't, of which it keeps where the map
/// failed; and it tries first whether the map fails as the last one did.
pub(crate) fn have_images(
    cell: &Cell,
    index: &PlaceIndex,
    action: &Action,
    shift: [u32; 3],
    moments: &Mat3<Int>,
    last: &mut Failure,
) -> bool
    requires index { Covers cell.now.atoms index.now }
    requires modulus { action.now.modulus ≡ cell.now.n }
    requires moments { EntriesAtMost 150000000 moments.now }
    ensures { IsTrue result ↔ HaveImages cell.now action.now.matrix (triple_of shift) moments.now cell.now.atoms }
{
    if fails_alike(cell, index, action, shift, moments, last) {
        return false;
    }
    for atom in 0..cell.count() {
        if !has_image(cell, index, action, shift, moments, cell.atom(atom)) {
            let place = action.image(cell.atom(atom).place, shift);
            *last = Failure { atom, place };
            return false;
        }
    }
    true
}

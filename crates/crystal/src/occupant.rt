ghost use Rattle.std.specs.Prelude.{◌≡◌, ◌↔◌, ◌<◌, length, IsTrue, IfSome, IfNone, map};
ghost use Rattle.crystal.specs.Views.{atom_of};
ghost use Rattle.positions.specs.Positions.{triple_of};
ghost use Rattle.crystal.specs.Occupants.{IsOccupant, NoneAt};
ghost use Rattle.crystal.specs.Covering.{Covers};

use crate::atom::Atom;
use crate::place_index::PlaceIndex;

/// Whether the atom is at this position of the cell.
fn is_at(atom: &Atom, place: [u32; 3]) -> bool
    ensures { IsTrue result ↔ ((atom_of atom.now).position ≡ triple_of place) }
{
    let own = atom.place;
    own == place
}

/// The number of the first atom at this position, or `None` where no atom is there. It looks at each atom in turn.
pub(crate) fn first_occupant(atoms: &[Atom], place: [u32; 3]) -> Option<usize>
    ensures found { IfSome result (IsOccupant (map atom_of atoms.now) (triple_of place)) }
    ensures below { IfSome result (λ i. i < length atoms.now) }
    ensures absent { IfNone result (NoneAt (triple_of place) (map atom_of atoms.now)) }
{
    for (i, atom) in atoms.iter().enumerate() {
        if is_at(atom, place) {
            return Some(i);
        }
    }
    None
}

/// The number of an atom at this position, or `None` where no atom is there.
///
/// Where the index proposes an atom that is there, or none, no atom is looked at in turn.
pub(crate) fn find_occupant(atoms: &[Atom], index: &PlaceIndex, place: [u32; 3]) -> Option<usize>
    requires { Covers (map atom_of atoms.now) index.now }
    ensures found { IfSome result (IsOccupant (map atom_of atoms.now) (triple_of place)) }
    ensures below { IfSome result (λ i. i < length atoms.now) }
    ensures absent { IfNone result (NoneAt (triple_of place) (map atom_of atoms.now)) }
{
    let i = index.proposal(place)?;
    if i < atoms.len() && is_at(&atoms[i], place) {
        return Some(i);
    }
    first_occupant(atoms, place)
}

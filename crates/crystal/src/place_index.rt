ghost use Rattle.std.specs.Prelude.{◌≡◌, ℕ, List, length, map, IfOk, OnOk, IfNone};
ghost use Rattle.lists.specs.Increasing.{IsMember};
ghost use Rattle.crystal.specs.Views.{atom_of};
ghost use Rattle.crystal.specs.Covering.{Covers, Lacks};

use crate::atom::Atom;
use indexmap::IndexSet;
use std::alloc::{AllocError, Global};

/// The positions of atoms. It has the position of each atom, and the number that it proposes for one is that of its atom where
/// no two atoms have one position: who asks looks whether the atom is there.
#[derive(Drop)]
pub(crate) struct PlaceIndex {
    places: IndexSet<[u32; 3]>,
}

/// Puts a position into a set.
fn add_place(places: &mut IndexSet<[u32; 3]>, place: [u32; 3]) -> Result<(), AllocError>
    ensures listed { OnOk result (IsMember place places.new.keys) }
    ensures kept { OnOk result ((p : List ℕ) → IsMember p places.old.keys → IsMember p places.new.keys) }
    ensures three { length place ≡ 3 }
{
    match places.insert(place) {
        Ok(_) => Ok(()),
        Err(_) => Err(AllocError),
    }
}

impl PlaceIndex {
    /// The positions of these atoms.
    pub(crate) fn new(alloc: Global, atoms: &[Atom]) -> Result<PlaceIndex, AllocError>
        ensures { IfOk result (Covers (map atom_of atoms.now)) }
    {
        let mut places = IndexSet::with_capacity(alloc, atoms.len())?;
        for atom in atoms {
            add_place(&mut places, atom.place)?;
        }
        Ok(PlaceIndex { places })
    }

    /// The number of the atom that may be at this position, or `None` where no atom is.
    pub(crate) fn proposal(&self, place: [u32; 3]) -> Option<usize>
        ensures { IfNone result (Lacks self.now place) }
    {
        self.places.get_index_of(&place)
    }
}

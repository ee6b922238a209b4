// Atoms of a rarest species.

ghost use Rattle.std.specs.Prelude.{◌≡◌, ◌<◌, length, slice_get, Some};
ghost use Rattle.crystal_spec.specs.Crystals.{Atom as ViewedAtom};
ghost use Rattle.crystal_spec.specs.Species.{of_species, IsRarest};

use crate::cell::Cell;

/// How many atoms of the cell are of this species.
fn count_of(cell: &Cell, species: u16) -> usize
    ensures { result ≡ length (of_species species cell.now.atoms) }
{
    let mut count = 0;
    for i in 0..cell.count() {
        if cell.atom(i).species == species {
            count += 1;
        }
    }
    count
}

impl Cell {
    /// The number of an atom of a rarest species: no species of an atom has fewer atoms.
    pub fn rarest(&self) -> usize
        ensures below { result < length self.now.atoms }
        ensures rarest { (a : ViewedAtom) → slice_get self.now.atoms result ≡ Some a → IsRarest self.now (length (of_species a.species self.now.atoms)) }
    {
        self.invariant();
        let first = self.atom(0);
        let mut least = count_of(self, first.species);
        let mut rarest = 0;
        for i in 1..self.count() {
            let atom = self.atom(i);
            let count = count_of(self, atom.species);
            if count < least {
                least = count;
                rarest = i;
            }
        }
        rarest
    }
}

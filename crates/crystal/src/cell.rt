ghost use Rattle.std.specs.Prelude.{◌≡◌, ◌↔◌, IsTrue, take, ◌*◌, ◌^◌, ◌<◌, ◌≤◌, ◌≤ℤ◌, pos, IfOk, IfSome, IfNone, OnOk, OnErr, [], ◌∷◌, ◌++◌, length, slice_get, Some};
ghost use Rattle.lists.specs.Increasing.{IsMember};
ghost use Rattle.crystal_spec.specs.Moments.{IsOfKind};
ghost use Rattle.crystal_spec.specs.Crystals.{IsPositive};
ghost use Rattle.crystal_spec.specs.Operations.{IsWithinCell};
ghost use Rattle.crystal_spec.specs.Cells.{IsCell};
ghost use Rattle.crystal.specs.Views.{metric_of, atom_of};
ghost use Rattle.positions.specs.Positions.{triple_of};
ghost use Rattle.crystal.specs.Occupants.{IsOccupant, NoneAt};
ghost use Rattle.crystal.specs.Covering.{Covers};
ghost use Rattle.matrix3.specs.Bounds.{EntriesAtMost, CoordinatesAtMost};
ghost use Rattle.crystal.specs.Cells.{IsCellWithinLimits, IsCellAtom};

use crate::atom::Atom;
use crate::limits::{MOST_ATOMS, MOST_NAMES};
use crate::metric::Metric;
use crate::name::Name;
use crate::occupant::{find_occupant, first_occupant};
use crate::place_index::PlaceIndex;
use crystal_spec::MomentKind;
use exact_num::Int;
use std::alloc::{AllocError, Global};
use std::marker::Model;

/// A cell of a magnetic crystal: its metric tensor in units of 1/scale, the names of its species, and its atoms.
///
/// The metric tensor is positive, with entries of size up to 10^16, and the scale is from 1 to 10^16. Positions are in
/// units of 1/n, moments in units of 1/k, n and k from 1 to 10^6. All moments are of one kind. There are up to `MOST_NAMES`
/// names, and 1 to `MOST_ATOMS` atoms, no two at one position.
#[derive(Drop)]
pub struct Cell {
    names: Vec<Name>,
    scale: Int,
    metric: Metric,
    n: u32,
    k: u32,
    kind: MomentKind,
    atoms: Vec<Atom>,
}

impl Model for Cell {
    ghost use Rattle.crystal_spec.specs.Crystals.{Structure};

    ghost Value = { Structure };

    ghost use Rattle.crystal.specs.CellFields.{structure_of, HoldsCell};

    ghost view = { structure_of };

    ghost invariant = { HoldsCell };
}

/// A list that has these names.
fn copy_of_names(alloc: Global, names: &[Name]) -> Result<Vec<Name>, AllocError>
    ensures { IfOk result (λ copy. copy.items ≡ names.now) }
{
    let mut copy = Vec::new(alloc);
    for name in names {
        copy.push(name.copied())?;
    }
    Ok(copy)
}

impl Cell {
    /// The cell of one atom, whose species is the first, with the metric tensor in units of 1/scale.
    ///
    /// Where the kind is not that of vectors, the moment of the atom is one number s, given as (s, 0, 0).
    /// Refuses for want of memory alone.
    pub fn build(
        alloc: Global,
        scale: Int,
        metric: Metric,
        n: u32,
        k: u32,
        kind: MomentKind,
        name: Name,
        first: Atom,
    ) -> Result<Cell, AllocError>
        requires positive { IsPositive (metric_of metric) }
        requires entries { EntriesAtMost (10 ^ 16) (metric_of metric) }
        requires scale_at_least { pos 1 ≤ℤ scale }
        requires scale_at_most { scale ≤ℤ pos (10 ^ 16) }
        requires n_at_least { 1 ≤ n }
        requires n_at_most { n ≤ 10 ^ 6 }
        requires k_at_least { 1 ≤ k }
        requires k_at_most { k ≤ 10 ^ 6 }
        requires species { first.species ≡ 0 }
        requires place { IsWithinCell n (triple_of first.place) }
        requires moment { CoordinatesAtMost (2 * 10 ^ 27) first.moment }
        requires of_kind { IsOfKind kind first.moment }
        ensures { IfOk result (λ c. c ≡ record { names = name ∷ []; scale = scale; metric = metric_of metric; n = n; k = k; kind = kind; atoms = atom_of first ∷ [] }) }
    {
        let mut names = Vec::new(alloc);
        names.push(name)?;
        let mut atoms = Vec::new(alloc);
        atoms.push(first)?;
        Ok(Cell {
            names,
            scale,
            metric,
            n,
            k,
            kind,
            atoms,
        })
    }

    /// Adds the name of a further species, up to `MOST_NAMES` names, and gives its number.
    ///
    /// Refuses for want of memory alone, and then leaves the cell as it was.
    pub fn add_name(&mut self, name: Name) -> Result<u16, AllocError>
        requires new { IsMember name self.old.names → ⊥ }
        requires fewer { length self.old.names < MOST_NAMES }
        ensures number { IfOk result (λ number. number ≡ length self.old.names) }
        ensures value { OnOk result (self.new ≡ record self.old { names = self.old.names ++ name ∷ [] }) }
        ensures unchanged { OnErr result (self.new ≡ self.old) }
    {
        let number = self.names.len() as u16;
        self.names.push(name)?;
        Ok(number)
    }

    /// Adds the names of another cell, of which the first is there.
    ///
    /// Refuses for want of memory alone.
    pub fn add_names_of(&mut self, cell: &Cell) -> Result<(), AllocError>
        requires { self.old.names ≡ take 1 cell.now.names }
        ensures { OnOk result (self.new ≡ record self.old { names = cell.now.names }) }
    {
        cell.invariant();
        for species in 1..cell.names() {
            self.add_name(cell.name(species as u16).copied())?;
        }
        Ok(())
    }

    /// The number of the first atom at a position. It looks at each atom in turn.
    fn first_at(&self, place: [u32; 3]) -> Option<usize>
        ensures found { IfSome result (IsOccupant self.now.atoms (triple_of place)) }
        ensures absent { IfNone result (NoneAt (triple_of place) self.now.atoms) }
    {
        first_occupant(&self.atoms, place)
    }

    /// Whether no atom is at a position within the cell. It looks at each atom in turn.
    pub fn is_free(&self, place: [u32; 3]) -> bool
        ensures { IsTrue result ↔ NoneAt (triple_of place) self.now.atoms }
    {
        match self.first_at(place) {
            Some(_) => false,
            None => true,
        }
    }

    /// Adds an atom of a named species, with a moment of the cell's kind, at a position within the cell where no atom is.
    ///
    /// Refuses for want of memory alone, and then leaves the cell as it was.
    pub fn add(&mut self, atom: Atom) -> Result<(), AllocError>
        requires atom { IsCellAtom (length self.old.names) self.old.n self.old.kind (atom_of atom) }
        requires free { NoneAt (triple_of atom.place) self.old.atoms }
        requires fewer { length self.old.atoms < MOST_ATOMS }
        ensures value { OnOk result (self.new ≡ record self.old { atoms = self.old.atoms ++ atom_of atom ∷ [] }) }
        ensures unchanged { OnErr result (self.new ≡ self.old) }
    {
        self.atoms.push(atom)?;
        Ok(())
    }

    /// The unit of the metric tensor: its entries divided by the scale are those of the axes.
    pub fn scale(&self) -> Int
        ensures { result ≡ self.now.scale }
    {
        self.scale
    }

    /// The metric tensor, in units of 1/scale.
    pub fn metric(&self) -> &Metric
        ensures { metric_of result.now ≡ self.now.metric }
    {
        &self.metric
    }

    /// The parts into which positions divide each axis.
    pub fn n(&self) -> u32
        ensures { result ≡ self.now.n }
    {
        self.n
    }

    /// The parts in which moments are counted.
    pub fn k(&self) -> u32
        ensures { result ≡ self.now.k }
    {
        self.k
    }

    /// The kind of the moments.
    pub fn kind(&self) -> MomentKind
        ensures { result ≡ self.now.kind }
    {
        self.kind
    }

    /// That a cell is one, within the limits. It does nothing.
    pub fn invariant(&self)
        ensures cell { IsCell self.now }
        ensures form { IsCellWithinLimits self.now }
    {
        let _ = &self.names;
    }

    /// How many atoms the cell has, 1 to `MOST_ATOMS`.
    pub fn count(&self) -> usize
        ensures value { result ≡ length self.now.atoms }
        ensures cell { IsCell self.now }
        ensures form { IsCellWithinLimits self.now }
    {
        self.atoms.len()
    }

    /// How many species have a name, up to `MOST_NAMES`.
    pub fn names(&self) -> usize
        ensures { result ≡ length self.now.names }
    {
        self.names.len()
    }

    /// The atom number i, from 0.
    pub fn atom(&self, i: usize) -> &Atom
        requires { i < length self.now.atoms }
        ensures value { slice_get self.now.atoms i ≡ Some (atom_of result.now) }
        ensures form { IsCellAtom (length self.now.names) self.now.n self.now.kind (atom_of result.now) }
    {
        &self.atoms[i]
    }

    /// The name of a species.
    pub fn name(&self, species: u16) -> &Name
        requires { species < length self.now.names }
        ensures { slice_get self.now.names species ≡ Some result.now }
    {
        &self.names[species as usize]
    }

    /// The number of the atom at a position, or `None` where no atom is there.
    pub(crate) fn occupant(&self, index: &PlaceIndex, place: [u32; 3]) -> Option<usize>
        requires { Covers self.now.atoms index.now }
        ensures found { IfSome result (IsOccupant self.now.atoms (triple_of place)) }
        ensures below { IfSome result (λ i. i < length self.now.atoms) }
        ensures absent { IfNone result (NoneAt (triple_of place) self.now.atoms) }
    {
        find_occupant(&self.atoms, index, place)
    }

    /// An index of the positions of its atoms.
    pub(crate) fn index(&self, alloc: Global) -> Result<PlaceIndex, AllocError>
        ensures { IfOk result (Covers self.now.atoms) }
    {
        PlaceIndex::new(alloc, &self.atoms)
    }

    /// The same cell again.
    pub(crate) fn copied(&self, alloc: Global) -> Result<Cell, AllocError>
        ensures { IfOk result (λ copy. copy ≡ self.now) }
    {
        let names = copy_of_names(alloc, &self.names)?;
        let atoms = Vec::from_slice(alloc, &self.atoms)?;
        Ok(Cell {
            names,
            scale: self.scale,
            metric: self.metric,
            n: self.n,
            k: self.k,
            kind: self.kind,
            atoms,
        })
    }
}

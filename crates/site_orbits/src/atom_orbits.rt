// The orbits of the atoms of a cell, as a list.

ghost use Rattle.std.specs.Prelude.{◌≡◌, ◌<◌, length, slice_get, IfSome};

use op_group::OpList;
use std::marker::Model;

/// The orbit of an atom, and its site-symmetry group.
#[derive(Drop)]
pub(crate) struct Entry {
    first: usize,
    size: u32,
    site: OpList,
}

impl Model for Entry {
    ghost use Rattle.site_orbits.specs.Entries.{AtomOrbit};

    ghost Value = { AtomOrbit };

    ghost view = { λ e. record { first = e.first; size = e.size; site = e.site } };
}

impl Entry {
    /// The orbit of an atom of these parts.
    pub(crate) fn new(first: usize, size: u32, site: OpList) -> Entry
        ensures { result ≡ record { first = first; size = size; site = site } }
    {
        Entry { first, size, site }
    }
}

/// The orbits of the atoms of a cell: which atoms are symmetry-equivalent, and their site-symmetry groups.
#[derive(Drop)]
pub struct Orbits {
    entries: Vec<Entry>,
}

impl Model for Orbits {
    ghost use Rattle.std.specs.Prelude.{List};
    ghost use Rattle.site_orbits.specs.Entries.{AtomOrbit};

    ghost Value = { List AtomOrbit };

    ghost view = { λ o. o.entries.items };
}

impl Orbits {
    /// The orbits of these atoms.
    pub(crate) fn new(entries: Vec<Entry>) -> Orbits
        ensures { result ≡ entries.items }
    {
        Orbits { entries }
    }

    /// How many atoms the cell has.
    pub fn count(&self) -> usize
        ensures { result ≡ length self.now }
    {
        self.entries.len()
    }

    /// The number of the first atom of the cell that is symmetry-equivalent to the atom number i, from 0.
    pub fn first(&self, i: usize) -> usize
        requires { i < length self.now }
        ensures { IfSome (slice_get self.now i) (λ orbit. result ≡ orbit.first) }
    {
        self.entries[i].first
    }

    /// The number of atoms of the primitive cell to whose positions operations carry that of the atom number i.
    pub fn size(&self, i: usize) -> u32
        requires { i < length self.now }
        ensures { IfSome (slice_get self.now i) (λ orbit. result ≡ orbit.size) }
    {
        self.entries[i].size
    }

    /// The site-symmetry group of the atom number i: the operations of the primitive cell that carry its position to itself
    /// modulo n, in order.
    pub fn site(&self, i: usize) -> &OpList
        requires { i < length self.now }
        ensures { IfSome (slice_get self.now i) (λ orbit. result.now ≡ orbit.site) }
    {
        &self.entries[i].site
    }
}

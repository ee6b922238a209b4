//! The orbits of the atoms of a cell under all symmetry operations of its crystal, with site-symmetry groups.
//!
//! Two atoms are symmetry-equivalent, or alike, where an operation carries the position of the one to that of the other, but
//! for whole cells. Operations and site-symmetry groups are in the basis of the primitive cell, atoms those of the cell that
//! it was made of; Q is P⁻¹, which takes coordinates in the cell to those in the primitive cell. Positions and
//! translation parts are in units of 1/n. The definitions are those of crystal_spec and basis_spec, and specs/Orbits.antt.
#![tactic(auto)]

mod atom_orbits;
mod equivalent;
mod images;
mod position;

pub use atom_orbits::Orbits;
pub use equivalent::orbits;

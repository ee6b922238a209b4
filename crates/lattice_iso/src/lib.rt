//! The isometries of a lattice: all integer matrices that keep the metric tensor of a Niggli-reduced basis.
//!
//! A matrix acts from the left on columns of coordinates along the axes, and W is an isometry of the metric tensor G where
//! Wᵀ G W = G. The contract speaks of all integer matrices (`specs/Isometries.antt`). In a reduced basis each isometry has
//! entries -1, 0 and 1: the proof stands in lattice_spec.
#![tactic(auto)]

mod columns;
mod list;
mod search;

pub use columns::{CANDIDATES, candidate, product};
pub use list::Isos;
pub use search::isometries;

//! All symmetry operations of a crystal, with or without time reversal, each once and in order: those of its primitive
//! cell, and from these the ones in the cell that the primitive cell was made of.
//!
//! Matrices act from the left on columns of coordinates; translation parts are in units of 1/n, each coordinate from 0 to
//! n - 1. Q takes coordinates in the cell to those in the primitive cell. The definitions are those of crystal_spec and
//! basis_spec.
#![tactic(auto)]

mod carried;
mod full;

pub use carried::in_cell;
pub use full::full_group;

//! The pure translations of a crystal, and its primitive cell in a Niggli-reduced basis.
//!
//! Translations and positions are in units of 1/n along the axes. A basis change P has the new basis vectors as columns; Q
//! is Q is P⁻¹, which takes coordinates to those in the new basis. The definitions are those of basis_spec and lattice_spec.
#![tactic(auto)]

mod basis;
mod primitive_cell;
mod rebased;
mod reduced;
mod translation;

pub use primitive_cell::Primitive;
pub use reduced::primitive;
pub use translation::pure_shifts;

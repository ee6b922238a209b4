//! Pure translations of a crystal, step bases of their lattice, the same crystal in another basis, maps of one crystal onto
//! another, and operations carried to another basis.
//!
//! Positions and translations are integers in units of 1/n along the axes, of any size here. A change of basis P has the
//! new basis vectors as columns; Q is P⁻¹, which takes coordinates to those in the new basis. It is of integers, since
//! the new vectors are a basis of the translations and the old axes are among these. The definitions stand in `specs/` and
//! the lemmas in `proofs/`; the crate has no function.
#![tactic(auto)]

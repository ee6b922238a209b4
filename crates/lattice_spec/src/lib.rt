//! The Niggli conditions of a metric tensor, and what holds of lattices in a reduced basis.
//!
//! A metric tensor is that of the axes a, b and c of a lattice, in integers of any size. Letters as in the source: A, B
//! and C are the squared lengths of a, b and c; ξ, η and ζ are twice the scalar products b·c, a·c and a·b. The
//! definitions stand in `specs/`; the crate has no function.
#![tactic(auto)]

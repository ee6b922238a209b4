//! Niggli reduction of a metric tensor, with the basis change that leads to the reduced basis and its inverse.
//!
//! A basis change P has the new axes as columns, in the old ones, so the new metric tensor is PᵀGP. The conditions of a
//! reduced metric tensor are those of lattice_spec [KG76]. The order of the steps is our own.
#![tactic(auto)]

mod choice;
mod number;
mod reduction;
mod step;

pub use reduction::{Reduced, reduce};

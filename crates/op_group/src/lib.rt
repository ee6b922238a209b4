//! Symmetry operations with translation parts modulo n: their order, strictly increasing lists of them, compositions and
//! inverses, and the triangular basis of a list's pure translations.
//!
//! An operation is a matrix that acts from the left on columns of coordinates, a translation part in units of 1/n, and
//! a time sign. Operations are ordered by the nine entries of the matrix row by row, then by the translation part,
//! then +1 before -1. In a contract an operation is seen as an `Operation`, and a list of them as an `OperationList`;
//! what comes after what is in `specs/Composition.antt`, and what a triangular (Hermite-form) basis is in basis_spec's
//! `specs/StepBases.antt`.
#![tactic(auto)]

mod composition;
mod list;
mod operation;
mod steps;

pub use composition::{compose, inverse};
pub use list::OpList;
pub use operation::{Op, compare};
pub use steps::{Steps3, step_basis};

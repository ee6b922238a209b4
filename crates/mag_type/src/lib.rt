//! The type of a magnetic space group, and how many operations its family group and its maximal space subgroup have.
//!
//! The group is a list of operations: matrices that act from the left on columns of coordinates, translation parts in units
//! of 1/n modulo whole cells, and time signs. The family group is made of the pairs (W, w) of its operations, and the maximal
//! space subgroup of the operations of sign +1 [STT23]. What these are stands in `specs/Families.antt`, what the types I to
//! IV are in `specs/MagneticTypes.antt`, and what a group is in op_group's `specs/Groups.antt`.
#![tactic(auto)]

mod classification;

pub use classification::{Kind, classify};

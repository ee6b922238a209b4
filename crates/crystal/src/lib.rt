//! Cells of magnetic crystals, the atoms by position, and the test whether one map keeps the crystal.
//!
//! A cell is seen as a `Structure` of crystal_spec: the metric tensor of the axes in units of 1/scale, positions in units
//! of 1/n and moments in units of 1/k, both along the axes. The cell's kind says whether moments are vectors or scalars,
//! and whether they are axial; each kind is acted on by one matrix.
#![tactic(auto)]

mod action;
mod atom;
mod carrying;
mod cell;
mod failure;
mod limits;
mod metric;
mod moments;
mod name;
mod occupant;
mod place_index;
mod places;
mod rarest;
mod steps;

pub use action::Action;
pub use atom::Atom;
pub use cell::Cell;
pub use crystal_spec::{MomentKind, Sign};
pub use failure::Failure;
pub use limits::{MOST_ATOMS, MOST_NAMES};
pub use metric::Metric;
pub use moments::{moment_matrix, turn_matrix};
pub use name::Name;
pub use places::Places;
pub use steps::Steps;

//! The definitions of a magnetic crystal and of its symmetry operations, which every contract above cites.
//!
//! A crystal is the infinite periodic set of atoms that a cell stands for. Positions and translations are integers in
//! units of 1/n along the axes, moments integers in units of 1/k, and both are of any size here. Matrices act from the
//! left on columns of coordinates. Moments are vectors or scalars, axial or not, and time reversal turns them round. The
//! definitions stand in `specs/`; the crate has no function.
#![tactic(auto)]

/// Whether an operation reverses time. `Same` comes first.
#[derive(Clone, Copy, Debug, PartialEq, Eq, PartialOrd, Ord)]
pub enum Sign {
    /// Time runs on: +1.
    Same,
    /// Time is reversed: -1.
    Reversed,
}

/// What kind of quantity the moments of a crystal are.
#[derive(Clone, Copy, Debug, PartialEq, Eq)]
pub struct MomentKind {
    /// Whether a moment is a vector, along a, b, c. If not, it is one number s, kept as (s, 0, 0).
    pub vector: bool,
    /// Whether a map multiplies moments by its determinant too, as it does axial vectors.
    pub axial: bool,
}

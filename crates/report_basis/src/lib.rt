//! The basis, or the two, that a report speaks of.
//!
//! A type of its own, so that the answers of commands and the statuses of a run share it and neither stands on the other.
#![tactic(auto)]

use exact_num::Int;
use matrix3::Mat3;

/// The basis, or the two, that a report speaks of.
#[derive(Clone, Copy, Debug, PartialEq, Eq)]
pub enum Kept {
    /// The report speaks of no basis but that of the input.
    NoBase,

    /// The report speaks of the basis to which Q = P⁻¹ takes coordinates, where P has its vectors as columns.
    Back(Mat3<Int>),

    /// The report speaks of two bases of this kind, that of the cell of the input and that of another cell.
    Two(Mat3<Int>, Mat3<Int>),
}

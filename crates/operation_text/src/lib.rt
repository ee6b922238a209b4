//! The lines of symmetry operations, whole lists or pages of them, and the entries of matrices.
//!
//! A list of symmetry operations is one line an operation, as `-y,x,z+1/2,-1`, with LF at its end: the image of a
//! position x, y, z in three parts, one a coordinate, and the time sign. `specs/OperationText.antt` says the texts in
//! full, `specs/Pages.antt` what a page of a list is. The entries of a matrix stand row by row, each behind a space
//! (`specs/EntryText.antt`).
#![tactic(auto)]

mod entries;
mod operations;
mod pages;

pub use entries::push_entries;
pub use operations::{ops_report, push_parts, push_sign, push_terms};
pub use pages::pages_resume;

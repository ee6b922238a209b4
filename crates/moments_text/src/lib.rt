//! The texts of the moments that the atoms of a cell allow, and of filled cells.
//!
//! `moments_report` gives one line with Q of the primitive cell, then a line an atom: its number from 1, its name, the allowed
//! count and the nine entries of the projector onto the moments that its site allows. `fill_report` gives the cell file of a
//! filled cell, with Q as a comment. `specs/MomentsText.antt` and `specs/FilledText.antt` say the texts in full.
#![tactic(auto)]

mod filled;
mod moments;

pub use filled::fill_report;
pub use moments::moments_report;

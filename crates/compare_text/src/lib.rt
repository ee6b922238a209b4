//! The text of the maps that carry one crystal onto another.
//!
//! A line with Q of each of the two cells, then one line for each map, spelled as a symmetry operation; or `none`.
//! `specs/ComparisonText.antt` says the text in full.
#![tactic(auto)]

mod comparison;

pub use comparison::compare_report;

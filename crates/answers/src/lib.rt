//! What each command answers: from a cell, and a table, another cell or a moment, or from a symbol or a seed, to the bytes of
//! its report.
//!
//! One module a command, and beside each a definition file of its report (`specs/SymmetryReports.antt` ..); `found.rt` has
//! what they share, the primitive cell and its symmetry operations. An answer is an enum: a whole report, a whole report in
//! which no row is matched or no map found, or a refusal that a command has of its own, as `hall` has of its symbol.
#![tactic(auto)]

mod answer;
mod compare;
mod dataset;
mod fill;
mod found;
mod hall;
mod identify;
mod moments;
mod orbits;
mod primitive;
mod selfrun;
mod standard;
mod symmetry;

pub use answer::{Answer, Report, answer_of, answer_on_table, report_is_one};
pub use compare::answer_compare;
pub use fill::answer_fill;
pub use hall::answer_hall;
pub use selfrun::answer_selfrun;

//! The text of the standard cell of a table's row.
//!
//! The cell file of the crystal in the basis and with the origin of the row's symbol, with the row and its map as comments
//! behind the first line; or `none`. `specs/StandardText.antt` says the text in full.
#![tactic(auto)]

mod standard_lines;
#[cfg(test)]
mod tests;

pub use standard_lines::{none_report, standard_report};

//! The summary of what is found of a cell, in five lines.
//!
//! A line is a word, a space and a number in decimal, with LF at the end. `specs/SummaryText.antt` says the text in full.
#![tactic(auto)]

mod summary;

pub use summary::summary_report;

#[cfg(test)]
mod tests;

//! The cell file that a seed generates: 512 atoms on a grid of 8 by 8 by 8, with moments by class that a generator draws.
//!
//! Eight numbers are drawn by a linear congruential generator modulo 2^31 (`specs/Generator.antt`), one for each class of
//! atoms: those whose coordinates in eighths are even or odd alike. The text is a cell file `magcell 1`
//! (`specs/GeneratedText.antt`); for every seed it spells the cell of `specs/GeneratedCell.antt`. Our own.
#![tactic(auto)]

mod atoms;
mod generator;
mod text;

pub use text::generate;

#[cfg(test)]
mod tests;

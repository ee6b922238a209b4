//! The text of a cell: reads the cell files `magcell 1` and `magcell 2`.
//!
//! A cell file has a first line `magcell 1` or `magcell 2`, then in any order one metric line and 1 to 1,024 atom lines, then a
//! line `end`. In `magcell 2` a line before the atoms may tell the kind of the moments: scalars or vectors, and axial or plain,
//! which is whether a map multiplies them by its determinant too. Elsewhere they are axial vectors. Numbers are fractions, in
//! `magcell 2` decimals too; positions are in units of the axes and taken modulo 1, moments along the axes. The least common
//! denominators of the metric tensor, of all positions and of all moments are the units of the cell.
//!
//! Definitions: `specs/Lines` (what a line is), `specs/Entries` (what a line says), `specs/Rules` (the first line that breaks a
//! rule) and `specs/CellFile` (the cell that a text spells), over the lines, words and number words of plain_text.
//! The format is our own.
#![tactic(auto)]

mod atom;
mod atom_line;
mod cell;
mod fault;
mod form;
mod in_units;
mod line;
mod metric;
mod names;
mod number_words;
mod read;
mod reader;
mod scaled_metric;
pub mod texts;
mod three;
mod version;

pub use fault::{CellError, CellFault};
pub use read::read_cell;
pub use version::Version;

//! The cell file of a cell, which spells the cell again.
//!
//! The text is a cell file `magcell 1` where moments are axial vectors, and else `magcell 2` with a kind line: the metric
//! tensor, then one line an atom in order, each number in lowest terms. `specs/CellFileText.antt` says the text in full.
#![tactic(auto)]

mod cell_file;

pub use cell_file::{
    print_cell, push_cell, push_heading, push_name, push_products, spelled_is_printable,
};

//! Tests of cells and cell files, reduced lattices and their isometries.
//!
//! Each module tries the public calls of one crate, crystal, cell_text, cell_print, lattice_reduce and lattice_iso, against values from outside. They stand
//! apart from these crates, since a crate with tests of its own is proved a second time with them.
#![tactic(auto)]

#[cfg(test)]
mod cell_files;
#[cfg(test)]
mod cells;
#[cfg(test)]
mod lattice_isometries;
#[cfg(test)]
mod printed_cells;
#[cfg(test)]
mod reduced_lattices;

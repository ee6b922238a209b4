//! Tests of operations, magnetic types, Hall symbols and maps.
//!
//! Each module tries the public calls of one crate, op_group, mag_type, hall_symbol, hall_text, group_match and crystal_compare, against values from outside. They stand
//! apart from these crates, since a crate with tests of its own is proved a second time with them.
#![tactic(auto)]

#[cfg(test)]
mod crystal_maps;
#[cfg(test)]
mod group_maps;
#[cfg(test)]
mod hall_symbols;
#[cfg(test)]
mod hall_tables;
#[cfg(test)]
mod magnetic_types;
#[cfg(test)]
mod operations;

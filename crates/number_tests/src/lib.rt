//! Tests of exact numbers, matrices, words and streams.
//!
//! Each module tries the public calls of one crate, exact_num, matrix3, plain_text and io_edge, against values from outside. They stand
//! apart from these crates, since a crate with tests of its own is proved a second time with them.
#![tactic(auto)]

#[cfg(test)]
mod exact_numbers;
#[cfg(test)]
mod matrices;
#[cfg(test)]
mod streams;
#[cfg(test)]
mod words;

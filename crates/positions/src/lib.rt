//! Positions and translations modulo whole cells, and matrices that carry them.
//!
//! Positions and translations are three natural numbers in units of 1/n; modulo n each is from 0 to n - 1. The definitions
//! stand in `specs/Positions.antt`. No call takes memory.
#![tactic(auto)]

mod columns;
mod matrix_modulo;
mod reduction;
#[cfg(test)]
mod tests;

pub use columns::column;
pub use matrix_modulo::MatrixModulo;
pub use reduction::{between, modulo};

//! The first index at which three lists of numbers agree with a key, and the shift of a list of residues, both by lanes.
//!
//! A chunk of 16 entries is worked on without a branch, so that the compiler can make vector instructions of it; a plain
//! loop does the rest. The contracts speak of whole lists (`specs/Agreement.antt`, `specs/Residues.antt`). Residues are
//! from 0 to n - 1, with n up to 10^6. Nothing takes memory.
#![tactic(auto)]

mod agreement;
mod residues;
#[cfg(test)]
mod tests;

pub use agreement::first_at;
pub use residues::shift_mod;

/// How many entries a chunk has.
const LANES: usize = 16;

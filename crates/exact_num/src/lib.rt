//! Exact numbers: integers, fractions in lowest terms and residues, under one trait.
//!
//! Each value has a meaning, which contracts speak of: an integer, or a fraction. The trait `Exact` says that the
//! operators give the sum, difference, product and opposite of the meanings, and that these obey the laws of a
//! commutative ring among proper meanings of one modulus, of any size.
#![tactic(auto)]

mod divisor;
mod exact;
mod frac;
mod int;
mod residue;

pub use divisor::{gcd, lcm_within};
pub use exact::Exact;
pub use frac::Frac;
pub use int::Int;
pub use residue::Residue;

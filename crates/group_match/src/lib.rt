//! The first map of a class that carries the group of a Hall symbol onto a found magnetic group, or none where there is none.
//!
//! A map is a change of basis Q and an origin shift p: it takes (W, w) to (Q W Q⁻¹, Q w + p - Q W Q⁻¹ p) and keeps the time
//! sign. Q is P S, where S takes coordinates to those in the triangular basis of the symbol's pure translations, and P is a
//! matrix with entries -1, 0 and 1 and determinant +1; p is any three fractions. What carrying a group is, what the balance of
//! a map is, and which map is the first, are defined in match_spec.
#![tactic(auto)]

mod candidate;
mod column;
mod inner;
mod kind;
mod map;
mod maps;
mod member;
mod origin;
mod pair;
mod place;
mod representative;
mod row;
mod search;

pub use map::Map;
pub use maps::Maps;
pub use search::match_row;

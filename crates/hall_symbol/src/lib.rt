//! Hall symbols with time marks: which texts spell one, and the operations that it names.
//!
//! A symbol such as `-P 4 2!` has an optional `-` for the inversion, a lattice letter, one to five rotation tokens and, if it
//! has one, a shift of the origin. Matrices act from the left on columns of coordinates; translation parts are in units of
//! 1/12, from 0 to 11.
//!
//! Definitions: `specs/Symbols` (what a symbol stands for), `specs/TokenForms`, `specs/Rotations`, `specs/Translations`,
//! `specs/Tokens` and `specs/Spelling` (the grammar, and the first fault from the left), `specs/Compositions` (operations
//! modulo whole translations) and `specs/FaultTexts`. The notation is Hall's [Hal81; ITVB A1.4.2.3]. Our own profile of it:
//! a fifth token, the mark `!` for time reversal, `=` as another spelling of `"`, the order of the parts of a token, which
//! axes go without saying, and the order of the faults.
#![tactic(auto)]

mod fault;
mod lattice;
mod mark;
mod operations;
mod read;
mod rotation;
mod shift;
mod symbol;
pub mod text;
pub mod texts;
mod token;
mod token_form;
mod translation;

pub use fault::{FaultText, HallFault};
pub use operations::generators;
pub use read::read_symbol;
pub use symbol::Symbol;

//! Hall symbols with time marks: the groups of symbols, and tables of them.
//!
//! The group of a symbol is that of all products of its operations modulo whole translations, with translation parts in
//! units of 1/12. Matrices act from the left on columns of coordinates. A table has a name and a symbol in each row.
//!
//! Definitions: `specs/Products` (the group) and `specs/Tables` (tables of symbols), over those of hall_symbol (what a symbol
//! stands for, and which texts spell one). The format of tables is our own.
#![tactic(auto)]

mod closure;
mod fault;
mod group;
mod limits;
mod listing;
mod matrices;
mod pures;
mod rows;
pub mod texts;

pub use fault::{ExpandError, RowFault, TableError};
pub use group::expand;
pub use hall_symbol::{FaultText, HallFault, Symbol, read_symbol};
pub use limits::MOST_ROWS;
pub use rows::{Table, read_table};

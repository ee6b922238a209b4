//! The texts of reports, byte for byte.
//!
//! Each line of a report ends with LF. The lines of symmetry operations are those of operation_text, and passed on.
//! The text of a primitive cell is a cell file with comments (`specs/PrimitiveText.antt`).
//! The text of orbits is one line an atom, and the lines of each orbit (`specs/OrbitText.antt`).
//! What is found of a cell is one object of JSON (`specs/DatasetText.antt`).
#![tactic(auto)]

mod dataset;
mod orbit_lines;
mod primitives;

pub use cell_print::print_cell;
pub use dataset::dataset_report;
pub use group_match::Maps;
pub use match_text::match_report;
pub use operation_text::{ops_report, pages_resume};
pub use orbit_lines::orbit_report;
pub use primitives::prim_report;
pub use summary_text::summary_report;

// What is said of a text that is no cell, without the number of its line.
pub use plain_text::texts::{BAD_NUMBER, NUMBER_RANGE, ZERO_DENOMINATOR};

/// Of `CellFault::NotMagcell`.
pub const NOT_MAGCELL: &str = "not a magcell 1 or 2 file";

/// Of `CellFault::BadByte`.
pub const BAD_BYTE: &str = "byte is not plain ASCII";

/// Of `CellFault::BadLine`.
pub const BAD_LINE: &str = "line has no known form";

/// Of `CellFault::MetricTwice`.
pub const METRIC_TWICE: &str = "metric is given twice";

/// Of `CellFault::KindTwice`.
pub const KIND_TWICE: &str = "kind is given twice";

/// Of `CellFault::KindLate`.
pub const KIND_LATE: &str = "kind must stand before the atoms";

/// Of `CellFault::MetricMissing`.
pub const METRIC_MISSING: &str = "metric is missing";

/// Of `CellFault::MetricRange`.
pub const METRIC_RANGE: &str = "metric is out of range";

/// Of `CellFault::NotPositive`.
pub const NOT_POSITIVE: &str = "metric is not positive";

/// Of `CellFault::PositionRange`.
pub const POSITION_RANGE: &str = "positions have no common denominator up to 1000000";

/// Of `CellFault::MomentRange`.
pub const MOMENT_RANGE: &str = "moments are out of range";

/// Of `CellFault::TooManyAtoms`.
pub const TOO_MANY_ATOMS: &str = "more than 1024 atoms";

/// Of `CellFault::NoAtom`.
pub const NO_ATOM: &str = "no atom";

/// Of `CellFault::SamePlace`, before the number of the first atom.
pub const BEFORE_ATOMS: &str = "atoms ";

/// Of `CellFault::SamePlace`, between the numbers of the two atoms.
pub const BETWEEN_ATOMS: &str = " and ";

/// Of `CellFault::SamePlace`, behind the number of the second atom.
pub const BEHIND_ATOMS: &str = " stand at one place";

/// Of `CellFault::NoEnd`.
pub const NO_END: &str = "end is missing";

/// Of `CellFault::AfterEnd`.
pub const AFTER_END: &str = "text after end";

/// Of `CellError::Memory`.
pub const OUT_OF_MEMORY: &str = "out of memory";

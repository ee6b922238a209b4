// The texts of the faults of a row. That of a symbol's fault is in hall_symbol, and that of too many rows has the number of
// rows in the middle.

/// Of `TooManyMatrices`.
pub const TOO_MANY_MATRICES: &str = "more than 48 matrices";

/// In front of the number of rows, of `TooManyRows`.
pub const MORE_THAN: &str = "more than ";

/// Behind the number of rows, of `TooManyRows`.
pub const ROWS: &str = " rows";

/// Of `BadRow`.
pub const BAD_ROW: &str = "row has no known form";

/// Of `Memory`.
pub const OUT_OF_MEMORY: &str = "out of memory";

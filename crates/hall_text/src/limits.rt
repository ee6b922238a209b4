// What a table may have.

/// How many rows a table has at most.
pub const MOST_ROWS: usize = 4_000;

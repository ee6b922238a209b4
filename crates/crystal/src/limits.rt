// What a cell may have.

/// How many atoms a cell has at most.
pub const MOST_ATOMS: usize = 1_024;

/// How many species of a cell have a name at most.
pub const MOST_NAMES: usize = 1_024;

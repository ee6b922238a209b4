// The texts of the faults of a symbol. In front of those of a token stands `TOKEN` and its number.

/// Of `Empty`.
pub const EMPTY: &str = "symbol is empty";

/// Of `BadLattice`.
pub const BAD_LATTICE: &str = "unknown lattice";

/// In front of the number of a token.
pub const TOKEN: &str = "token ";

/// Of `BadToken`, behind the number of the token.
pub const BAD_TOKEN: &str = " has no known form";

/// Of `NoAxis`, behind the number of the token.
pub const NO_AXIS: &str = " needs an axis";

/// Of `BadScrew`, behind the number of the token.
pub const BAD_SCREW: &str = " has a wrong screw digit";

/// Of `TooManyTokens`.
pub const TOO_MANY_TOKENS: &str = "more than five tokens";

/// Of `BadShift`.
pub const BAD_SHIFT: &str = "shift has no known form";

// What is said of the faults of number words.

/// Of `NumberFault::BadNumber`.
pub const BAD_NUMBER: &str = "not a number";

/// Of `NumberFault::NumberRange`.
pub const NUMBER_RANGE: &str = "number has more than 18 digits";

/// Of `NumberFault::ZeroDenominator`.
pub const ZERO_DENOMINATOR: &str = "denominator is zero";

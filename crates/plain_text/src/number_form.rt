// Which numbers are read.

/// The form that a number may have. Either may stand behind a `-`.
#[derive(Clone, Copy, Debug, PartialEq, Eq)]
pub enum NumberForm {
    /// A fraction: digits, and optionally `/` and digits.
    Fraction,
    /// A fraction, or a decimal: digits, `.` and digits.
    FractionOrDecimal,
}

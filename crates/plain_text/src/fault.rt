// Why a word is no number.
use crate::texts::{BAD_NUMBER, NUMBER_RANGE, ZERO_DENOMINATOR};
use thiserror::Error;

/// Why a word spells no number.
#[derive(Clone, Copy, Debug, PartialEq, Eq, Error)]
pub enum NumberFault {
    /// The word does not have the form of a number.
    #[error("{text}", text = BAD_NUMBER)]
    BadNumber,
    /// The numerator or denominator has more than 18 digits, or a decimal more than 18 before and behind the point together.
    #[error("{text}", text = NUMBER_RANGE)]
    NumberRange,
    /// The denominator is 0.
    #[error("{text}", text = ZERO_DENOMINATOR)]
    ZeroDenominator,
}

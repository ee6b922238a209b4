// Why a text is no cell.
ghost use Rattle.std.specs.Prelude.{◌≡◌};
ghost use Rattle.cell_text.specs.Lines.{rule_of};
ghost use Rattle.cell_text.specs.Views.{error_at};
ghost use Rattle.cell_text.specs.declared.fault.CellError.TheVariants as answers;
ghost use Rattle.cell_text.specs.declared.fault.LineError.TheVariants as errors;

use crate::texts;
use plain_text::NumberFault;
use std::alloc::{AllocError, AllocFailed};
use thiserror::Error;

/// The rule of the cell file that a line breaks.
#[derive(Clone, Copy, Debug, PartialEq, Eq, Error)]
pub enum CellFault {
    /// The first line is neither `magcell 1` nor `magcell 2`, or there is none.
    #[error("{text}", text = texts::NOT_MAGCELL)]
    NotMagcell,
    /// The line has a byte other than tab and the bytes from space to `~`.
    #[error("{text}", text = texts::BAD_BYTE)]
    BadByte,
    /// The line has none of the forms of a metric line, an atom line, an end line and, in version 2, a kind line; an atom line has
    /// one number behind the position where moments are scalars, three where they are vectors, or none.
    #[error("{text}", text = texts::BAD_LINE)]
    BadLine,
    /// A word does not have the form of a number: a fraction or, in version 2, a fraction or a decimal.
    #[error("{text}", text = texts::BAD_NUMBER)]
    BadNumber,
    /// A numerator or denominator has more than 18 digits, or a decimal more than 18 before and behind the point together.
    #[error("{text}", text = texts::NUMBER_RANGE)]
    NumberRange,
    /// A denominator is 0.
    #[error("{text}", text = texts::ZERO_DENOMINATOR)]
    ZeroDenominator,
    /// A metric line stood before.
    #[error("{text}", text = texts::METRIC_TWICE)]
    MetricTwice,
    /// A kind line stood before.
    #[error("{text}", text = texts::KIND_TWICE)]
    KindTwice,
    /// A kind line stands here, and an atom line stood before.
    #[error("{text}", text = texts::KIND_LATE)]
    KindLate,
    /// An end line stands here, and no metric line stood before.
    #[error("{text}", text = texts::METRIC_MISSING)]
    MetricMissing,
    /// The least scale, or an entry of the metric tensor times that scale, passes 10^9 in size.
    #[error("{text}", text = texts::METRIC_RANGE)]
    MetricRange,
    /// A leading minor of the metric tensor is not positive.
    #[error("{text}", text = texts::NOT_POSITIVE)]
    NotPositive,
    /// The least common denominator of all positions so far passes 10^6.
    #[error("{text}", text = texts::POSITION_RANGE)]
    PositionRange,
    /// The least common denominator of all moments so far passes 10^6, or a moment times it passes 10^9 in size.
    #[error("{text}", text = texts::MOMENT_RANGE)]
    MomentRange,
    /// `MOST_ATOMS` atom lines stood before.
    #[error("{text}", text = texts::TOO_MANY_ATOMS)]
    TooManyAtoms,
    /// An end line stands here, and no atom line stood before.
    #[error("{text}", text = texts::NO_ATOM)]
    NoAtom,
    /// The second atom stands at the position of the first; atoms are counted from 1.
    #[error("{before}{0}{between}{1}{behind}", before = texts::BEFORE_ATOMS, between = texts::BETWEEN_ATOMS, behind = texts::BEHIND_ATOMS)]
    SamePlace(u32, u32),
    /// No line broke a rule, and there is no end line.
    #[error("{text}", text = texts::NO_END)]
    NoEnd,
    /// The line stands behind the end line.
    #[error("{text}", text = texts::AFTER_END)]
    AfterEnd,
}

impl From<NumberFault> for CellFault {
    ghost from_gives = { λ fault rule. rule ≡ rule_of fault };

    fn from(fault: NumberFault) -> CellFault {
        match fault {
            NumberFault::BadNumber => CellFault::BadNumber,
            NumberFault::NumberRange => CellFault::NumberRange,
            NumberFault::ZeroDenominator => CellFault::ZeroDenominator,
        }
    }
}

/// Why no cell was read.
#[derive(Clone, Copy, Debug, PartialEq, Eq, Error)]
pub enum CellError {
    /// The line with this number, from 1, is the first that breaks a rule.
    #[error("line {0}: {1}")]
    Refused(u32, CellFault),
    /// There is not enough memory.
    #[error("{text}", text = texts::OUT_OF_MEMORY)]
    Memory,
}

/// Why a line is not read.
#[derive(Clone, Copy)]
pub(crate) enum LineError {
    /// The line breaks this rule.
    Fault(CellFault),
    /// There is not enough memory.
    Memory,
}

impl From<AllocError> for CellError {
    ghost from_gives = { λ _ error. error ≡ answers.Memory };

    fn from(_error: AllocError) -> CellError {
        CellError::Memory
    }
}

impl From<CellFault> for LineError {
    ghost from_gives = { λ fault error. error ≡ errors.Fault fault };

    fn from(fault: CellFault) -> LineError {
        LineError::Fault(fault)
    }
}

impl From<AllocError> for LineError {
    ghost from_gives = { λ _ error. error ≡ errors.Memory };

    fn from(_error: AllocError) -> LineError {
        LineError::Memory
    }
}

impl<T: Drop> From<AllocFailed<T>> for LineError {
    ghost from_gives = { λ _ error. error ≡ errors.Memory };

    fn from(_error: AllocFailed<T>) -> LineError {
        LineError::Memory
    }
}

impl LineError {
    /// Why no cell was read, where this is why the line with this number was not.
    pub(crate) fn at(self, line: u32) -> CellError
        ensures { result ≡ error_at line self }
    {
        match self {
            LineError::Fault(fault) => CellError::Refused(line, fault),
            LineError::Memory => CellError::Memory,
        }
    }
}

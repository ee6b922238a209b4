ghost use Rattle.std.specs.Prelude.{◌≡◌};
ghost use Rattle.hall_symbol.specs.FaultTexts.{text_of};
ghost use Rattle.hall_text.specs.RowTexts.{row_text};

use crate::limits::MOST_ROWS;
use crate::texts::{BAD_ROW, MORE_THAN, OUT_OF_MEMORY, ROWS, TOO_MANY_MATRICES};
use hall_symbol::{FaultText, HallFault};
use thiserror::Error;

/// Why the group of a symbol is not listed.
#[derive(Clone, Copy, Debug, PartialEq, Eq, Error)]
pub enum ExpandError {
    /// Products of the symbol's operations have a 49th different matrix.
    #[error("{text}", text = TOO_MANY_MATRICES)]
    TooManyMatrices,
    /// There is not enough memory.
    #[error("{text}", text = OUT_OF_MEMORY)]
    Memory,
}

/// Why a row of a table is none.
#[derive(Clone, Copy, Debug, PartialEq, Eq, Error)]
pub enum RowFault {
    /// The symbol has this fault.
    #[error("{0}")]
    Symbol(HallFault),
    /// Products of the symbol's operations have a 49th different matrix.
    #[error("{text}", text = TOO_MANY_MATRICES)]
    TooManyMatrices,
    /// `MOST_ROWS` rows stood before.
    #[error("{front}{number}{back}", front = MORE_THAN, number = MOST_ROWS, back = ROWS)]
    TooManyRows,
    /// The row has a byte other than tab and those from space to `~`, fewer than two words, or a name of more than 32 bytes.
    #[error("{text}", text = BAD_ROW)]
    BadRow,
}

impl RowFault {
    /// The text of the fault, in pieces.
    pub fn text(&self) -> FaultText
        ensures { text_of result ≡ row_text self.now }
    {
        match self {
            RowFault::Symbol(fault) => fault.text(),
            RowFault::TooManyMatrices => FaultText::plain(TOO_MANY_MATRICES),
            RowFault::TooManyRows => FaultText::numbered(MORE_THAN, MOST_ROWS as u32, ROWS),
            RowFault::BadRow => FaultText::plain(BAD_ROW),
        }
    }
}

/// Why no table was read.
#[derive(Clone, Copy, Debug, PartialEq, Eq, Error)]
pub enum TableError {
    /// The row with this number, from 1, is the first with a fault, and this is its first.
    #[error("row {0}: {1}")]
    Refused(u32, RowFault),
    /// There is not enough memory.
    #[error("{text}", text = OUT_OF_MEMORY)]
    Memory,
}

/// Why a row is not read.
#[derive(Clone, Copy)]
pub(crate) enum RowError {
    /// The row has this fault.
    Fault(RowFault),
    /// There is not enough memory.
    Memory,
}

ghost use Rattle.std.specs.Prelude.{◌≡◌};
ghost use Rattle.hall_symbol.specs.FaultTexts.{text_of, numbered_text, fault_text};

use crate::texts::{
    BAD_LATTICE, BAD_SCREW, BAD_SHIFT, BAD_TOKEN, EMPTY, NO_AXIS, TOKEN, TOO_MANY_TOKENS,
};
use thiserror::Error;

/// Why a text is no Hall symbol: the first fault from the left. Tokens are counted from 1.
#[derive(Clone, Copy, Debug, PartialEq, Eq, Error)]
pub enum HallFault {
    /// There is no word.
    #[error("{text}", text = EMPTY)]
    Empty,
    /// The first word is not a lattice letter P, A, B, C, I, R or F, with or without `-` in front.
    #[error("{text}", text = BAD_LATTICE)]
    BadLattice,
    /// The token has not the form of a rotation, or its axis does not go with its order, or there is no token 1.
    #[error("{front}{0}{back}", front = TOKEN, back = BAD_TOKEN)]
    BadToken(u32),
    /// The token has no axis, and none goes without saying.
    #[error("{front}{0}{back}", front = TOKEN, back = NO_AXIS)]
    NoAxis(u32),
    /// The screw digit of the token is not below its order, or its axis is not x, y or z.
    #[error("{front}{0}{back}", front = TOKEN, back = BAD_SCREW)]
    BadScrew(u32),
    /// A sixth token begins.
    #[error("{text}", text = TOO_MANY_TOKENS)]
    TooManyTokens,
    /// What begins with the first bracket is not a shift and spaces.
    #[error("{text}", text = BAD_SHIFT)]
    BadShift,
}

/// The text of a fault in pieces: what stands in front of its number, the number, where it has one, and what stands behind it.
#[derive(Clone, Copy)]
pub struct FaultText {
    /// What stands in front of the number; all of the text where there is no number.
    pub front: &'static str,
    /// The number, which is printed in decimal digits.
    pub number: Option<u32>,
    /// What stands behind the number.
    pub back: &'static str,
}

impl FaultText {
    /// A text without a number.
    pub fn plain(text: &'static str) -> FaultText
        ensures { text_of result ≡ text.now }
    {
        FaultText {
            front: text,
            number: None,
            back: "",
        }
    }

    /// A text with a number in it.
    pub fn numbered(front: &'static str, number: u32, back: &'static str) -> FaultText
        ensures { text_of result ≡ numbered_text front.now number back.now }
    {
        FaultText {
            front,
            number: Some(number),
            back,
        }
    }
}

impl HallFault {
    /// The text of the fault, in pieces.
    pub fn text(&self) -> FaultText
        ensures { text_of result ≡ fault_text self.now }
    {
        match self {
            HallFault::Empty => FaultText::plain(EMPTY),
            HallFault::BadLattice => FaultText::plain(BAD_LATTICE),
            HallFault::BadToken(t) => FaultText::numbered(TOKEN, *t, BAD_TOKEN),
            HallFault::NoAxis(t) => FaultText::numbered(TOKEN, *t, NO_AXIS),
            HallFault::BadScrew(t) => FaultText::numbered(TOKEN, *t, BAD_SCREW),
            HallFault::TooManyTokens => FaultText::plain(TOO_MANY_TOKENS),
            HallFault::BadShift => FaultText::plain(BAD_SHIFT),
        }
    }
}

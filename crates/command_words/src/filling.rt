// The moment that is given for an atom.

ghost use Rattle.std.specs.Prelude.{◌≡◌};
ghost use Rattle.command_words.specs.Commands.{component_of};

use crate::command::UsageFault;
use crate::options::count;

/// A moment for an atom.
#[derive(Clone, Copy, Debug, PartialEq, Eq)]
pub struct Filling {
    /// The number of the atom, from 1; 0 and numbers that no atom has are read too.
    pub atom: u32,

    /// The component along the first axis of the primitive cell; for a scalar moment its value. Sizes are below 10^9.
    pub a: i64,

    /// The component along the second axis.
    pub b: i64,

    /// The component along the third axis.
    pub c: i64,
}

/// A component of a moment: 1 to 9 digits, with a minus before them or none.
pub(crate) fn component(word: &[u8]) -> Result<i64, UsageFault>
    ensures { result ≡ component_of word.now }
{
    if let [first, digits @ ..] = word {
        if *first == b'-' {
            let size = count(digits)?;
            return Ok(-(size as i64));
        }
    }
    let size = count(word)?;
    Ok(size as i64)
}

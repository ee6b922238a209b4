// The mark of the axis of a token.
ghost use Rattle.std.specs.Prelude.{◌≡◌};
ghost use Rattle.hall_symbol.specs.TokenForms.{axis_mark, is_written, goes_with};

use crate::symbol::Axis;

/// The axis of a token as it is written.
#[derive(Clone, Copy)]
pub(crate) enum Mark {
    /// No axis is written.
    Unwritten,
    /// `x`, `y` or `z`.
    Along(Axis),
    /// `'`.
    Prime,
    /// `"`, or `=`, which is another spelling of it.
    DoublePrime,
    /// `*`.
    Star,
}

/// The mark that the byte is; unwritten where it is none.
pub(crate) fn axis_mark(b: u8) -> Mark
    ensures { result ≡ axis_mark b }
{
    match b {
        b'x' => Mark::Along(Axis::X),
        b'y' => Mark::Along(Axis::Y),
        b'z' => Mark::Along(Axis::Z),
        b'\'' => Mark::Prime,
        b'"' | b'=' => Mark::DoublePrime,
        b'*' => Mark::Star,
        _ => Mark::Unwritten,
    }
}

/// Whether an axis is written.
pub(crate) fn is_written(mark: Mark) -> bool
    ensures { result ≡ is_written mark }
{
    match mark {
        Mark::Unwritten => false,
        _ => true,
    }
}

/// Whether a rotation of this order has an axis that is written so.
pub(crate) fn goes_with(order: u32, mark: Mark) -> bool
    ensures { result ≡ goes_with order mark }
{
    match mark {
        Mark::Unwritten => true,
        Mark::Along(_) => order != 1,
        Mark::Prime => order == 2,
        Mark::DoublePrime => order == 2,
        Mark::Star => order == 3,
    }
}

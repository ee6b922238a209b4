// The entries of a matrix.
ghost use Rattle.std.specs.Prelude.{◌≡◌, ◌++◌, OnOk};
ghost use Rattle.operation_text.specs.EntryText.{integers_text, entries_text};

use exact_num::Int;
use io_edge::Bytes;
use matrix3::Mat3;
use std::alloc::{AllocError, Global};

/// Adds integers in decimal, a space before each.
fn push_integers(alloc: Global, out: &mut Bytes, integers: &[i128]) -> Result<(), AllocError>
    ensures { OnOk result (out.new ≡ out.old ++ integers_text integers.now) }
{
    for integer in integers {
        let digits = integer.to_string(alloc)?;
        out.push(b' ')?;
        out.append(digits.as_bytes())?;
    }
    Ok(())
}

/// Adds the entries of a matrix row by row, a space before each. Refuses for want of memory alone.
pub fn push_entries(alloc: Global, out: &mut Bytes, matrix: &Mat3<Int>) -> Result<(), AllocError>
    ensures { OnOk result (out.new ≡ out.old ++ entries_text matrix.now) }
{
    let q = *matrix;
    let entries = [
        q.a11.get(),
        q.a12.get(),
        q.a13.get(),
        q.a21.get(),
        q.a22.get(),
        q.a23.get(),
        q.a31.get(),
        q.a32.get(),
        q.a33.get(),
    ];
    push_integers(alloc, out, &entries)
}

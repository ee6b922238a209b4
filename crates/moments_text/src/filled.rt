// The text of a filled cell.
ghost use Rattle.std.specs.Prelude.{◌≡◌, IfOk};
ghost use Rattle.moments_text.specs.FilledText.{filled_text};

use cell_print::{push_cell, push_heading};
use crystal::Cell;
use exact_num::Int;
use io_edge::Bytes;
use matrix3::Mat3;
use operation_text::push_entries;
use std::alloc::{AllocError, Global};

/// The text of a filled cell: its cell file, with Q = P⁻¹ as a comment behind the first line.
///
/// Q takes coordinates of the cell that was given to those in the filled one, and its entries stand row by row. The first line
/// is `magcell 1` where moments are axial vectors, and else `magcell 2`. Refuses for want of memory alone.
pub fn fill_report(alloc: Global, back: &Mat3<Int>, cell: &Cell) -> Result<Bytes, AllocError>
    ensures value { IfOk result (λ text. text ≡ filled_text back.now cell.now) }
{
    let mut out = Bytes::new(alloc);
    push_heading(&mut out, cell.kind())?;
    out.append(b"# back")?;
    push_entries(alloc, &mut out, back)?;
    out.push(b'\n')?;
    push_cell(&mut out, cell)?;
    Ok(out)
}

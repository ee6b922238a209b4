// The text of a primitive cell.
ghost use Rattle.std.specs.Prelude.{◌≡◌, ◌++◌, decimal, codes, IfOk, OnOk};
ghost use Rattle.operation_text.specs.EntryText.{entries_text};
ghost use Rattle.report_text.specs.PrimitiveText.{cell_in_basis_text};

use cell_print::{push_cell, push_heading};
use exact_num::Int;
use io_edge::Bytes;
use matrix3::Mat3;
use operation_text::push_entries;
use prim_cell::Primitive;
use std::alloc::{AllocError, Global};

/// Adds the index as a comment.
fn push_index(alloc: Global, out: &mut Bytes, index: u32) -> Result<(), AllocError>
    ensures { OnOk result (out.new ≡ out.old ++ (codes "# index " ++ decimal index ++ codes "\n")) }
{
    let digits = index.to_string(alloc)?;
    out.append(b"# index ")?;
    out.append(digits.as_bytes())?;
    out.push(b'\n')?;
    Ok(())
}

/// Adds Q as a comment.
fn push_back(alloc: Global, out: &mut Bytes, back: &Mat3<Int>) -> Result<(), AllocError>
    ensures { OnOk result (out.new ≡ out.old ++ (codes "# back" ++ entries_text back.now ++ codes "\n")) }
{
    out.append(b"# back")?;
    push_entries(alloc, out, back)?;
    out.push(b'\n')?;
    Ok(())
}

/// The text of a primitive cell: its cell file, with the index and Q = P⁻¹ as comments behind the first line.
///
/// The entries of Q stand row by row. The first line is `magcell 1` where moments are axial vectors, and else `magcell 2`.
/// Refuses for want of memory alone.
pub fn prim_report(alloc: Global, prim: &Primitive) -> Result<Bytes, AllocError>
    ensures { IfOk result (λ text. text ≡ cell_in_basis_text prim.now.index prim.now.back prim.now.cell) }
{
    let cell = prim.cell();
    let mut out = Bytes::new(alloc);
    push_heading(&mut out, cell.kind())?;
    push_index(alloc, &mut out, prim.index())?;
    push_back(alloc, &mut out, prim.back())?;
    push_cell(&mut out, cell)?;
    Ok(out)
}

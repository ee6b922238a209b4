// The lines of a standard cell.

ghost use Rattle.std.specs.Prelude.{◌≡◌, ◌++◌, IfOk, OnOk};
ghost use Rattle.standard_text.specs.StandardText.{row_line, map_line, standard_text, none_text};

use cell_print::{push_cell, push_heading};
use crystal::Cell;
use group_match::Map;
use io_edge::Bytes;
use match_text::push_map;
use plain_text::push_decimal;
use std::alloc::{AllocError, Global};

/// Adds the number and the name of a row as a comment.
fn push_row(out: &mut Bytes, row: usize, name: &Bytes) -> Result<(), AllocError>
    ensures { OnOk result (out.new ≡ out.old ++ row_line row name.now) }
{
    out.append(b"# row ")?;
    push_decimal(out, row as u128)?;
    out.push(b' ')?;
    out.append(name.as_slice())?;
    out.push(b'\n')
}

/// Adds Q and the origin shift of a map as a comment.
fn push_map_line(alloc: Global, out: &mut Bytes, map: &Map) -> Result<(), AllocError>
    ensures { OnOk result (out.new ≡ out.old ++ map_line map.now) }
{
    out.append(b"# map")?;
    push_map(alloc, out, map)
}

/// The text of the standard cell of a row: its cell file, with the row and its map as comments behind the first line.
///
/// `row` is the number of the row in its table, from 1, and `name` its name. The line of the map has the nine entries of Q row
/// by row, and its origin shift in units of the axes, in lowest terms. The first line is `magcell 1` where moments are axial
/// vectors, and else `magcell 2`. Refuses for want of memory alone.
pub fn standard_report(
    alloc: Global,
    row: usize,
    name: &Bytes,
    map: &Map,
    cell: &Cell,
) -> Result<Bytes, AllocError>
    ensures value { IfOk result (λ text. text ≡ standard_text row name.now map.now cell.now) }
{
    let mut out = Bytes::new(alloc);
    push_heading(&mut out, cell.kind())?;
    push_row(&mut out, row, name)?;
    push_map_line(alloc, &mut out, map)?;
    push_cell(&mut out, cell)?;
    Ok(out)
}

/// The text where no row is matched: the line `none`. Refuses for want of memory alone.
pub fn none_report(alloc: Global) -> Result<Bytes, AllocError>
    ensures value { IfOk result (λ text. text ≡ none_text) }
{
    Bytes::copy(alloc, b"none\n")
}

ghost use Rattle.std.specs.Prelude.{◌≡◌, [], ◌∷◌, ◌++◌, ◌<◌, length, decimal, IfOk, OnOk};
ghost use Rattle.operation_text.specs.EntryText.{entries_text};
ghost use Rattle.match_text.specs.MatchText.{coordinate_text, coordinates_text, row_text, matched_text, rows_text, has_match, matches_text};

use exact_num::{Frac, Int};
use group_match::{Map, Maps};
use hall_text::Table;
use io_edge::Bytes;
use matrix3::{Mat3, Vec3};
use operation_text::push_entries;
use plain_text::{push_decimal, push_number};
use std::alloc::{AllocError, Global};

/// Adds a fraction in lowest terms, behind a space.
fn push_coordinate(out: &mut Bytes, coordinate: Frac) -> Result<(), AllocError>
    ensures { OnOk result (out.new ≡ out.old ++ coordinate_text coordinate) }
{
    out.push(b' ')?;
    push_number(out, coordinate.num(), coordinate.den().unsigned_abs())
}

/// Adds three fractions, each behind a space.
fn push_coordinates(out: &mut Bytes, point: &Vec3<Frac>) -> Result<(), AllocError>
    ensures { OnOk result (out.new ≡ out.old ++ coordinates_text point.now) }
{
    let point = *point;
    push_coordinate(out, point.x)?;
    push_coordinate(out, point.y)?;
    push_coordinate(out, point.z)
}

/// Adds the number of a row and its name.
fn push_name(out: &mut Bytes, number: usize, name: &[u8]) -> Result<(), AllocError>
    ensures { OnOk result (out.new ≡ out.old ++ (decimal number ++ 32 ∷ name.now)) }
{
    push_decimal(out, number as u128)?;
    out.push(b' ')?;
    out.append(name)
}

/// Adds the nine entries of Q row by row and the origin shift of a map, a space before each number, and LF.
///
/// The origin shift is in units of the axes, in lowest terms. Refuses for want of memory alone; what is added then is left
/// open.
pub fn push_map(alloc: Global, out: &mut Bytes, map: &Map) -> Result<(), AllocError>
    ensures { OnOk result (out.new ≡ out.old ++ (entries_text map.now.turn ++ coordinates_text map.now.origin ++ 10 ∷ [])) }
{
    push_entries(alloc, out, &map.turn)?;
    push_coordinates(out, &map.origin)?;
    out.push(b'\n')
}

/// Adds the line of a row with its map.
fn push_row(
    alloc: Global,
    out: &mut Bytes,
    number: usize,
    name: &[u8],
    map: &Map,
) -> Result<(), AllocError>
    ensures { OnOk result (out.new ≡ out.old ++ row_text number name.now map.now) }
{
    push_name(out, number, name)?;
    push_map(alloc, out, map)
}

/// Adds the line of a row, where it has a map.
fn push_matched(
    alloc: Global,
    out: &mut Bytes,
    number: usize,
    name: &[u8],
    map: Option<Map>,
) -> Result<(), AllocError>
    ensures { OnOk result (out.new ≡ out.old ++ matched_text number name.now map) }
{
    match map {
        Some(map) => push_row(alloc, out, number, name, &map),
        None => Ok(()),
    }
}

/// Adds the lines of the rows that have a map.
fn push_rows(alloc: Global, out: &mut Bytes, table: &Table, maps: &Maps) -> Result<(), AllocError>
    requires { length maps.now ≡ length table.now }
    ensures { OnOk result (out.new ≡ out.old ++ rows_text 1 table.now maps.now) }
{
    for i in 0..table.count() {
        push_matched(alloc, out, i + 1, table.name(i).as_slice(), maps.at(i))?;
    }
    Ok(())
}

/// Whether a row has a map.
pub fn has_match(maps: &Maps) -> bool
    ensures { result ≡ has_match maps.now }
{
    for i in 0..maps.count() {
        if maps.at(i).is_some() {
            return true;
        }
    }
    false
}

/// The text of the maps that carry the groups of a table's rows onto the group of a found cell.
///
/// First Q of that cell, which takes coordinates of the input to those in its basis; then a line for each row that has a map,
/// or `none`. A line has the number of the row from 1, its name, the nine entries of the map's Q row by row, and its origin
/// shift in units of the axes. Asks for a map or none for each row. Refuses for want of memory alone.
pub fn match_report(
    alloc: Global,
    back: &Mat3<Int>,
    table: &Table,
    maps: &Maps,
) -> Result<Bytes, AllocError>
    requires rows { length maps.now ≡ length table.now }
    ensures value { IfOk result (λ text. text ≡ matches_text back.now table.now maps.now) }
{
    let mut out = Bytes::copy(alloc, b"back")?;
    push_entries(alloc, &mut out, back)?;
    out.push(b'\n')?;
    if has_match(maps) {
        push_rows(alloc, &mut out, table, maps)?;
    } else {
        out.append(b"none\n")?;
    }
    Ok(out)
}

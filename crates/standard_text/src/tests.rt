// Standard cells and their texts, which were written by hand.
use crate::{none_report, standard_report};
use cell_text::read_cell;
use exact_num::{Frac, Int};
use group_match::Map;
use io_edge::Bytes;
use matrix3::{Mat3, Vec3};
use std::alloc::Global;

/// A cell file, the number and the name of a row, its Q row by row, its origin shift, and the text.
struct Row(
    &'static [u8],
    usize,
    &'static [u8],
    [i8; 9],
    [(i128, i128); 3],
    &'static [u8],
);

/// The half turn of a cube, a skew cell whose origin goes to its atom, two atoms in a doubled cell, and a scalar.
#[rattlefmt::skip]
const TEXTS: &[Row] = &[
    Row(b"magcell 1\nmetric 1 1 1 0 0 0\natom A 0 0 0 0 0 1\nend\n",
        2, b"P4/mm'm'", [-1, 0, 0, 0, -1, 0, 0, 0, 1], [(0, 1), (0, 1), (0, 1)],
        b"magcell 1\n# row 2 P4/mm'm'\n# map -1 0 0 0 -1 0 0 0 1 0 0 0\nmetric 1 1 1 0 0 0\natom A 0 0 0 0 0 1\nend\n"),
    Row(b"magcell 1\nmetric 21 11 12 7 14 13\natom X 0 0 0 -4 2 1\nend\n",
        1, b"P-1", [-1, -1, -1, -1, -1, 0, -1, 0, -1], [(1, 7), (1, 7), (2, 14)],
        b"magcell 1\n# row 1 P-1\n# map -1 -1 -1 -1 -1 0 -1 0 -1 1/7 1/7 1/7\nmetric 21 11 12 7 14 13\natom X 0 0 0 -4 2 1\nend\n"),
    Row(b"magcell 1\nmetric 4 1 1 0 0 0\natom A 3/8 0 2/3 0 0 1\natom A 7/8 0 2/3 0 0 1\nend\n",
        4000, b"a", [2, 0, 0, 0, 1, 0, 0, 0, 1], [(1, 4), (0, 1), (1, 3)],
        b"magcell 1\n# row 4000 a\n# map 2 0 0 0 1 0 0 0 1 1/4 0 1/3\nmetric 4 1 1 0 0 0\natom A 3/8 0 2/3 0 0 1\natom A 7/8 0 2/3 0 0 1\nend\n"),
    Row(b"magcell 2\nkind scalar axial\nmetric 1 1 1 0 0 0\natom A 0 0 0 1\nend\n",
        2, b"a", [1, 0, 0, 0, 1, 0, 0, 0, 1], [(0, 1), (0, 1), (0, 1)],
        b"magcell 2\n# row 2 a\n# map 1 0 0 0 1 0 0 0 1 0 0 0\nkind scalar axial\nmetric 1 1 1 0 0 0\natom A 0 0 0 1\nend\n"),
];

fn whole(value: i8) -> Int {
    Int::new(value as i128).unwrap()
}

/// The matrix of nine entries, row by row.
fn matrix(m: &[i8; 9]) -> Mat3<Int> {
    let [a, b, c, d, e, f, g, h, i] = *m;
    Mat3 {
        a11: whole(a),
        a12: whole(b),
        a13: whole(c),
        a21: whole(d),
        a22: whole(e),
        a23: whole(f),
        a31: whole(g),
        a32: whole(h),
        a33: whole(i),
    }
}

/// A small fraction.
fn fraction(pair: (i128, i128)) -> Option<Frac> {
    let (num, den) = pair;
    if num.unsigned_abs() <= 1000 && den.unsigned_abs() <= 1000 {
        Frac::new(num, den)
    } else {
        None
    }
}

/// A map of this Q and origin shift.
fn map_of(turn: &[i8; 9], origin: &[(i128, i128); 3]) -> Option<Map> {
    let [x, y, z] = *origin;
    Some(Map {
        class: matrix(&[1, 0, 0, 0, 1, 0, 0, 0, 1]),
        turn: matrix(turn),
        origin: Vec3 {
            x: fraction(x)?,
            y: fraction(y)?,
            z: fraction(z)?,
        },
    })
}

/// The text that is printed of the cell that a short text spells.
fn printed(alloc: Global, row: &Row) -> Option<Bytes> {
    let Row(text, number, name, turn, origin, _wanted) = row;
    if text.len() > 100_000 {
        return None;
    }
    let map = map_of(turn, origin)?;
    let name = Bytes::copy(alloc, name).ok()?;
    let bytes = Bytes::copy(alloc, text).ok()?;
    let cell = read_cell(alloc, &bytes).ok()?;
    standard_report(alloc, *number, &name, &map, &cell).ok()
}

/// Whether the text of the row is printed.
fn is_printed(alloc: Global, row: &Row) -> bool {
    let Row(_text, _number, _name, _turn, _origin, wanted) = row;
    match printed(alloc, row) {
        Some(bytes) => bytes.as_slice() == *wanted,
        None => false,
    }
}

/// The number, from 0, of the first row whose text is not printed; the number of rows where there is none.
fn first_wrong(alloc: Global, rows: &[Row]) -> usize {
    for i in 0..rows.len() {
        if !is_printed(alloc, &rows[i]) {
            return i;
        }
    }
    rows.len()
}

/// Whether the text without a matched row is the line `none`.
fn says_none(alloc: Global) -> bool {
    match none_report(alloc) {
        Ok(bytes) => bytes.as_slice() == b"none\n".as_slice(),
        Err(_) => false,
    }
}

#[test]
fn row_and_map_stand_behind_the_first_line(rt: HostRuntime) {
    assert_eq!(rt; first_wrong(rt.alloc(), TEXTS), TEXTS.len());
}

#[test]
fn no_row_is_told_as_none(rt: HostRuntime) {
    assert!(rt; says_none(rt.alloc()));
}

// `identify`: the groups of a table that a crystal has. The table is the file `t` of the store.
use super::Ends::{Refused, ShelfFails, Unmatched, Whole};
use super::{CHAIN, CUBIC, Ends, FileRow, RUTILE, SHIFTED, TILTED, first_wrong_file, holds_over};
use io_edge::Bytes;
use std::alloc::{AllocError, Global};

/// Tables with a row that is matched, and with none; and tables that can't be had.
#[rattlefmt::skip]
const TABLES: &[FileRow] = &[
    FileRow("identify,t", b"P4/mmm -P 4 2\nP4/mm'm' -P 4 2!\n", CUBIC,
        Whole(b"back 1 0 0 0 1 0 0 0 1\n2 P4/mm'm' -1 0 0 0 -1 0 0 0 1 0 0 0\n")),
    FileRow("identify,t", b"# no row\n\nPc\t-P 4 2! 1c!", CHAIN,
        Whole(b"back 1 0 0 0 1 0 0 0 1\n1 Pc -1 0 0 0 -1 0 0 0 1 0 0 0\n")),
    FileRow("identify,t", b"P-1 -P 1\n", SHIFTED,
        Whole(b"back 1 0 0 0 1 0 0 0 1\n1 P-1 -1 -1 -1 -1 -1 0 -1 0 -1 1/7 1/7 1/7\n")),
    FileRow("identify,t", b"P1 P 1\n", CUBIC, Unmatched(b"back 1 0 0 0 1 0 0 0 1\nnone\n")),
    FileRow("identify,t", b"# no row\n", TILTED, Unmatched(b"back 1 0 0 0 1 0 0 0 1\nnone\n")),
    FileRow("identify,t", b"", RUTILE, Unmatched(b"back 0 0 1 1 0 0 0 1 0\nnone\n")),
    FileRow("identify,t", b"", CUBIC, Unmatched(b"back 1 0 0 0 1 0 0 0 1\nnone\n")),
    // Refused, not there, or not to be read; the cell is judged first.
    FileRow("identify,t", b"P1 P 1\nP4\n", CUBIC, Refused(4, b"magsym: row 2: row has no known form\n")),
    FileRow("identify,t", b"a P 2 3\n", CUBIC, Refused(4, b"magsym: row 1: token 2 needs an axis\n")),
    FileRow("identify,t", b"a P 6 3*\n", CUBIC, Refused(4, b"magsym: row 1: more than 48 matrices\n")),
    FileRow("identify,t", b"a -P 4 2 3\nb P 4z 6x\n", CUBIC, Refused(4, b"magsym: row 2: more than 48 matrices\n")),
    FileRow("identify,t", b"a P 2 (0 0)\n", CUBIC, Refused(4, b"magsym: row 1: shift has no known form\n")),
    FileRow("identify,t", b"x\n", CUBIC, Refused(4, b"magsym: row 1: row has no known form\n")),
    FileRow("identify,t", b"a P 1\xFF\n", CUBIC, Refused(4, b"magsym: row 1: row has no known form\n")),
    // A name has up to 32 bytes, and a comment is no row.
    FileRow("identify,t", b"nnnnnnnnnnnnnnnnnnnnnnnnnnnnnnnn P 5\n", CUBIC, Refused(4, b"magsym: row 1: token 1 has no known form\n")),
    FileRow("identify,t", b"# a P 9\nnnnnnnnnnnnnnnnnnnnnnnnnnnnnnnnnn P 1\n", CUBIC, Refused(4, b"magsym: row 1: row has no known form\n")),
    FileRow("identify,u", b"P1 P 1\n", CUBIC, Refused(5, b"magsym: reading failed\n")),
    FileRow("identify,u", b"x", b"", Refused(3, b"magsym: line 1: not a magcell 1 or 2 file\n")),
    FileRow("identify,t", b"P1 P 1\n", CUBIC, ShelfFails(1)),
    FileRow("identify,t", b"P1 P 1\n", CUBIC, ShelfFails(2)),
];

#[test]
fn tables_that_are_matched_and_refused(rt: HostRuntime) {
    assert_eq!(rt; first_wrong_file(rt.alloc(), TABLES), TABLES.len());
}

/// How the run over the table with one row too many ends: the row has another fault besides.
const TOO_MANY: Ends = Refused(4, b"magsym: row 4001: more than 4000 rows\n");

/// How the run over the longest table ends.
const LONGEST: Ends = Unmatched(b"back 1 0 0 0 1 0 0 0 1\nnone\n");

/// How the run over a table of one byte more ends.
const TOO_LONG: Ends = Refused(4, b"magsym: table is longer than 1048576 bytes\n");

/// A table of so many rows, and one that has no form.
fn crowded(alloc: Global, count: u32) -> Result<Bytes, AllocError> {
    let mut text = Bytes::new(alloc);
    for _ in 0..count {
        text.append(b"a P 1\n")?;
    }
    text.append(b"x\n")?;
    Ok(text)
}

/// A table of one comment of so many bytes.
fn commented(alloc: Global, length: usize) -> Result<Bytes, AllocError> {
    let mut text = Bytes::new(alloc);
    text.append(&vec![in alloc; b'#'; length]?)?;
    Ok(text)
}

/// Whether the run over the table of so many rows ends so.
fn holds_crowded(alloc: Global, count: u32, ends: &Ends) -> bool {
    match crowded(alloc, count) {
        Ok(table) => holds_over(alloc, "identify,t", Some(table.as_slice()), CUBIC, ends)
            == Ok(true),
        Err(_) => false,
    }
}

/// Whether the run over the table of so many bytes ends so.
fn holds_commented(alloc: Global, length: usize, ends: &Ends) -> bool {
    match commented(alloc, length) {
        Ok(table) => holds_over(alloc, "identify,t", Some(table.as_slice()), CUBIC, ends)
            == Ok(true),
        Err(_) => false,
    }
}

#[test]
fn a_table_has_up_to_4000_rows(rt: HostRuntime) {
    assert!(rt; holds_crowded(rt.alloc(), 4000, &TOO_MANY));
}

#[test]
fn a_table_has_up_to_1048576_bytes(rt: HostRuntime) {
    assert!(rt; holds_commented(rt.alloc(), 1_048_576, &LONGEST));
    assert!(rt; holds_commented(rt.alloc(), 1_048_577, &TOO_LONG));
}

// `standard`: the crystal in the basis of the first symbol of a table that is matched. The table is the file `t` of the store.
use super::Ends::{Refused, ShelfFails, Unmatched, Whole};
use super::{CUBIC, FileRow, SHIFTED, TILTED, first_wrong_file};

/// The centre between these two atoms has positions that no cell can hold as an origin.
const WIDE: &[u8] =
    b"magcell 1\nmetric 4 5 6 1 1 1\natom X 0 0 0 1 2 3\natom X 1/999999 0 0 1 2 3\nend\n";

/// Tables with a row that is matched, and with none; cells that are too wide; and tables that can't be had.
#[rattlefmt::skip]
const CELLS: &[FileRow] = &[
    FileRow("standard,t", b"P4/mmm -P 4 2\nP4/mm'm' -P 4 2!\n", CUBIC,
        Whole(b"magcell 1\n# row 2 P4/mm'm'\n# map -1 0 0 0 -1 0 0 0 1 0 0 0\nmetric 1 1 1 0 0 0\natom A 0 0 0 0 0 1\nend\n")),
    FileRow("standard,t", b"# no row\nP-1 -P 1\nagain -P 1\n", SHIFTED,
        Whole(b"magcell 1\n# row 1 P-1\n# map -1 -1 -1 -1 -1 0 -1 0 -1 1/7 1/7 1/7\nmetric 21 11 12 7 14 13\natom X 0 0 0 -4 2 1\nend\n")),
    FileRow("standard,t", b"P1 P 1\n", CUBIC, Unmatched(b"none\n")),
    FileRow("standard,t", b"# no row\n", TILTED, Unmatched(b"none\n")),
    FileRow("standard,t", b"P-1 -P 1\n", WIDE, Refused(8, b"magsym: standard cell is too large\n")),
    // Refused, not there, or not to be read; the cell is judged first.
    FileRow("standard,t", b"P1 P 1\nP4\n", CUBIC, Refused(4, b"magsym: row 2: row has no known form\n")),
    FileRow("standard,u", b"P1 P 1\n", CUBIC, Refused(5, b"magsym: reading failed\n")),
    FileRow("standard,u", b"x", b"", Refused(3, b"magsym: line 1: not a magcell 1 or 2 file\n")),
    FileRow("standard,t", b"P1 P 1\n", CUBIC, ShelfFails(1)),
    FileRow("standard", b"P1 P 1\n", CUBIC, Refused(2, b"magsym: command needs one more word\n")),
];

#[test]
fn crystals_in_the_basis_of_a_symbol(rt: HostRuntime) {
    assert_eq!(rt; first_wrong_file(rt.alloc(), CELLS), CELLS.len());
}

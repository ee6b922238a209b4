// `compare`: all maps between two crystals. The other cell is the file `t` of the store.
use super::Ends::{Parts, Refused, ShelfFails, Unmatched, WriteFails};
use super::{CUBIC, DOUBLED, FileRow, NONMAGNETIC, first_wrong_file};

/// The simple cubic ferromagnet with another origin.
const MOVED: &[u8] = b"magcell 1\nmetric 1 1 1 0 0 0\natom A 1/3 0 0 0 0 1\nend\n";

/// The same with an atom of another name.
const RENAMED: &[u8] = b"magcell 1\nmetric 1 1 1 0 0 0\natom B 0 0 0 0 0 1\nend\n";

/// The same with a scalar in place of the moment along c.
const SCALAR: &[u8] = b"magcell 2\nkind scalar axial\nmetric 1 1 1 0 0 0\natom A 0 0 0 1\nend\n";

/// Crystals that are one and that differ, and other cells that can't be had.
#[rattlefmt::skip]
const OTHERS: &[FileRow] = &[
    FileRow("compare,t", MOVED, CUBIC,
        Parts(18, b"back1 1 0 0 0 1 0 0 0 1\nback2 1 0 0 0 1 0 0 0 1\n-x+1/3,-y,-z,+1\n", b"\ny+1/3,x,z,-1\n", b"\nx+1/3,y,z,+1\n")),
    FileRow("compare,t", NONMAGNETIC, DOUBLED,
        Parts(98, b"back1 2 0 0 0 1 0 0 0 1\nback2 1 0 0 0 1 0 0 0 1\n-x,-y,-z,+1\n", b"\nz,x,y,-1\n", b"\nx,y,z,-1\n")),
    FileRow("compare,t", NONMAGNETIC, CUBIC,
        Unmatched(b"back1 1 0 0 0 1 0 0 0 1\nback2 1 0 0 0 1 0 0 0 1\nnone\n")),
    FileRow("compare,t", RENAMED, CUBIC,
        Unmatched(b"back1 1 0 0 0 1 0 0 0 1\nback2 1 0 0 0 1 0 0 0 1\nnone\n")),
    FileRow("compare,t", SCALAR, CUBIC,
        Unmatched(b"back1 1 0 0 0 1 0 0 0 1\nback2 1 0 0 0 1 0 0 0 1\nnone\n")),
    // Refused, not there, or not to be read; the cell of the input is judged first.
    FileRow("compare,t", b"", CUBIC, Refused(3, b"magsym: other line 1: not a magcell 1 or 2 file\n")),
    FileRow("compare,t", b"magcell 1\nmetric 1 1 1 0 0 0\natom A 0 0 0\natom B 1 0 0\nend\n", CUBIC,
        Refused(3, b"magsym: other line 4: atoms 1 and 2 stand at one place\n")),
    FileRow("compare,t", b"", b"", Refused(3, b"magsym: line 1: not a magcell 1 or 2 file\n")),
    FileRow("compare,u", MOVED, CUBIC, Refused(5, b"magsym: reading failed\n")),
    FileRow("compare,t", MOVED, CUBIC, ShelfFails(1)),
    FileRow("compare,t", MOVED, CUBIC, ShelfFails(2)),
    FileRow("compare,t", MOVED, CUBIC, WriteFails(2, b"back1 1 0 ")),
    FileRow("compare", MOVED, CUBIC, Refused(2, b"magsym: command needs one more word\n")),
];

#[test]
fn crystals_that_are_one_and_that_differ(rt: HostRuntime) {
    assert_eq!(rt; first_wrong_file(rt.alloc(), OTHERS), OTHERS.len());
}

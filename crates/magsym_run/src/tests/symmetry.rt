// The command `symmetry`: reports, and inputs that are refused.
use super::Ends::{Parts, Refused, Whole};
use super::{
    ALTERNATING, BODY_CENTRED, CHAIN, CUBIC, DOUBLED, EQUAL, Ends, NONMAGNETIC, OPPOSITE, RUTILE,
    Row, first_wrong, holds_over,
};
use io_edge::Bytes;
use std::alloc::{AllocError, Global};

/// The operations of a cube with a moment along c.
pub(super) const CUBIC_REPORT: &[u8] =
    b"-x,-y,-z,+1\n-x,-y,z,+1\n-x,y,-z,-1\n-x,y,z,-1\n-y,-x,-z,-1\n-y,-x,z,-1\n\
-y,x,-z,+1\n-y,x,z,+1\ny,-x,-z,+1\ny,-x,z,+1\ny,x,-z,-1\ny,x,z,-1\nx,-y,-z,-1\nx,-y,z,-1\nx,y,-z,+1\nx,y,z,+1\n";

/// The operations of a square prism with the moment across its axis a.
const TETRAGONAL_REPORT: &[u8] = b"-x,-y,-z,+1\n-x,-y,z,+1\n-x,y,-z,-1\n-x,y,z,-1\n\
x,-y,-z,-1\nx,-y,z,-1\nx,y,-z,+1\nx,y,z,+1\n";

/// The operations of manganese fluoride.
const RUTILE_REPORT: &[u8] =
    b"-x,-y,-z,+1\n-x,-y,z,+1\n-x+1/2,y+1/2,-z+1/2,+1\n-x+1/2,y+1/2,z+1/2,+1\n\
-y,-x,-z,-1\n-y,-x,z,-1\n-y+1/2,x+1/2,-z+1/2,-1\n-y+1/2,x+1/2,z+1/2,-1\n\
y+1/2,-x+1/2,-z+1/2,-1\ny+1/2,-x+1/2,z+1/2,-1\ny,x,-z,-1\ny,x,z,-1\n\
x+1/2,-y+1/2,-z+1/2,+1\nx+1/2,-y+1/2,z+1/2,+1\nx,y,-z,+1\nx,y,z,+1\n";

/// A cube, a square prism, the longest moment, lines that end by CR and LF, and manganese fluoride.
#[rattlefmt::skip]
const REPORTS: &[Row] = &[
    Row("symmetry", CUBIC, Whole(CUBIC_REPORT)),
    Row("symmetry", b"magcell 1\nmetric 4 1 1 0 0 0\natom A 0 0 0 0 0 1\nend\n", Whole(TETRAGONAL_REPORT)),
    Row("symmetry", b"magcell 1\nmetric 1 1 1 0 0 0\natom A 0 0 0 0 0 1000000000\nend\n", Whole(CUBIC_REPORT)),
    Row("symmetry", b"magcell 1\r\nmetric 1 1 1 0 0 0\r\natom A 0 0 0 0 0 1\r\nend\r\n", Whole(CUBIC_REPORT)),
    Row("symmetry", RUTILE, Whole(RUTILE_REPORT)),
    // Translations that keep all moments, and those that keep them with time reversal.
    Row("symmetry", EQUAL, Whole(EQUAL_REPORT)),
    Row("symmetry", OPPOSITE, Whole(OPPOSITE_REPORT)),
    Row("symmetry", BODY_CENTRED,
        Parts(192, b"-x,-y,-z,+1\n", b"", b"x,y,z,+1\nx,y,z,-1\nx+1/2,y+1/2,z+1/2,+1\nx+1/2,y+1/2,z+1/2,-1\n")),
    Row("symmetry", ALTERNATING,
        Parts(32, b"-x,-y,-z,+1\n-x+1/2,-y+1/2,-z+1/2,-1\n", b"", b"x,y,z,+1\nx+1/2,y+1/2,z+1/2,-1\n")),
    // As many lines as the crystal has operations.
    Row("symmetry", NONMAGNETIC, Parts(96, b"-x,-y,-z,+1\n-x,-y,-z,-1\n", b"", b"x,y,z,+1\nx,y,z,-1\n")),
    Row("symmetry", CHAIN, Parts(32, b"-x,-y,-z,+1\n-x,-y,-z+1/2,-1\n", b"", b"x,y,z,+1\nx,y,z+1/2,-1\n")),
    Row("symmetry", DOUBLED,
        Parts(64, b"-x,-y,-z,+1\n-x,-y,-z,-1\n-x+1/2,-y,-z,+1\n", b"", b"x+1/2,y,z,+1\nx+1/2,y,z,-1\n")),
    Row("symmetry", b"magcell 1\nmetric 1 1 1 0 0 0\natom A 1/1000000 0 0\nend\n",
        Parts(96, b"-x+1/500000,-y,-z,+1\n", b"", b"x,y,z,-1\n")),
    Row("symmetry", b"magcell 1\nmetric 1 1 1 0 0 0\natom A 2/4 0 0\nend\n",
        Parts(96, b"-x,-y,-z,+1\n", b"", b"x,y,z,-1\n")),
    Row("symmetry", b"magcell 1\nmetric 1000000000 1 1 0 0 0\natom A 0 0 0\nend\n",
        Parts(32, b"-x,-y,-z,+1\n", b"", b"x,y,z,-1\n")),
    // Cells that break a rule. What line tells each rule is pinned in `proofs/KnownValues.antt` of status_lines, and which texts
    // break which in that of cell_text.
    Row("symmetry", b"magcell 1\nmetric 1 1 1 0 0 0\natom A 0 0 0 0 0 1\natom B 1 0 0 0 0 1\nend\n",
        Refused(3, b"magsym: line 4: atoms 1 and 2 stand at one place\n")),
    Row("symmetry", b"", Refused(3, b"magsym: line 1: not a magcell 1 or 2 file\n")),
    Row("symmetry", b"magcell 1\nmetric 1 1 1 0 0 0\natom A 0 0 0\n", Refused(3, b"magsym: line 4: end is missing\n")),
    Row("symmetry", b"magcell 1\n\0\n", Refused(3, b"magsym: line 2: byte is not plain ASCII\n")),
];

/// The operations of the cell with equal moments.
const EQUAL_REPORT: &[u8] = b"-x,-y,-z,+1\n-x+1/2,-y,-z,+1\n-x,y,-z,-1\n-x+1/2,y,-z,-1\n\
x,-y,z,-1\nx+1/2,-y,z,-1\nx,y,z,+1\nx+1/2,y,z,+1\n";

/// The operations of the cell with opposite moments.
const OPPOSITE_REPORT: &[u8] = b"-x,-y,-z,+1\n-x+1/2,-y,-z,-1\n-x,y,-z,-1\n-x+1/2,y,-z,+1\n\
x,-y,z,-1\nx+1/2,-y,z,+1\nx,y,z,+1\nx+1/2,y,z,-1\n";

/// How the run over the longest cell ends.
const LONGEST: Ends = Parts(96, b"", b"", b"");

/// How the run over a cell of one byte more ends.
const TOO_LONG: Ends = Refused(3, b"magsym: cell is longer than 262144 bytes\n");

/// A cell with a comment of so many bytes and one.
fn padded(alloc: Global, padding: usize) -> Result<Bytes, AllocError> {
    let mut text = Bytes::copy(alloc, b"magcell 1\nmetric 1 1 1 0 0 0\natom A 0 0 0\n#")?;
    text.append(&vec![in alloc; b'x'; padding]?)?;
    text.append(b"\nend\n")?;
    Ok(text)
}

/// Whether the run over a cell with such a comment ends so.
fn holds_padded(alloc: Global, padding: usize, ends: &Ends) -> bool {
    match padded(alloc, padding) {
        Ok(text) => holds_over(alloc, "symmetry", None, text.as_slice(), ends) == Ok(true),
        Err(_) => false,
    }
}

#[test]
fn the_operations_of_a_cell_are_listed(rt: HostRuntime) {
    assert_eq!(rt; first_wrong(rt.alloc(), REPORTS), REPORTS.len());
}

#[test]
fn an_input_has_up_to_262144_bytes(rt: HostRuntime) {
    assert!(rt; holds_padded(rt.alloc(), 262_096, &LONGEST));
    assert!(rt; holds_padded(rt.alloc(), 262_097, &TOO_LONG));
}

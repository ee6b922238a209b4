// The command `symmetry` on cells with axes at any angles: skew, flat, hexagonal and centred ones.
use super::Ends::{Parts, Whole};
use super::{CENTRED, HEXAGONAL, Row, TILTED, first_wrong};

/// A hexagonal cell, skew ones, a long one; a moment that leaves the inversion alone; a cell with a centred face.
#[rattlefmt::skip]
const CELLS: &[Row] = &[
    Row("symmetry", HEXAGONAL,
        Parts(48, b"-x,-x+y,-z,+1\n-x,-x+y,-z,-1\n", b"\n-y,x-y,z,-1\n", b"")),
    Row("symmetry", b"magcell 1\nmetric 1 51 1 0 0 7\natom A 0 0 0\nend\n",
        Parts(32, b"-x-14y,y,-z,+1\n", b"\n-x,-y,-z,-1\n", b"")),
    Row("symmetry", b"magcell 1\nmetric 1 50 1 0 0 7\natom A 0 0 0\nend\n",
        Parts(96, b"-7x-50y,x+7y,-z,+1\n", b"\n-7x-50y,x+7y,z,+1\n", b"")),
    Row("symmetry", b"magcell 1\nmetric 1 1000001 1 0 0 1000\natom A 0 0 0\nend\n",
        Parts(96, b"-1000x-1000001y,x+1000y,-z,+1\n", b"\n-1000x-1000001y,x+1000y,z,+1\n", b"")),
    Row("symmetry", b"magcell 1\nmetric 2 2 1000000000 0 0 -1\natom A 0 0 0\nend\n",
        Parts(48, b"-x,-x+y,-z,+1\n", b"\nx-y,x,z,+1\n", b"")),
    Row("symmetry", TILTED, Whole(b"-x,-y,-z,+1\nx,y,z,+1\n")),
    Row("symmetry", CENTRED, Parts(32, b"", b"\nx+1/2,y,z+1/2,+1\n", b"")),
];

#[test]
fn cells_of_any_angles_have_all_their_operations(rt: HostRuntime) {
    assert_eq!(rt; first_wrong(rt.alloc(), CELLS), CELLS.len());
}

// The command `primitive`: the text of the primitive cell, and Q.
use super::Ends::{Based, BasedWriteFails, Parts, Whole};
use super::{BODY_CENTRED, CHAIN, DOUBLED, EQUAL, NONMAGNETIC, OPPOSITE, Row, first_wrong};

/// Primitive cells along the axes, and one whose output fails.
#[rattlefmt::skip]
const PRIMITIVES: &[Row] = &[
    Row("primitive", CHAIN,
        Based([1, 1, 1], b"magcell 1\n# index 1\n# back 1 0 0 0 1 0 0 0 1\nmetric 1 1 4 0 0 0\natom A 0 0 0 0 0 1\n\
atom A 0 0 1/2 0 0 -1\nend\n")),
    Row("primitive", DOUBLED,
        Based([2, 1, 1], b"magcell 1\n# index 2\n# back 2 0 0 0 1 0 0 0 1\nmetric 1 1 1 0 0 0\natom A 0 0 0\nend\n")),
    Row("primitive", NONMAGNETIC, BasedWriteFails([1, 1, 1], 2, b"magcell 1\n")),
    // Cells of another basis than the reduced one.
    Row("primitive", b"magcell 1\nmetric 4 4 6 -1 0 0\natom A 0 0 0\nend\n",
        Parts(6, b"magcell 1\n# index 1\n# back ", b"", b"\nmetric 4 4 6 0 -1 0\natom A 0 0 0\nend\n")),
    Row("primitive", b"magcell 1\nmetric 1 50 1 0 0 7\natom A 0 0 0\nend\n",
        Parts(6, b"magcell 1\n# index 1\n# back ", b"", b"\nmetric 1 1 1 0 0 0\natom A 0 0 0\nend\n")),
    Row("primitive", BODY_CENTRED,
        Parts(6, b"magcell 1\n# index 2\n# back ", b"", b"\nmetric 3/4 3/4 3/4 -1/4 -1/4 -1/4\natom A 0 0 0\nend\n")),
    // Cells with a long axis a: with equal moments half of the cell is primitive, with opposite ones all of it, with c along a.
    Row("primitive", EQUAL,
        Whole(b"magcell 1\n# index 2\n# back 2 0 0 0 1 0 0 0 1\nmetric 1 1 1 0 0 0\natom A 0 0 0 2 0 3\nend\n")),
    Row("primitive", OPPOSITE,
        Whole(b"magcell 1\n# index 1\n# back 0 1 0 0 0 1 1 0 0\nmetric 1 1 4 0 0 0\natom A 0 0 0 0 3 1\n\
atom A 0 0 1/2 0 -3 -1\nend\n")),
    Row("primitive", b"magcell 1\nmetric 4 1 1 0 0 0\natom A 0 0 0 0 0 1\natom A 1/2 0 0 0 0 1\nend\n",
        Whole(b"magcell 1\n# index 2\n# back 2 0 0 0 1 0 0 0 1\nmetric 1 1 1 0 0 0\natom A 0 0 0 0 0 1\nend\n")),
    Row("primitive", b"magcell 1\nmetric 4 1 1 0 0 0\natom A 0 0 0 0 0 1\natom A 1/2 0 0 0 0 -1\nend\n",
        Whole(b"magcell 1\n# index 1\n# back 0 1 0 0 0 1 1 0 0\nmetric 1 1 4 0 0 0\natom A 0 0 0 0 1 0\n\
atom A 0 0 1/2 0 -1 0\nend\n")),
];

#[test]
fn the_primitive_cell_and_q(rt: HostRuntime) {
    assert_eq!(rt; first_wrong(rt.alloc(), PRIMITIVES), PRIMITIVES.len());
}

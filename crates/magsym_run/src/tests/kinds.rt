// The file `magcell 2`: scalars, and vectors that are not axial.
use super::Ends::{Parts, Refused, Whole};
use super::symmetry::CUBIC_REPORT;
use super::{Row, first_wrong};

/// A scalar on a cube.
const SCALAR: &[u8] = b"magcell 2\nkind scalar\nmetric 1 1 1 0 0 0\natom A 0 0 0 1\nend\n";

/// The same, where an inversion turns it round.
const AXIAL_SCALAR: &[u8] =
    b"magcell 2\nkind scalar axial\nmetric 1 1 1 0 0 0\natom A 0 0 0 1\nend\n";

/// A polar vector along c.
const PLAIN_VECTOR: &[u8] =
    b"magcell 2\nkind vector plain\nmetric 1 1 1 0 0 0\natom A 0 0 0 0 0 1\nend\n";

/// Opposite scalars, one behind the other.
const OPPOSITE_SCALARS: &[u8] =
    b"magcell 2\nkind scalar\nmetric 1 1 4 0 0 0\natom A 0 0 0 1\natom A 0 0 1/2 -1\nend\n";

/// Each kind of moments, and what the kind line rules out.
#[rattlefmt::skip]
const KINDS: &[Row] = &[
    Row("symmetry", SCALAR, Parts(48, b"-x,-y,-z,+1\n-x,-y,z,+1\n", b"", b"\nx,y,z,+1\n")),
    Row("symmetry", AXIAL_SCALAR, Parts(48, b"-x,-y,-z,-1\n-x,-y,z,+1\n", b"", b"\nx,y,z,+1\n")),
    Row("symmetry", PLAIN_VECTOR, Parts(16, b"-x,-y,-z,-1\n-x,-y,z,+1\n", b"", b"\nx,y,z,+1\n")),
    Row("symmetry", b"magcell 2\nkind vector\nmetric 1 1 1 0 0 0\natom A 0 0 0 0 0 1\nend\n", Whole(CUBIC_REPORT)),
    Row("symmetry", OPPOSITE_SCALARS, Parts(32, b"-x,-y,-z,+1\n-x,-y,-z+1/2,-1\n", b"", b"\nx,y,z+1/2,-1\n")),
    Row("dataset", SCALAR, Parts(1, b"{\"back\":\"1 0 0 0 1 0 0 0 1\",\"cell_order\":48,\"family_order\":48,", b"", b"\"type\":1,\"unprimed_order\":48}\n")),
    Row("dataset", AXIAL_SCALAR, Parts(1, b"{", b"", b"\"type\":3,\"unprimed_order\":24}\n")),
    Row("dataset", PLAIN_VECTOR, Parts(1, b"{", b"", b"\"type\":3,\"unprimed_order\":8}\n")),
    Row("dataset", OPPOSITE_SCALARS, Parts(1, b"{", b"", b"\"type\":4,\"unprimed_order\":16}\n")),
    Row("primitive", OPPOSITE_SCALARS,
        Whole(b"magcell 2\n# index 1\n# back 1 0 0 0 1 0 0 0 1\nkind scalar plain\nmetric 1 1 4 0 0 0\natom A 0 0 0 1\natom A 0 0 1/2 -1\nend\n")),
    Row("primitive", b"magcell 2\nkind vector plain\nmetric 4 1 1 0 0 0\natom A 0 0 0 1 0 3\natom A 1/2 0 0 1 0 3\nend\n",
        Whole(b"magcell 2\n# index 2\n# back 2 0 0 0 1 0 0 0 1\nkind vector plain\nmetric 1 1 1 0 0 0\natom A 0 0 0 2 0 3\nend\n")),
    Row("symmetry", b"magcell 2\nkind scalar\nmetric 1 1 1 0 0 0\natom A 0 0 0 0 0 1\nend\n", Refused(3, b"magsym: line 4: line has no known form\n")),
    Row("symmetry", b"magcell 2\nkind scalar\nkind scalar\n", Refused(3, b"magsym: line 3: kind is given twice\n")),
    Row("symmetry", b"magcell 2\nmetric 1 1 1 0 0 0\natom A 0 0 0\nkind scalar\n", Refused(3, b"magsym: line 4: kind must stand before the atoms\n")),
];

#[test]
fn moments_of_each_kind(rt: HostRuntime) {
    assert_eq!(rt; first_wrong(rt.alloc(), KINDS), KINDS.len());
}

// `moments` and `fill`: which moments the sites allow, and cells that are filled with one.
use super::Ends::{Based, Refused, Whole};
use super::{CHAIN, CUBIC, DOUBLED, EQUAL, Row, TILTED, first_wrong};

/// A moment along an axis of a hexagonal crystal.
const ALONG: &[u8] = b"magcell 1\nmetric 2 2 5 0 0 -1\natom A 0 0 0 1 0 0\nend\n";

/// A scalar on a simple cubic lattice.
const SCALAR: &[u8] = b"magcell 2\nkind scalar axial\nmetric 1 1 1 0 0 0\natom A 0 0 0 1\nend\n";

/// Sites that allow one direction, all, none, and a scalar.
#[rattlefmt::skip]
const SITES: &[Row] = &[
    Row("moments", CUBIC, Based([1, 1, 1], b"back 1 0 0 0 1 0 0 0 1\natom 1 A allowed 1 0 0 0 0 0 0 0 0 1\n")),
    Row("moments", ALONG, Whole(b"back 1 0 0 0 1 0 0 0 1\natom 1 A allowed 1 1 -1/2 0 0 0 0 0 0 0\n")),
    Row("moments", TILTED, Whole(b"back 1 0 0 0 1 0 0 0 1\natom 1 X allowed 3 1 0 0 0 1 0 0 0 1\n")),
    Row("moments", DOUBLED, Based([2, 1, 1],
        b"back 2 0 0 0 1 0 0 0 1\natom 1 A allowed 0 0 0 0 0 0 0 0 0 0\natom 2 A allowed 0 0 0 0 0 0 0 0 0 0\n")),
    Row("moments", EQUAL, Based([2, 1, 1],
        b"back 2 0 0 0 1 0 0 0 1\natom 1 A allowed 2 1 0 0 0 0 0 0 0 1\natom 2 A allowed 2 1 0 0 0 0 0 0 0 1\n")),
    Row("moments", SCALAR, Whole(b"back 1 0 0 0 1 0 0 0 1\natom 1 A allowed 1 1 0 0 0 1 0 0 0 1\n")),
    Row("moments,1", CUBIC, Refused(2, b"magsym: too many words\n")),
];

/// Moments that are carried to all atoms of an orbit, and those that are refused.
#[rattlefmt::skip]
const FILLED: &[Row] = &[
    Row("fill,1,0,0,3", CHAIN, Based([1, 1, 1],
        b"magcell 1\n# back 1 0 0 0 1 0 0 0 1\nmetric 1 1 4 0 0 0\natom A 0 0 0 0 0 3\natom A 0 0 1/2 0 0 -3\nend\n")),
    Row("fill,2,0,0,5", CHAIN, Whole(
        b"magcell 1\n# back 1 0 0 0 1 0 0 0 1\nmetric 1 1 4 0 0 0\natom A 0 0 0 0 0 -5\natom A 0 0 1/2 0 0 5\nend\n")),
    Row("fill,2,-1,0,4", EQUAL, Based([2, 1, 1],
        b"magcell 1\n# back 2 0 0 0 1 0 0 0 1\nmetric 1 1 1 0 0 0\natom A 0 0 0 -1 0 4\nend\n")),
    Row("fill,1,7,0,0", SCALAR, Whole(
        b"magcell 2\n# back 1 0 0 0 1 0 0 0 1\nkind scalar axial\nmetric 1 1 1 0 0 0\natom A 0 0 0 7\nend\n")),
    // Not allowed by the site, or by the kind of moments; no such atom; the words are judged first.
    Row("fill,1,1,0,0", CUBIC, Refused(1, b"magsym: moment is not allowed at this site\n")),
    Row("fill,1,7,1,0", SCALAR, Refused(1, b"magsym: moment is not allowed at this site\n")),
    Row("fill,1,7,0,-1", SCALAR, Refused(1, b"magsym: moment is not allowed at this site\n")),
    Row("fill,2,0,0,1", CUBIC, Refused(3, b"magsym: no such atom\n")),
    Row("fill,0,0,0,1", CUBIC, Refused(3, b"magsym: no such atom\n")),
    Row("fill,1,0,0,1", b"x", Refused(3, b"magsym: line 1: not a magcell 1 or 2 file\n")),
    Row("fill,x,0,0", CUBIC, Refused(2, b"magsym: command needs one more word\n")),
];

#[test]
fn moments_that_sites_allow(rt: HostRuntime) {
    assert_eq!(rt; first_wrong(rt.alloc(), SITES), SITES.len());
}

#[test]
fn moments_that_are_filled_in(rt: HostRuntime) {
    assert_eq!(rt; first_wrong(rt.alloc(), FILLED), FILLED.len());
}

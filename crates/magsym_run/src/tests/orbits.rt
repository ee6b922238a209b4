// The command `orbits`: symmetry-equivalent atoms, and their site-symmetry groups.
use super::Ends::{Parts, Whole};
use super::symmetry::CUBIC_REPORT;
use super::{CHAIN, DOUBLED, RUTILE, Row, first_wrong};

/// Two opposite moments, manganese fluoride, translations that the cell does not show, moments of two lengths, and two atoms
/// that only the inversion takes to one another.
#[rattlefmt::skip]
const ORBITS: &[Row] = &[
    Row("orbits", CHAIN,
        Parts(19, b"atom 1 A orbit 1 site 16\natom 2 A orbit 1 site 16\norbit 1 size 2 site 16\n", b"", CUBIC_REPORT)),
    Row("orbits", RUTILE,
        Parts(20, b"atom 1 Mn orbit 1 site 8\natom 2 Mn orbit 1 site 8\natom 3 F orbit 3 site 4\natom 4 F orbit 3 site 4\n\
atom 5 F orbit 3 site 4\natom 6 F orbit 3 site 4\norbit 1 size 2 site 8\n", b"", b"")),
    Row("orbits", DOUBLED,
        Parts(99, b"atom 1 A orbit 1 site 96\natom 2 A orbit 1 site 96\norbit 1 size 1 site 96\n", b"", b"")),
    Row("orbits", b"magcell 1\nmetric 1 1 4 0 0 0\natom A 0 0 0\natom A 0 0 1/2\nend\n",
        Parts(99, b"atom 1 A orbit 1 site 96\natom 2 A orbit 1 site 96\norbit 1 size 1 site 96\n", b"", b"")),
    Row("orbits", b"magcell 1\nmetric 1 1 4 0 0 0\natom A 0 0 0 0 0 1\natom A 0 0 1/2 0 0 2\nend\n",
        Parts(36, b"atom 1 A orbit 1 site 16\natom 2 A orbit 2 site 16\norbit 1 size 1 site 16\n",
            b"\norbit 2 size 1 site 16\n", CUBIC_REPORT)),
    Row("orbits", b"magcell 1\nmetric 4 5 6 1 1 1\natom A 1/6 0 0\natom A 5/6 0 0\nend\n",
        Whole(b"atom 1 A orbit 1 site 2\natom 2 A orbit 1 site 2\norbit 1 size 2 site 2\nx,y,z,+1\nx,y,z,-1\n")),
];

#[test]
fn orbits_begin_with_the_lines_of_the_atoms(rt: HostRuntime) {
    assert_eq!(rt; first_wrong(rt.alloc(), ORBITS), ORBITS.len());
}

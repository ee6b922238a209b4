// Decimals in the file `magcell 2`, and cells of as many atoms as may be and one more.
use super::Ends::{Refused, Whole};
use super::{Ends, RUTILE, Row, first_wrong, holds_over};
use io_edge::Bytes;
use std::alloc::{AllocError, Global};

/// Manganese fluoride in decimals.
const DECIMAL_RUTILE: &[u8] =
    b"magcell 2\nmetric 23.75 23.75 10.96 0 0 0\natom Mn 0 0 0 0 0 1\natom Mn 0.5 0.5 0.5 0 0 -1\n\
atom F 0.305 0.305 0\natom F -0.305 -0.305 0\natom F 0.805 0.195 0.5\natom F 0.195 0.805 0.5\nend\n";

/// Its operations.
const RUTILE_REPORT: &[u8] =
    b"-x,-y,-z,+1\n-x,-y,z,+1\n-x+1/2,y+1/2,-z+1/2,+1\n-x+1/2,y+1/2,z+1/2,+1\n\
-y,-x,-z,-1\n-y,-x,z,-1\n-y+1/2,x+1/2,-z+1/2,-1\n-y+1/2,x+1/2,z+1/2,-1\n\
y+1/2,-x+1/2,-z+1/2,-1\ny+1/2,-x+1/2,z+1/2,-1\ny,x,-z,-1\ny,x,z,-1\n\
x+1/2,-y+1/2,-z+1/2,+1\nx+1/2,-y+1/2,z+1/2,+1\nx,y,-z,+1\nx,y,z,+1\n";

/// Decimals give what their fractions give, and are printed as these.
#[rattlefmt::skip]
const DECIMALS: &[Row] = &[
    Row("symmetry", RUTILE, Whole(RUTILE_REPORT)),
    Row("symmetry", DECIMAL_RUTILE, Whole(RUTILE_REPORT)),
    Row("primitive", b"magcell 2\nmetric 1.50 1.5 2.5 -0.0 0 0\natom A 0.25 0.0 3.00 0 0 -0.5\nend\n",
        Whole(b"magcell 1\n# index 1\n# back 1 0 0 0 1 0 0 0 1\nmetric 3/2 3/2 5/2 0 0 0\natom A 1/4 0 0 0 0 -1/2\nend\n")),
    Row("primitive", b"magcell 2\nkind scalar\nmetric 1 1 1 0 0 0\natom A 0 0 0 1.5\nend\n",
        Whole(b"magcell 2\n# index 1\n# back 1 0 0 0 1 0 0 0 1\nkind scalar plain\nmetric 1 1 1 0 0 0\natom A 0 0 0 3/2\nend\n")),
    Row("symmetry", b"magcell 1\nmetric 23.75 23.75 10.96 0 0 0\natom Mn 0 0 0\nend\n", Refused(3, b"magsym: line 2: not a number\n")),
    Row("symmetry", b"magcell 2\nmetric 1 1 1 0 0 0\natom A 1. 0 0\nend\n", Refused(3, b"magsym: line 3: not a number\n")),
    Row("symmetry", b"magcell 2\nmetric 1 1 1 0 0 0\natom A 0 .5 0\nend\n", Refused(3, b"magsym: line 3: not a number\n")),
    Row("symmetry", b"magcell 2\nmetric 1 1 1 0 0 0\natom A 1.00000000 0.000000000000000000 0\nend\n",
        Refused(3, b"magsym: line 3: number has more than 18 digits\n")),
    Row("symmetry", b"magcell 2\nmetric 1 1 1 0 0 0\natom A 0.1234567 0 0\nend\n",
        Refused(3, b"magsym: line 3: positions have no common denominator up to 1000000\n")),
];

/// How the run over the cell of one atom too many ends.
const TOO_MANY: Ends = Refused(3, b"magsym: line 1027: more than 1024 atoms\n");

/// A cell of so many atoms, each at its own position.
fn crowded(alloc: Global, count: u32) -> Result<Bytes, AllocError> {
    let mut text = Bytes::copy(alloc, b"magcell 2\nmetric 1 1 1 0 0 0\n")?;
    for i in 0..count {
        text.append(b"atom A 0.")?;
        text.append(&[
            b'0' + (i / 1000 % 10) as u8,
            b'0' + (i / 100 % 10) as u8,
            b'0' + (i / 10 % 10) as u8,
            b'0' + (i % 10) as u8,
        ])?;
        text.append(b" 0 0\n")?;
    }
    text.append(b"end\n")?;
    Ok(text)
}

/// Whether the run over a cell of so many atoms ends so.
fn holds_crowded(alloc: Global, count: u32, ends: &Ends) -> bool {
    match crowded(alloc, count) {
        Ok(text) => holds_over(alloc, "symmetry", None, text.as_slice(), ends) == Ok(true),
        Err(_) => false,
    }
}

#[test]
fn decimals_are_the_fractions_that_they_spell(rt: HostRuntime) {
    assert_eq!(rt; first_wrong(rt.alloc(), DECIMALS), DECIMALS.len());
}

#[test]
fn a_cell_has_up_to_1024_atoms(rt: HostRuntime) {
    assert!(rt; holds_crowded(rt.alloc(), 1025, &TOO_MANY));
}

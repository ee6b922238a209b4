// The options of `symmetry`: the list without time reversal, and pages.
use super::Ends::{Parts, Whole};
use super::{ALTERNATING, CUBIC, HEXAGONAL, NONMAGNETIC, Row, TILTED, first_wrong};

/// The operations of a cube with a moment along c that do not reverse time.
const CUBIC_SAME: &[u8] = b"-x,-y,-z,+1\n-x,-y,z,+1\n-y,x,-z,+1\n-y,x,z,+1\n\
y,-x,-z,+1\ny,-x,z,+1\nx,y,-z,+1\nx,y,z,+1\n";

/// The operations that do not reverse time: one in two, or all.
#[rattlefmt::skip]
const LISTS: &[Row] = &[
    Row("symmetry,--no-time-reversal", CUBIC, Whole(CUBIC_SAME)),
    Row("symmetry,--no-time-reversal", ALTERNATING, Parts(16, b"-x,-y,-z,+1\n", b"", b"\nx,y,z,+1\n")),
    Row("symmetry,--no-time-reversal", NONMAGNETIC, Parts(48, b"-x,-y,-z,+1\n", b"", b"\nx,y,z,+1\n")),
    Row("symmetry,--no-time-reversal", HEXAGONAL, Parts(24, b"-x,-x+y,-z,+1\n", b"\n-y,x-y,z,+1\n", b"")),
    Row("symmetry,--no-time-reversal", TILTED, Whole(b"-x,-y,-z,+1\nx,y,z,+1\n")),
    // Pages at the front, inside, at the end and behind it.
    Row("symmetry,--skip,90,--take,10", NONMAGNETIC,
        Whole(b"x,z,y,+1\nx,z,y,-1\nx,y,-z,+1\nx,y,-z,-1\nx,y,z,+1\nx,y,z,-1\n")),
    Row("symmetry,--skip,96", NONMAGNETIC, Whole(b"")),
    Row("symmetry,--take,000000002", NONMAGNETIC, Whole(b"-x,-y,-z,+1\n-x,-y,-z,-1\n")),
    Row("symmetry,--take,2,--no-time-reversal,--skip,5", CUBIC, Whole(b"y,-x,z,+1\nx,y,-z,+1\n")),
    Row("symmetry,--take,0", CUBIC, Whole(b"")),
    Row("symmetry,--skip,999999999", CUBIC, Whole(b"")),
];

#[test]
fn lists_without_time_reversal_and_pages(rt: HostRuntime) {
    assert_eq!(rt; first_wrong(rt.alloc(), LISTS), LISTS.len());
}

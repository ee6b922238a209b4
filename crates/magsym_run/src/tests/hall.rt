// `hall`: groups of symbols, and symbols that are refused. The input is read by none of these runs.
use super::Ends::{Parts, Refused, Whole};
use super::{CUBIC, Row, first_wrong};

/// Groups: a screw axis with a shift of the origin, a translation that reverses time, and large groups.
#[rattlefmt::skip]
const SYMBOLS: &[Row] = &[
    Row("hall,P 31 2c (0 0 1)", b"", Whole(b"-x+y,-x,z+2/3,+1\n-x+y,y,-z+1/3,+1\n-y,-x,-z+2/3,+1\n\
-y,x-y,z+1/3,+1\nx,y,z,+1\nx,x-y,-z,+1\n")),
    Row("hall,P 1c!", CUBIC, Whole(b"x,y,z,+1\nx,y,z+1/2,-1\n")),
    Row("hall,-P 4 2 3", b"", Parts(48, b"-x,-y,-z,+1\n", b"", b"\nx,y,z,+1\n")),
    Row("hall,F 4d 2 3", b"", Parts(96, b"-x,-y,z,+1\n", b"-y+1/4,x+1/4,z+1/4,+1\n", b"\nx+1/2,y+1/2,z,+1\n")),
    // Each fault of a symbol.
    Row("hall,", b"", Refused(4, b"magsym: symbol: symbol is empty\n")),
    Row("hall,Q 2", CUBIC, Refused(4, b"magsym: symbol: unknown lattice\n")),
    Row("hall,P", b"", Refused(4, b"magsym: symbol: token 1 has no known form\n")),
    Row("hall,P 4 4", b"", Refused(4, b"magsym: symbol: token 2 needs an axis\n")),
    Row("hall,P 22", b"", Refused(4, b"magsym: symbol: token 1 has a wrong screw digit\n")),
    Row("hall,P 1 1 1 1 1 1", b"", Refused(4, b"magsym: symbol: more than five tokens\n")),
    Row("hall,P 2 (0 0)", b"", Refused(4, b"magsym: symbol: shift has no known form\n")),
    Row("hall,P 6 3*", b"", Refused(4, b"magsym: symbol: more than 48 matrices\n")),
    Row("hall", b"", Refused(2, b"magsym: command needs one more word\n")),
];

#[test]
fn the_group_or_the_fault_of_a_symbol(rt: HostRuntime) {
    assert_eq!(rt; first_wrong(rt.alloc(), SYMBOLS), SYMBOLS.len());
}

// Inputs and outputs that fail.
use super::Ends::{ReadFails, TellFails, WriteFails};
use super::{CUBIC, Row, first_wrong};

/// The first or the second call fails.
#[rattlefmt::skip]
const FAILURES: &[Row] = &[
    Row("symmetry", CUBIC, ReadFails(1)),
    Row("symmetry", CUBIC, ReadFails(2)),
    // What was written before the call that fails stays.
    Row("symmetry", CUBIC, WriteFails(1, b"")),
    Row("symmetry", CUBIC, WriteFails(2, b"-x,-y,-z,+")),
    // The status is that of the refusal, and a front part of its line is out.
    Row("symmetry", b"", TellFails(1, 3, b"")),
    Row("symmetry", b"", TellFails(2, 3, b"magsym: ")),
];

#[test]
fn streams_that_fail(rt: HostRuntime) {
    assert_eq!(rt; first_wrong(rt.alloc(), FAILURES), FAILURES.len());
}

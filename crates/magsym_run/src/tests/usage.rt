// Words that ask for nothing. What words ask for, and what line tells each fault, is pinned in `proofs/KnownValues.antt` of
// command_words and of status_lines. Each leaves the input, as every row with the exit status 2 does.
use super::Ends::Refused;
use super::{CUBIC, Row, first_wrong};

/// No word, and a value that is no number.
#[rattlefmt::skip]
const FAULTS: &[Row] = &[
    Row("", CUBIC, Refused(2, b"magsym: no command\n")),
    Row("symmetry,--skip,x,--foo", CUBIC, Refused(2, b"magsym: value is not a number of 1 to 9 digits\n")),
];

#[test]
fn faults_in_the_words_are_told_and_leave_the_input(rt: HostRuntime) {
    assert_eq!(rt; first_wrong(rt.alloc(), FAULTS), FAULTS.len());
}

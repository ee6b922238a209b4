// `selfrun`: summaries of generated cells. The input is read by none of these runs.
use super::Ends::{Refused, Whole};
use super::{CUBIC, Row, first_wrong};

/// Seeds, and words that give none.
#[rattlefmt::skip]
const SEEDS: &[Row] = &[
    Row("selfrun,1", CUBIC, Whole(b"atoms 512\nindex 64\norder 8\ntype 3\ncell_order 512\n")),
    Row("selfrun,x,1", b"", Refused(2, b"magsym: too many words\n")),
    Row("selfrun,x", b"", Refused(2, b"magsym: value is not a number of 1 to 9 digits\n")),
];

#[test]
fn the_summary_of_a_generated_cell(rt: HostRuntime) {
    assert_eq!(rt; first_wrong(rt.alloc(), SEEDS), SEEDS.len());
}

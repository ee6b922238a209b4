// Summaries, whose texts were written by hand.
use crate::summary_report;
use std::alloc::Global;

/// Five numbers, in the order of the lines, and the text.
struct Row(u64, u64, u64, u8, u64, &'static [u8]);

/// Small numbers, 0, and the largest ones.
#[rattlefmt::skip]
const SUMMARIES: &[Row] = &[
    Row(512, 64, 8, 3, 512, b"atoms 512\nindex 64\norder 8\ntype 3\ncell_order 512\n"),
    Row(1, 1, 96, 2, 96, b"atoms 1\nindex 1\norder 96\ntype 2\ncell_order 96\n"),
    Row(0, 0, 0, 0, 0, b"atoms 0\nindex 0\norder 0\ntype 0\ncell_order 0\n"),
    Row(18_446_744_073_709_551_615, 10, 100, 255, 18_446_744_073_709_551_615,
        b"atoms 18446744073709551615\nindex 10\norder 100\ntype 255\ncell_order 18446744073709551615\n"),
];

/// Whether the summary of the numbers is the text.
fn is_written(alloc: Global, row: &Row) -> bool {
    let Row(atoms, index, order, kind, cell_order, text) = row;
    match summary_report(alloc, *atoms, *index, *order, *kind, *cell_order) {
        Ok(written) => written.as_slice() == *text,
        Err(_) => false,
    }
}

#[test]
fn a_summary_has_five_lines(rt: HostRuntime) {
    for row in SUMMARIES {
        assert!(rt; is_written(rt.alloc(), row));
    }
}

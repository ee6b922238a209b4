// Generated texts, whose first and last lines were written by hand.
use crate::generate;
use std::alloc::Global;

/// A seed, and the first and the last lines of its text.
struct Row(u32, &'static [u8], &'static [u8]);

/// Seeds from the least to the largest, whose eight draws are 0 0 1 1 0 1 1 1, 2 1 0 1 1 2 0 0 and 2 2 1 0 1 2 2 2.
#[rattlefmt::skip]
const TEXTS: &[Row] = &[
    Row(0, b"magcell 1\nmetric 64 64 64 0 0 0\natom A 0/8 0/8 0/8\natom A 0/8 0/8 1/8\natom A 0/8 0/8 2/8\n",
        b"atom A 7/8 7/8 6/8 0 0 1\natom A 7/8 7/8 7/8 0 0 1\nend\n"),
    Row(1, b"magcell 1\nmetric 64 64 64 0 0 0\natom A 0/8 0/8 0/8 0 0 -1\natom A 0/8 0/8 1/8 0 0 1\natom A 0/8 0/8 2/8 0 0 -1\n",
        b"atom A 7/8 7/8 6/8\natom A 7/8 7/8 7/8\nend\n"),
    Row(4_294_967_295, b"magcell 1\nmetric 64 64 64 0 0 0\natom A 0/8 0/8 0/8 0 0 -1\natom A 0/8 0/8 1/8 0 0 -1\n",
        b"atom A 7/8 7/8 6/8 0 0 -1\natom A 7/8 7/8 7/8 0 0 -1\nend\n"),
];

/// Whether the text of the seed begins and ends with these lines.
fn is_generated(alloc: Global, row: &Row) -> bool {
    let Row(seed, first, last) = row;
    match generate(alloc, *seed) {
        Ok(text) => text.as_slice().starts_with(first) && text.as_slice().ends_with(last),
        Err(_) => false,
    }
}

#[test]
fn atoms_of_one_class_have_the_moment_that_is_drawn(rt: HostRuntime) {
    for row in TEXTS {
        assert!(rt; is_generated(rt.alloc(), row));
    }
}

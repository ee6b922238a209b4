// Words and printed numbers that were written by hand. What no call allocates for is pinned in `proofs/KnownValues`.
use io_edge::Bytes;
use plain_text::{push_decimal, push_number, push_numbers, words, words_between_spaces};
use std::alloc::{AllocError, Global};

/// A line, its words between spaces and tabs with a bar behind each, and those between spaces.
struct Line(&'static [u8], &'static [u8], &'static [u8]);

#[rattlefmt::skip]
const LINES: &[Line] = &[
    Line(b"", b"", b""),
    Line(b" \t ", b"", b"\t|"),
    Line(b"atom Mn\t 0 1/2 ", b"atom|Mn|0|1/2|", b"atom|Mn\t|0|1/2|"),
];

/// The words, with a bar behind each.
fn with_bars(alloc: Global, words: &[&[u8]]) -> Result<Bytes, AllocError> {
    let mut out = Bytes::new(alloc);
    for word in words {
        out.append(word)?;
        out.push(b'|')?;
    }
    Ok(out)
}

fn is_cut(alloc: Global, line: &Line) -> Result<bool, AllocError> {
    let found = words(alloc, line.0)?;
    let text = with_bars(alloc, &found)?;
    Ok(text.as_slice() == line.1)
}

fn is_cut_at_spaces(alloc: Global, line: &Line) -> Result<bool, AllocError> {
    let found = words_between_spaces(alloc, line.0)?;
    let text = with_bars(alloc, &found)?;
    Ok(text.as_slice() == line.2)
}

#[test]
fn lines_have_these_words(rt: HostRuntime) {
    for line in LINES {
        assert!(rt; is_cut(rt.alloc(), line) == Ok(true));
        assert!(rt; is_cut_at_spaces(rt.alloc(), line) == Ok(true));
    }
}

/// A numerator and a denominator; 7, the number, and the number behind a space.
struct Printed(i128, u128, &'static [u8]);

#[rattlefmt::skip]
const PRINTED: &[Printed] = &[
    Printed(0, 5, b"70 0"),
    Printed(-6, 4, b"7-3/2 -3/2"),
    Printed(8, 4, b"72 2"),
    Printed(123_456_789_012_345_678, 10, b"761728394506172839/5 61728394506172839/5"),
];

fn is_printed(alloc: Global, row: &Printed) -> Result<bool, AllocError> {
    let Printed(z, d, wanted) = row;
    if *d == 0 {
        return Ok(false);
    }
    let mut out = Bytes::new(alloc);
    push_decimal(&mut out, 7)?;
    push_number(&mut out, *z, *d)?;
    push_numbers(&mut out, &[*z], *d)?;
    Ok(out.as_slice() == *wanted)
}

#[test]
fn numbers_have_these_texts(rt: HostRuntime) {
    for row in PRINTED {
        assert!(rt; is_printed(rt.alloc(), row) == Ok(true));
    }
}

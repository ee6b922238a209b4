// Cells that are read, one with too many atoms, and the texts of refusals. What texts spell, and why others are refused, is
// pinned in `proofs/KnownValues.antt`.
use cell_text::{CellError, CellFault, read_cell, texts};
use crystal::{Cell, MomentKind};
use io_edge::Bytes;
use std::alloc::{AllocError, Global};

/// Three atoms of two species, between blank lines and comments.
const THREE_ATOMS: &[u8] =
    b"\tmagcell   1 \r\n# a comment \xff\r\n\r\natom Mn 0 0 0 0 0 1/2\r\natom F_1 1/2 2/3 0\r\n atom Mn 3/6 -0 0 1 0 0\r\n\
metric 2 2 2 0 0 0\r\nend\r\n\r\n# behind\r\n";

/// What a short text gives.
fn read(alloc: Global, text: &Bytes) -> Result<Cell, CellError> {
    if text.as_slice().len() > 100_000 {
        return Err(CellError::Memory);
    }
    read_cell(alloc, text)
}

/// The numbers of atoms and names, n and k of the cell that a text spells.
fn sizes(alloc: Global, text: &[u8]) -> Option<(usize, usize, u32, u32)> {
    let bytes = Bytes::copy(alloc, text).ok()?;
    let cell = read(alloc, &bytes).ok()?;
    Some((cell.count(), cell.names(), cell.n(), cell.k()))
}

/// The text of so many atoms, each at its own position.
fn crowd(alloc: Global, count: u32) -> Result<Bytes, AllocError> {
    let mut text = Bytes::copy(alloc, b"magcell 1\nmetric 1 1 1 0 0 0\n")?;
    for i in 0..count {
        text.append(b"atom A 0 ")?;
        text.append(&[
            b'0' + (i / 1000 % 10) as u8,
            b'0' + (i / 100 % 10) as u8,
            b'0' + (i / 10 % 10) as u8,
            b'0' + (i % 10) as u8,
        ])?;
        text.append(b"/10000 0\n")?;
    }
    text.append(b"end\n")?;
    Ok(text)
}

/// The sizes of the cell of so many atoms.
fn crowd_sizes(alloc: Global, count: u32) -> Option<(usize, usize, u32, u32)> {
    let text = crowd(alloc, count).ok()?;
    sizes(alloc, text.as_slice())
}

/// Why the text of so many atoms is refused.
fn crowd_refusal(alloc: Global, count: u32) -> Option<CellError> {
    let text = crowd(alloc, count).ok()?;
    read(alloc, &text).err()
}

#[test]
fn a_cell_is_read(rt: HostRuntime) {
    assert!(rt; sizes(rt.alloc(), THREE_ATOMS) == Some((3, 2, 6, 2)));
}

/// Two atoms of axial scalars.
const SCALARS: &[u8] =
    b"magcell 2\nkind scalar axial\nmetric 1 1 4 0 0 0\natom A 0 0 0 1\natom A 0 0 1/2\nend\n";

/// The kind of the moments of the cell that a text spells.
fn kind(alloc: Global, text: &[u8]) -> Option<MomentKind> {
    let bytes = Bytes::copy(alloc, text).ok()?;
    let cell = read(alloc, &bytes).ok()?;
    Some(cell.kind())
}

#[test]
fn scalars_are_read(rt: HostRuntime) {
    let axial_scalars = MomentKind {
        vector: false,
        axial: true,
    };
    assert!(rt; sizes(rt.alloc(), SCALARS) == Some((2, 1, 2, 1)));
    assert!(rt; kind(rt.alloc(), SCALARS) == Some(axial_scalars));
}

/// Two atoms in decimals, between fractions.
const DECIMALS: &[u8] =
    b"magcell 2\nmetric 23.75 23.750 1096/100 0 -0.0 0\natom Mn 0.0 0 0 0 0 -2.5\natom F 0.305 -0.305 1/2\nend\n";

#[test]
fn decimals_are_read(rt: HostRuntime) {
    assert!(rt; sizes(rt.alloc(), DECIMALS) == Some((2, 2, 200, 2)));
}

#[test]
fn the_1025th_atom_is_refused(rt: HostRuntime) {
    assert!(rt; crowd_sizes(rt.alloc(), 1024) == Some((1024, 1, 10_000, 1)));
    assert!(rt;
        crowd_refusal(rt.alloc(), 1025) == Some(CellError::Refused(1027, CellFault::TooManyAtoms))
    );
}

/// A rule, and what is said where it is broken.
struct Told(CellFault, &'static str);

/// The texts that the program writes.
#[rattlefmt::skip]
const TOLD: &[Told] = &[
    Told(CellFault::NotMagcell, texts::NOT_MAGCELL),
    Told(CellFault::BadByte, texts::BAD_BYTE),
    Told(CellFault::BadLine, texts::BAD_LINE),
    Told(CellFault::BadNumber, texts::BAD_NUMBER),
    Told(CellFault::NumberRange, texts::NUMBER_RANGE),
    Told(CellFault::ZeroDenominator, texts::ZERO_DENOMINATOR),
    Told(CellFault::MetricTwice, texts::METRIC_TWICE),
    Told(CellFault::KindTwice, texts::KIND_TWICE),
    Told(CellFault::KindLate, texts::KIND_LATE),
    Told(CellFault::MetricMissing, texts::METRIC_MISSING),
    Told(CellFault::MetricRange, texts::METRIC_RANGE),
    Told(CellFault::NotPositive, texts::NOT_POSITIVE),
    Told(CellFault::PositionRange, texts::POSITION_RANGE),
    Told(CellFault::MomentRange, texts::MOMENT_RANGE),
    Told(CellFault::TooManyAtoms, texts::TOO_MANY_ATOMS),
    Told(CellFault::NoAtom, texts::NO_ATOM),
    Told(CellFault::SamePlace(1, 23), "atoms 1 and 23 stand at one place"),
    Told(CellFault::NoEnd, texts::NO_END),
    Told(CellFault::AfterEnd, texts::AFTER_END),
];

fn is_told(alloc: Global, row: &Told) -> Result<bool, AllocError> {
    let text = row.0.to_string(alloc)?;
    Ok(text.as_str() == row.1)
}

/// Whether the error is told in these words.
fn is_told_as(alloc: Global, error: CellError, words: &str) -> Result<bool, AllocError> {
    let text = error.to_string(alloc)?;
    Ok(text.as_str() == words)
}

#[test]
fn rules_have_the_texts_that_the_program_writes(rt: HostRuntime) {
    for row in TOLD {
        assert!(rt; is_told(rt.alloc(), row) == Ok(true));
    }
}

#[test]
fn a_refusal_is_told_with_its_line(rt: HostRuntime) {
    let refused = CellError::Refused(7, CellFault::NoAtom);
    assert!(rt; is_told_as(rt.alloc(), refused, "line 7: no atom") == Ok(true));
    assert!(rt; is_told_as(rt.alloc(), CellError::Memory, texts::OUT_OF_MEMORY) == Ok(true));
}

// Inputs that are cut, and streams of which each call fails in turn, one byte a call.
use super::Ends::{ReadFails, Refused, ShelfFails, TellFails, Unmatched, Whole, WriteFails};
use super::symmetry::CUBIC_REPORT;
use super::{CUBIC, DOUBLED, Ends, NONMAGNETIC, holds_over, holds_with};
use std::alloc::Global;

/// The line that tells an input that is no cell file.
const NO_CELL: &[u8] = b"magsym: line 1: not a magcell 1 or 2 file\n";

/// The lengths of a cut input, from the first to before the second, and how the run over each ends.
struct Cut(usize, usize, Ends);

/// The 52 bytes of a cell, cut everywhere. Without the line feed of its last line it is still whole.
#[rattlefmt::skip]
const CUTS: &[Cut] = &[
    Cut(0, 9, Refused(3, NO_CELL)),
    Cut(9, 11, Refused(3, b"magsym: line 2: end is missing\n")),
    Cut(11, 28, Refused(3, b"magsym: line 2: line has no known form\n")),
    Cut(28, 30, Refused(3, b"magsym: line 3: end is missing\n")),
    Cut(30, 41, Refused(3, b"magsym: line 3: line has no known form\n")),
    // Without its moment an atom line is whole.
    Cut(41, 43, Refused(3, b"magsym: line 4: end is missing\n")),
    Cut(43, 47, Refused(3, b"magsym: line 3: line has no known form\n")),
    Cut(47, 49, Refused(3, b"magsym: line 4: end is missing\n")),
    Cut(49, 51, Refused(3, b"magsym: line 4: line has no known form\n")),
    Cut(51, 53, Whole(CUBIC_REPORT)),
];

/// A stream that fails at one call, and what it holds where no call fails.
enum Stream {
    /// The input.
    Input,

    /// The store of files, of which picking a file is a call.
    Store,

    /// The output, with this report.
    Output(&'static [u8]),

    /// The error stream, with this line beside this exit status.
    ErrorStream(u8, &'static [u8]),
}

/// The words, the file `t` of the store, the input, and a stream; how many calls of this stream a run makes, one byte each;
/// and how the run ends where only the call behind these would fail.
struct Sweep(
    &'static str,
    &'static [u8],
    &'static [u8],
    Stream,
    usize,
    Ends,
);

/// Streams that a run needs, and streams that it leaves alone. That words outside the rule leave the input is judged of every
/// row.
#[rattlefmt::skip]
const SWEEPS: &[Sweep] = &[
    // The 52 bytes of the cell and its end, behind which nothing is read.
    Sweep("symmetry", b"", CUBIC, Stream::Input, 53, Whole(CUBIC_REPORT)),
    Sweep("symmetry", b"", CUBIC, Stream::Output(CUBIC_REPORT), 168, Whole(CUBIC_REPORT)),
    Sweep("symmetry", b"", b"", Stream::ErrorStream(3, NO_CELL), 42, Refused(3, NO_CELL)),
    // A file is picked, and read to its end.
    Sweep("identify,t", b"P1 P 1\n", CUBIC, Stream::Store, 9, Unmatched(b"back 1 0 0 0 1 0 0 0 1\nnone\n")),
    Sweep("standard,t", b"P1 P 1\n", CUBIC, Stream::Store, 9, Unmatched(b"none\n")),
    Sweep("compare,t", NONMAGNETIC, CUBIC, Stream::Store, 48,
        Unmatched(b"back1 1 0 0 0 1 0 0 0 1\nback2 1 0 0 0 1 0 0 0 1\nnone\n")),
    // Reports that keep a basis.
    Sweep("primitive", b"", DOUBLED, Stream::Output(PRIMITIVE_REPORT), 81, Whole(PRIMITIVE_REPORT)),
    Sweep("identify,t", b"P1 P 1\n", CUBIC, Stream::Output(b"back 1 0 0 0 1 0 0 0 1\nnone\n"), 28,
        Unmatched(b"back 1 0 0 0 1 0 0 0 1\nnone\n")),
    Sweep("hall,P 1c!", b"", b"", Stream::Output(b"x,y,z,+1\nx,y,z+1/2,-1\n"), 22, Whole(b"x,y,z,+1\nx,y,z+1/2,-1\n")),
    // Where nothing is wanted of a stream no call of it is made.
    Sweep("hall,P 1c!", b"", CUBIC, Stream::Input, 0, Whole(b"x,y,z,+1\nx,y,z+1/2,-1\n")),
    Sweep("symmetry", b"P1 P 1\n", CUBIC, Stream::Store, 0, Whole(CUBIC_REPORT)),
    Sweep("identify,t", b"P1 P 1\n", b"", Stream::Store, 0, Refused(3, NO_CELL)),
    Sweep("identify,u", b"", b"", Stream::Store, 0, Refused(3, NO_CELL)),
    Sweep("symmetry", b"", b"", Stream::Output(b""), 0, Refused(3, NO_CELL)),
    Sweep("fill,1,1,0,0", b"", CUBIC, Stream::Output(b""), 0, Refused(1, b"magsym: moment is not allowed at this site\n")),
    Sweep("symmetry", b"", CUBIC, Stream::ErrorStream(0, b""), 0, Whole(CUBIC_REPORT)),
];

/// The primitive cell of the doubled one.
const PRIMITIVE_REPORT: &[u8] =
    b"magcell 1\n# index 2\n# back 2 0 0 0 1 0 0 0 1\nmetric 1 1 1 0 0 0\natom A 0 0 0\nend\n";

/// So many first bytes, or all where there are fewer.
fn front(bytes: &'static [u8], length: usize) -> &'static [u8] {
    &bytes[..length.min(bytes.len())]
}

impl Stream {
    /// How a run ends whose call of this stream behind so many others fails.
    fn ends(&self, made: usize) -> Ends {
        let call = (made as u64).saturating_add(1);
        match self {
            Stream::Input => ReadFails(call),
            Stream::Store => ShelfFails(call),
            Stream::Output(report) => WriteFails(call, front(report, made)),
            Stream::ErrorStream(status, line) => TellFails(call, *status, front(line, made)),
        }
    }
}

/// Whether the run over the first so many bytes of the cell ends so.
fn holds_cut(alloc: Global, cell: &[u8], length: usize, ends: &Ends) -> bool {
    length <= cell.len() && holds_over(alloc, "symmetry", None, &cell[..length], ends) == Ok(true)
}

/// Whether each run over the cell that is cut as the row says ends so.
fn holds_cuts(alloc: Global, cell: &[u8], cut: &Cut) -> bool {
    let Cut(first, behind, ends) = cut;
    for length in *first..*behind {
        if !holds_cut(alloc, cell, length, ends) {
            return false;
        }
    }
    true
}

/// The number, from 0, of the first row of which a run over the cell does not end so; the number of rows where there is none.
fn first_wrong_cut(alloc: Global, cell: &[u8], cuts: &[Cut]) -> usize {
    for i in 0..cuts.len() {
        if !holds_cuts(alloc, cell, &cuts[i]) {
            return i;
        }
    }
    cuts.len()
}

/// Whether the run of the row whose calls of these numbers fail ends so.
fn holds_slowly(alloc: Global, sweep: &Sweep, fails: &[u64; 4], ends: &Ends) -> bool {
    let Sweep(words, file, input, _, _, _) = sweep;
    holds_with(alloc, words, Some(file), input, 1, fails, ends) == Ok(true)
}

/// Whether each call of the row, where it fails, ends the run as it has to, and no further call is made.
fn holds_sweep(alloc: Global, sweep: &Sweep) -> bool {
    let Sweep(_, _, _, stream, calls, whole) = sweep;
    for made in 0..*calls {
        let ends = stream.ends(made);
        if !holds_slowly(alloc, sweep, &ends.fails(), &ends) {
            return false;
        }
    }
    holds_slowly(alloc, sweep, &stream.ends(*calls).fails(), whole)
}

/// The number, from 0, of the first row that does not hold; the number of rows where there is none.
fn first_wrong_sweep(alloc: Global, sweeps: &[Sweep]) -> usize {
    for i in 0..sweeps.len() {
        if !holds_sweep(alloc, &sweeps[i]) {
            return i;
        }
    }
    sweeps.len()
}

#[test]
fn a_cut_cell_is_refused_at_the_line_where_it_stops(rt: HostRuntime) {
    assert_eq!(rt; first_wrong_cut(rt.alloc(), CUBIC, CUTS), CUTS.len());
}

#[test]
fn each_call_that_fails_is_told_and_no_other_is_made(rt: HostRuntime) {
    assert_eq!(rt; first_wrong_sweep(rt.alloc(), SWEEPS), SWEEPS.len());
}

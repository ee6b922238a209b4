// What runs answer over inputs and outputs in memory. All values come from the description of the formats.
//
// A test is proved before it is run, and what takes long to prove is a value that is dropped beside ways out and tables that
// a body builds. So each test is one call over a constant table: a row has the words, the input and how the run has to end,
// `first_wrong` goes through the rows, and what a run owns stands in `holds_with` alone. It judges what every run shows: the
// exit status, both outputs, how many bytes a cut output holds, and that words outside the rule leave the input.
ghost use Rattle.std.specs.Prelude.{◌<◌};

mod compare;
mod dataset;
mod decimals;
mod faults;
mod hall;
mod identify;
mod kinds;
mod moments;
mod oblique;
mod orbits;
mod pages;
mod primitive;
mod selfrun;
mod standard;
mod sweeps;
mod symmetry;
mod usage;

use crate::run_counted;
use command_words::Words;
use io_edge::{Bytes, MemShelf, MemSink, MemSource, read_to_end};
use run_status::{Kept, Status};
use std::alloc::{AllocError, Global};
use std::marker::Brand;
use std::sync::ledger::Blank;

/// The most bytes that one call of an input or output in these tests moves.
const MOST: usize = 10;

/// A simple cubic ferromagnet.
const CUBIC: &[u8] = b"magcell 1\nmetric 1 1 1 0 0 0\natom A 0 0 0 0 0 1\nend\n";

/// A simple cubic crystal without moments: 48 operations, each with and without time reversal.
const NONMAGNETIC: &[u8] = b"magcell 1\nmetric 1 1 1 0 0 0\natom A 0 0 0\nend\n";

/// Opposite moments along c, one behind the other: a crystal of type IV.
const CHAIN: &[u8] =
    b"magcell 1\nmetric 1 1 4 0 0 0\natom A 0 0 0 0 0 1\natom A 0 0 1/2 0 0 -1\nend\n";

/// A cell of twice the length of the primitive one.
const DOUBLED: &[u8] = b"magcell 1\nmetric 4 1 1 0 0 0\natom A 0 0 0\natom A 1/2 0 0\nend\n";

/// A cell of this length with equal moments in the plane of a and c.
const EQUAL: &[u8] =
    b"magcell 1\nmetric 4 1 1 0 0 0\natom A 0 0 0 1 0 3\natom A 1/2 0 0 1 0 3\nend\n";

/// A cell of this length with opposite moments.
const OPPOSITE: &[u8] =
    b"magcell 1\nmetric 4 1 1 0 0 0\natom A 0 0 0 1 0 3\natom A 1/2 0 0 -1 0 -3\nend\n";

/// A body-centred cubic crystal without moments.
const BODY_CENTRED: &[u8] =
    b"magcell 1\nmetric 1 1 1 0 0 0\natom A 0 0 0\natom A 1/2 1/2 1/2\nend\n";

/// A body-centred cubic crystal with opposite moments along c.
const ALTERNATING: &[u8] =
    b"magcell 1\nmetric 1 1 1 0 0 0\natom A 0 0 0 0 0 1\natom A 1/2 1/2 1/2 0 0 -1\nend\n";

/// A hexagonal crystal without moments.
const HEXAGONAL: &[u8] = b"magcell 1\nmetric 2 2 5 0 0 -1\natom A 0 0 0\nend\n";

/// One moment in no special direction, away from the origin.
const SHIFTED: &[u8] = b"magcell 1\nmetric 4 5 6 1 1 1\natom X 1/7 1/7 1/7 1 2 3\nend\n";

/// A moment in no special direction.
const TILTED: &[u8] = b"magcell 1\nmetric 4 5 6 1 1 1\natom X 0 0 0 1 2 3\nend\n";

/// One face of a long cell is centred, so the primitive cell is oblique.
const CENTRED: &[u8] =
    b"magcell 1\nmetric 1 1 1000000000 0 0 0\natom A 0 0 0\natom A 1/2 0 1/2\nend\n";

/// Manganese fluoride, of the structure of rutile, with opposite moments along c.
const RUTILE: &[u8] =
    b"magcell 1\nmetric 2375/100 2375/100 1096/100 0 0 0\natom Mn 0 0 0 0 0 1\natom Mn 1/2 1/2 1/2 0 0 -1\n\
atom F 61/200 61/200 0\natom F -61/200 -61/200 0\natom F 161/200 39/200 1/2\natom F 39/200 161/200 1/2\nend\n";

/// How a run has to end.
#[derive(Clone, Copy)]
enum Ends {
    /// With these bytes as the report.
    Whole(&'static [u8]),

    /// With a report of so many lines, and these bytes at its front, somewhere, and at its end.
    Parts(usize, &'static [u8], &'static [u8], &'static [u8]),

    /// With these bytes as the report, and a status that keeps Q, which is diagonal with these entries.
    Based([i128; 3], &'static [u8]),

    /// With these bytes as the report, in which no row is matched, or which has no map.
    Unmatched(&'static [u8]),

    /// With no report, but this exit status and line.
    Refused(u8, &'static [u8]),

    /// As the call of this number of the input fails.
    ReadFails(u64),

    /// As the call of this number of the store of files fails.
    ShelfFails(u64),

    /// As the call of this number of the output fails, behind these bytes.
    WriteFails(u64, &'static [u8]),

    /// The same, with a status that keeps Q, which is diagonal with these entries.
    BasedWriteFails([i128; 3], u64, &'static [u8]),

    /// With this exit status, as the call of this number of the error stream fails, behind these bytes.
    TellFails(u64, u8, &'static [u8]),
}

/// The words, parted by commas, the input, and how the run over them has to end.
struct Row(&'static str, &'static [u8], Ends);

/// The same, with the file `t` of the store before the input.
struct FileRow(&'static str, &'static [u8], &'static [u8], Ends);

/// The input, the store of files, the output and the error stream of a run.
#[derive(Drop)]
struct Streams {
    input: MemSource,
    shelf: MemShelf,
    out: MemSink,
    err: MemSink,
}

/// These words, which commas part; none where the text is empty.
fn asked(alloc: Global, words: &str) -> Result<Words, AllocError> {
    let mut asked = Words::new(alloc);
    if words.is_empty() {
        return Ok(asked);
    }
    for word in words.split(',') {
        asked.push(Bytes::copy(alloc, word.as_bytes())?)?;
    }
    Ok(asked)
}

/// Puts this file `t` into the store, or none.
fn store(shelf: &mut MemShelf, file: Option<&[u8]>) -> Result<(), AllocError> {
    match file {
        Some(file) => shelf.put(b"t", file),
        None => Ok(()),
    }
}

/// An input of these bytes, a store without files, and two outputs that hold nothing. Their calls move at most so many bytes,
/// and those of these numbers fail.
fn opened(alloc: Global, input: &[u8], most: usize, fails: &[u64; 4]) -> Result<Streams, AllocError>
    requires { 0 < most }
{
    Ok(Streams {
        input: MemSource::new(alloc, input, most, &fails[0..1])?,
        shelf: MemShelf::new(alloc, most, &fails[1..2])?,
        out: MemSink::new(alloc, most, &fails[2..3])?,
        err: MemSink::new(alloc, most, &fails[3..4])?,
    })
}

/// How the run over these words and streams ends.
fn ran(alloc: Global, words: &Words, streams: &mut Streams) -> Status {
    let blank = Blank::new(1);
    run_counted::<Brand, _, _, _, _>(
        alloc,
        blank,
        words,
        &mut streams.input,
        &mut streams.shelf,
        &mut streams.out,
        &mut streams.err,
    )
}

/// How many lines there are.
fn lines(bytes: &[u8]) -> usize {
    bytes.iter().filter(|byte| **byte == b'\n').count()
}

/// Whether these bytes stand somewhere in the text.
fn has(text: &[u8], wanted: &[u8]) -> bool {
    for i in 0..text.len() {
        if text[i..].starts_with(wanted) {
            return true;
        }
    }
    wanted.is_empty()
}

/// Whether the report has so many lines, and these bytes at its front, somewhere, and at its end.
fn is_like(report: &[u8], count: usize, front: &[u8], within: &[u8], end: &[u8]) -> bool {
    lines(report) == count
        && report.starts_with(front)
        && has(report, within)
        && report.ends_with(end)
}

impl Ends {
    /// The numbers of the calls that fail on the input, the store, the output and the error stream; 0 fails at none.
    fn fails(&self) -> [u64; 4] {
        match self {
            Ends::ReadFails(call) => [*call, 0, 0, 0],
            Ends::ShelfFails(call) => [0, *call, 0, 0],
            Ends::WriteFails(call, _) | Ends::BasedWriteFails(_, call, _) => [0, 0, *call, 0],
            Ends::TellFails(call, _, _) => [0, 0, 0, *call],
            _ => [0, 0, 0, 0],
        }
    }

    /// The exit status.
    fn number(&self) -> u8 {
        match self {
            Ends::Whole(_) | Ends::Parts(_, _, _, _) | Ends::Based(_, _) => 0,
            Ends::Refused(number, _) | Ends::TellFails(_, number, _) => *number,
            Ends::Unmatched(_) => 1,
            Ends::ReadFails(_) | Ends::ShelfFails(_) => 5,
            Ends::WriteFails(_, _) | Ends::BasedWriteFails(_, _, _) => 6,
        }
    }

    /// The bytes on the error stream.
    fn line(&self) -> &'static [u8] {
        match self {
            Ends::Whole(_) | Ends::Based(_, _) | Ends::Unmatched(_) | Ends::Parts(_, _, _, _) =>
                b"",
            Ends::Refused(_, line) | Ends::TellFails(_, _, line) => line,
            Ends::ReadFails(_) | Ends::ShelfFails(_) => b"magsym: reading failed\n",
            Ends::WriteFails(_, _) | Ends::BasedWriteFails(_, _, _) => {
                b"magsym: writing failed\n"
            }
        }
    }

    /// Whether these bytes may be on the output.
    fn allows(&self, report: &[u8]) -> bool {
        match self {
            Ends::Whole(bytes)
            | Ends::Based(_, bytes)
            | Ends::Unmatched(bytes)
            | Ends::WriteFails(_, bytes)
            | Ends::BasedWriteFails(_, _, bytes) => report == *bytes,
            Ends::Parts(count, front, within, end) => is_like(report, *count, front, within, end),
            _ => report.is_empty(),
        }
    }
}

/// Whether the status keeps Q, and Q is diagonal with these entries.
fn keeps(status: &Status, diagonal: &[i128; 3]) -> bool {
    match status {
        Status::Done(Kept::Back(q)) | Status::WriteFault(_, Kept::Back(q)) => {
            let [a, b, c] = diagonal;
            q.a11.get() == *a
                && q.a22.get() == *b
                && q.a33.get() == *c
                && q.a12.get() == 0
                && q.a13.get() == 0
                && q.a21.get() == 0
                && q.a23.get() == 0
                && q.a31.get() == 0
                && q.a32.get() == 0
        }
        _ => false,
    }
}

/// Whether the status keeps the Q that is wanted, where one is, and tells how many bytes a cut output holds.
fn has_its_parts(status: &Status, ends: &Ends, written: usize) -> bool {
    let is_told = match status {
        Status::WriteFault(count, _) => *count == written as u64,
        _ => true,
    };
    match ends {
        Ends::Based(diagonal, _) | Ends::BasedWriteFails(diagonal, _, _) => {
            is_told && keeps(status, diagonal)
        }
        _ => is_told,
    }
}

/// Whether the run ended so.
fn is_wanted(status: &Status, streams: &Streams, ends: &Ends) -> bool {
    let report = streams.out.held();
    status.number() == ends.number()
        && has_its_parts(status, ends, report.len())
        && ends.allows(report)
        && streams.err.held() == ends.line()
}

/// Whether the input is all left, where it has up to 99 bytes.
fn is_left(alloc: Global, input: &mut MemSource, bytes: &[u8]) -> bool {
    match read_to_end(alloc, input, 99) {
        Ok(rest) => rest.as_slice() == bytes,
        Err(_) => false,
    }
}

/// Whether the run over these words, this file `t` of the store and this input ends so, and words outside the rule leave the
/// input.
fn holds_over(
    alloc: Global,
    words: &str,
    file: Option<&[u8]>,
    input: &[u8],
    ends: &Ends,
) -> Result<bool, AllocError> {
    holds_with(alloc, words, file, input, MOST, &ends.fails(), ends)
}

/// The same, where the calls move at most so many bytes, and those of these numbers fail.
fn holds_with(
    alloc: Global,
    words: &str,
    file: Option<&[u8]>,
    input: &[u8],
    most: usize,
    fails: &[u64; 4],
    ends: &Ends,
) -> Result<bool, AllocError>
    requires { 0 < most }
{
    let words = asked(alloc, words)?;
    let mut streams = opened(alloc, input, most, fails)?;
    store(&mut streams.shelf, file)?;
    let status = ran(alloc, &words, &mut streams);
    Ok(
        is_wanted(&status, &streams, ends)
            && (ends.number() != 2 || is_left(alloc, &mut streams.input, input)),
    )
}

/// The number, from 0, of the first row whose run does not end so; the number of rows where there is none.
fn first_wrong(alloc: Global, rows: &[Row]) -> usize {
    for i in 0..rows.len() {
        let Row(words, input, ends) = &rows[i];
        if holds_over(alloc, words, None, input, ends) != Ok(true) {
            return i;
        }
    }
    rows.len()
}

/// The same for rows that have a file.
fn first_wrong_file(alloc: Global, rows: &[FileRow]) -> usize {
    for i in 0..rows.len() {
        let FileRow(words, file, input, ends) = &rows[i];
        if holds_over(alloc, words, Some(file), input, ends) != Ok(true) {
            return i;
        }
    }
    rows.len()
}

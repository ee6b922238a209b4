// That each call succeeds where memory is ample, and what the adapters do over std's readers and
// writers in memory.
ghost use Rattle.std.specs.Prelude.{◌<◌};

use io_edge::{
    Bytes, DirShelf, InFault, MemShelf, MemSink, MemSource, OutFault, Shelf, Source, StdSink,
    StdSource, read_file, read_to_end, write_whole,
};
use std::alloc::{AllocError, Global};
use std::io;
use std::io::{ErrorKind, Read};

/// What is read.
const INPUT: &[u8] = b"abcde";

/// What is written.
const TEXT: &[u8] = b"abcdefghijklmnopqrstuvwxyz";

/// How many bytes a call gives at most, which call fails (0: none), the limit, and how many bytes are read or why not.
struct Reading(usize, u64, u8, Result<usize, InFault>);

#[rattlefmt::skip]
const READINGS: &[Reading] = &[
    Reading(9, 0, 9, Ok(5)),
    Reading(1, 0, 9, Ok(5)),
    Reading(2, 0, 5, Ok(5)),
    Reading(2, 0, 4, Err(InFault::TooLong)),
    Reading(2, 2, 9, Err(InFault::ReadFault)),
    Reading(2, 4, 9, Err(InFault::ReadFault)),
    Reading(2, 5, 9, Ok(5)),
];

/// How many bytes a call takes at most, which call fails (0: none), and how many bytes are written.
struct Writing(usize, u64, usize);

#[rattlefmt::skip]
const WRITINGS: &[Writing] = &[
    Writing(10, 0, 26),
    Writing(1, 0, 26),
    Writing(10, 2, 10),
    Writing(10, 1, 0),
];

/// Bytes that are copied, and to which a byte and a piece are added.
fn gathered(alloc: Global) -> Result<Bytes, AllocError> {
    let mut bytes = Bytes::copy(alloc, b"ab")?;
    bytes.push(b'c')?;
    bytes.append(b"de")?;
    Ok(bytes)
}

/// Whether they are held in order.
fn are_gathered(alloc: Global) -> bool {
    match gathered(alloc) {
        Ok(bytes) => bytes.as_slice() == INPUT,
        Err(_) => false,
    }
}

#[test]
fn bytes_hold_what_they_are_given(rt: HostRuntime) {
    assert!(rt; are_gathered(rt.alloc()));
}

/// How many bytes are read up to the end of input.
fn length_read(alloc: Global, most: usize, fails: u64, limit: u8) -> Result<usize, InFault>
    requires { 0 < most }
{
    match MemSource::new(alloc, INPUT, most, &[fails]) {
        Ok(mut source) => {
            let bytes = read_to_end(alloc, &mut source, limit as usize)?;
            Ok(bytes.as_slice().len())
        }
        Err(_) => Err(InFault::Memory),
    }
}

/// The number of the first row that is read otherwise; else how many there are.
fn first_wrong_reading(alloc: Global) -> usize {
    for i in 0..READINGS.len() {
        let Reading(most, fails, limit, want) = &READINGS[i];
        if *most == 0 || length_read(alloc, *most, *fails, *limit) != *want {
            return i;
        }
    }
    READINGS.len()
}

#[test]
fn reading_gives_all_or_its_cause(rt: HostRuntime) {
    assert_eq!(rt; first_wrong_reading(rt.alloc()), READINGS.len());
}

/// Whether reading gives these bytes.
fn gives<S: Source>(alloc: Global, source: &mut S, wanted: &[u8]) -> bool {
    match read_to_end(alloc, source, 9) {
        Ok(bytes) => bytes.as_slice() == wanted,
        Err(_) => false,
    }
}

/// Whether reading ends as the source fails.
fn fails<S: Source>(alloc: Global, source: &mut S) -> bool {
    match read_to_end(alloc, source, 9) {
        Err(InFault::ReadFault) => true,
        _ => false,
    }
}

/// Whether the bytes that are left behind a fault can be read.
fn leaves_the_rest(alloc: Global) -> bool {
    match MemSource::new(alloc, INPUT, 2, &[2]) {
        Ok(mut source) => fails(alloc, &mut source) && gives(alloc, &mut source, b"cde"),
        Err(_) => false,
    }
}

#[test]
fn a_fault_takes_no_bytes(rt: HostRuntime) {
    assert!(rt; leaves_the_rest(rt.alloc()));
}

/// Whether writing ended so: with all bytes of the text, or a fault behind so many.
fn ended(wrote: &Result<(), OutFault>, count: usize) -> bool {
    match wrote {
        Ok(()) => count == TEXT.len(),
        Err(fault) => count < TEXT.len() && fault.written == count as u64,
    }
}

/// Whether the text is written as the row says.
fn is_written(alloc: Global, most: usize, fails: u64, count: usize) -> bool
    requires { 0 < most }
{
    match MemSink::new(alloc, most, &[fails]) {
        Ok(mut sink) => {
            ended(&write_whole(&mut sink, TEXT), count)
                && sink.held().len() == count
                && TEXT.starts_with(sink.held())
        }
        Err(_) => false,
    }
}

/// The number of the first row that is written otherwise; else how many there are.
fn first_wrong_writing(alloc: Global) -> usize {
    for i in 0..WRITINGS.len() {
        let Writing(most, fails, count) = &WRITINGS[i];
        if *most == 0 || !is_written(alloc, *most, *fails, *count) {
            return i;
        }
    }
    WRITINGS.len()
}

#[test]
fn writing_sends_all_or_says_how_many(rt: HostRuntime) {
    assert_eq!(rt; first_wrong_writing(rt.alloc()), WRITINGS.len());
}

/// What comes of writing so many bytes to a sink in memory.
fn overfilled(alloc: Global, count: usize) -> Result<Result<(), OutFault>, AllocError> {
    let bytes = vec![in alloc; 7u8; count]?;
    let mut sink = MemSink::new(alloc, usize::MAX, &[])?;
    Ok(write_whole(&mut sink, &bytes))
}

#[test]
fn a_full_sink_fails(rt: HostRuntime) {
    assert!(rt; overfilled(rt.alloc(), 4_194_305) == Ok(Err(OutFault { written: 4_194_304 })));
}

/// A reader that fails.
#[derive(Drop)]
struct Broken;

impl Read for Broken {
    fn read(&mut self, _buf: &mut [u8]) -> io::Result<usize> {
        Err(io::Error::from(ErrorKind::Other))
    }
}

#[test]
fn a_reader_of_std_is_a_source(rt: HostRuntime) {
    assert!(rt; gives(rt.alloc(), &mut StdSource::new(INPUT), INPUT));
    assert!(rt; fails(rt.alloc(), &mut StdSource::new(Broken)));
}

/// Whether a vector of std takes all bytes.
fn is_taken(alloc: Global) -> bool {
    let mut held = Vec::new(alloc);
    let wrote = write_whole(&mut StdSink::new(&mut held), INPUT);
    wrote == Ok(()) && held.as_slice() == INPUT
}

/// Whether a buffer of three bytes takes no more.
fn is_cut() -> bool {
    let mut room = [0u8; 3];
    write_whole(&mut StdSink::new(room.as_mut_slice()), INPUT) == Err(OutFault { written: 3 })
}

#[test]
fn a_writer_of_std_is_a_sink(rt: HostRuntime) {
    assert!(rt; is_taken(rt.alloc()));
    assert!(rt; is_cut());
}

/// A store of two files, of which one was put twice.
fn filled(alloc: Global, most: usize, fails: u64) -> Result<MemShelf, AllocError>
    requires { 0 < most }
{
    let mut shelf = MemShelf::new(alloc, most, &[fails])?;
    shelf.put(b"a", b"old")?;
    shelf.put(b"b", b"xy")?;
    shelf.put(b"a", INPUT)?;
    Ok(shelf)
}

/// What comes of reading the file of this name.
fn read_named<S: Shelf>(
    alloc: Global,
    shelf: &mut S,
    name: &[u8],
    limit: u8,
) -> Result<usize, InFault> {
    let bytes = read_file(alloc, shelf, name, limit as usize)?;
    Ok(bytes.as_slice().len())
}

/// The name, how many bytes a call gives at most, which call fails (0: none), the limit, and how many bytes are read or why not.
struct FileReading(&'static [u8], usize, u64, u8, Result<usize, InFault>);

#[rattlefmt::skip]
const FILES: &[FileReading] = &[
    FileReading(b"a", 9, 0, 9, Ok(5)),
    FileReading(b"b", 1, 0, 2, Ok(2)),
    FileReading(b"a", 2, 0, 4, Err(InFault::TooLong)),
    FileReading(b"c", 2, 0, 9, Err(InFault::ReadFault)),
    FileReading(b"a", 2, 1, 9, Err(InFault::ReadFault)),
    FileReading(b"a", 2, 3, 9, Err(InFault::ReadFault)),
    FileReading(b"a", 2, 6, 9, Ok(5)),
];

/// The number of the first row that is read otherwise; else how many there are.
fn first_wrong_file(alloc: Global) -> usize {
    for i in 0..FILES.len() {
        let FileReading(name, most, fails, limit, want) = &FILES[i];
        if *most == 0 {
            return i;
        }
        match filled(alloc, *most, *fails) {
            Ok(mut shelf) => {
                if read_named(alloc, &mut shelf, name, *limit) != *want {
                    return i;
                }
            }
            Err(_) => return i,
        }
    }
    FILES.len()
}

#[test]
fn a_file_is_read_or_its_cause_told(rt: HostRuntime) {
    assert_eq!(rt; first_wrong_file(rt.alloc()), FILES.len());
}

#[test]
fn files_of_the_system_are_a_store(rt: HostRuntime) {
    let mut shelf = DirShelf::new(&rt);
    let missing = read_named(rt.alloc(), &mut shelf, b"no such file", 9);
    assert!(rt; missing == Err(InFault::ReadFault));
    let nameless = read_named(rt.alloc(), &mut shelf, b"\xFF", 9);
    assert!(rt; nameless == Err(InFault::ReadFault));
}

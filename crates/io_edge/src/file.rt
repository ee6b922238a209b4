// Files in memory.
ghost use Rattle.std.specs.Prelude.{◌≡◌, ◌<◌, ◌+◌, ◌++◌, ◌^◌, min, take, length, nat_eq, Some, None, IfOk, MatchOption};
ghost use Rattle.std.specs.Cmp.Lexicographic.{pointwise};
ghost use Rattle.io_edge.specs.InMemory.{IsPlace, bytes_at, bytes_of, left_of};

use crate::bytes::Bytes;
use crate::piece::give;
use std::alloc::{AllocError, Global};
use std::marker::Model;

/// A file in memory: its name and its bytes.
#[derive(Drop)]
pub(crate) struct File {
    name: Bytes,
    bytes: Bytes,
}

impl Model for File {
    ghost use Rattle.io_edge.specs.InMemory.{MemoryFile};

    ghost Value = { MemoryFile };

    ghost view = { λ f. record { name = f.name; bytes = f.bytes } };
}

impl File {
    /// A file of this name with these bytes.
    pub(crate) fn new(alloc: Global, name: &[u8], bytes: &[u8]) -> Result<File, AllocError>
        ensures name { IfOk result (λ file. file.name ≡ name.now) }
        ensures bytes { IfOk result (λ file. file.bytes ≡ bytes.now) }
    {
        Ok(File {
            name: Bytes::copy(alloc, name)?,
            bytes: Bytes::copy(alloc, bytes)?,
        })
    }

    /// Whether this is its name.
    pub(crate) fn is_named(&self, name: &[u8]) -> bool
        ensures { result ≡ pointwise nat_eq self.now.name name.now }
    {
        self.name.as_slice() == name
    }

    /// Its bytes.
    pub(crate) fn as_slice(&self) -> &[u8]
        ensures { result.now ≡ self.now.bytes }
    {
        self.bytes.as_slice()
    }
}

/// The number of the last file of this name, if there is one.
pub(crate) fn last_of(files: &[File], name: &[u8]) -> Option<usize>
    ensures { MatchOption result
        (bytes_of files.now name.now ≡ None)
        (λ i. (i < length files.now) × (bytes_of files.now name.now ≡ Some (bytes_at files.now i))) }
{
    let mut found = None;
    for i in 0..files.len() {
        if files[i].is_named(name) {
            found = Some(i);
        }
    }
    found
}

/// Puts the bytes from the place `at` on of the file of this number in front of the buffer, `most` of them at most, and
/// says how many; none where no file is picked.
pub(crate) fn give_of(
    files: &[File],
    picked: Option<usize>,
    at: usize,
    most: usize,
    buf: &mut [u8],
) -> usize
    requires { IsPlace picked at files.now }
    ensures count { result ≡ min (min most (length buf.old)) (length (left_of picked at files.now)) }
    ensures given { left_of picked at files.now ≡ take result buf.new ++ left_of picked (at + result) files.now }
    ensures room { length buf.new ≡ length buf.old }
    ensures fits { at + result < 2 ^ 64 }
    ensures inside { IsPlace picked (at + result) files.now }
{
    match picked {
        Some(i) => give(files[i].as_slice(), at, most, buf),
        None => 0,
    }
}

// A store of named files, and reading one of them.
ghost use Rattle.std.specs.Prelude.{◌≡◌, ℕ, ◌<◌, ◌≤◌, ◌+◌, ◌^◌, ◌||◌, length, is_ok, false, IfOk, OnOk};
ghost use Rattle.std.specs.declared.option.Option.{Option};
ghost use Rattle.std.specs.Io.{ReadsAtMost};
ghost use Rattle.std.specs.Io.KnownBytes.{ReadConsumes};
ghost use Rattle.io_edge.specs.Causes.{HasCause, is_end};
ghost use Rattle.io_edge.specs.Reading.{ReadsAll, TakesAtMost, StopsAtEnd};
ghost use Rattle.io_edge.specs.Shelves.{Begins, HasPickCause, ReadsFile, TakesAtMostOfFile};
ghost use Rattle.io_edge.specs.States.{ShelfState};

use crate::bytes::Bytes;
use crate::source::{CHUNK, Failed, InFault};
use std::alloc::Global;

/// A store of named files, of which one at a time is read.
pub trait Shelf {
    /// Its files, where it tells them, and the picked file as a source.
    ghost state: { Self → ShelfState };

    /// The highest number of its count of faults, at which it stays; `None` where it counts on.
    ghost highest_count: { Option ℕ };

    /// Picks the file of this name, to be read from its front.
    ///
    /// It fails where the device does, which is counted, or where there is no file of this name.
    /// After that no file is picked.
    fn pick(&mut self, name: &[u8]) -> Result<(), Failed>
        ensures begun { OnOk result (Begins (state self.old).files name.now (state self.new).picked.left) }
        ensures cause { HasPickCause highest_count name.now (state self.old) (state self.new) result }
        ensures files { (state self.new).files ≡ (state self.old).files }
        ensures picked { (state self.new).is_picked ≡ is_ok result }
        ensures end { (state self.new).picked.end_is_seen ≡ false }
        ensures past { (state self.new).picked.read_past_end ≡ (state self.old).picked.read_past_end };

    /// Puts the next bytes of the picked file in front of the buffer, which isn't empty, and says how many.
    ///
    /// No bytes mean the end of the file, or that none is picked. A failed read takes none.
    fn read(&mut self, buf: &mut [u8]) -> Result<usize, Failed>
        requires { 0 < length buf.old }
        ensures within { ReadsAtMost result buf.new }
        ensures taken { ReadConsumes (state self.old).picked.left (state self.new).picked.left result buf.new }
        ensures cause { HasCause highest_count (state self.old).picked.faults (state self.new).picked.faults result }
        ensures files { (state self.new).files ≡ (state self.old).files }
        ensures picked { (state self.new).is_picked ≡ (state self.old).is_picked }
        ensures unpicked { (state self.old).is_picked ≡ false → IfOk result (λ count. count ≡ 0) }
        ensures end { (state self.new).picked.end_is_seen ≡ is_end result }
        ensures past { (state self.new).picked.read_past_end
            ≡ ((state self.old).picked.end_is_seen || (state self.old).picked.read_past_end) };
}

/// What is left of the picked file, of which there may be `limit` bytes; none where no file is picked.
fn read_picked<S: Shelf>(alloc: Global, shelf: &mut S, limit: usize) -> Result<Bytes, InFault>
    requires { limit + 1 < 2 ^ 64 }
    ensures taken { ReadsAll S.highest_count limit (S.state shelf.old).picked (S.state shelf.new).picked result }
    ensures at_most { TakesAtMost (limit + 1) (S.state shelf.old).picked (S.state shelf.new).picked }
    ensures stops { StopsAtEnd (S.state shelf.old).picked (S.state shelf.new).picked }
    ensures later { (S.state shelf.old).picked.faults ≤ (S.state shelf.new).picked.faults }
    ensures files { (S.state shelf.new).files ≡ (S.state shelf.old).files }
    ensures picked { (S.state shelf.new).is_picked ≡ (S.state shelf.old).is_picked }
{
    let mut bytes = Bytes::new(alloc);
    let mut buf = [0u8; CHUNK];
    loop {
        let room = limit + 1 - bytes.as_slice().len();
        let most = room.min(buf.len());
        let Ok(count) = shelf.read(&mut buf[..most]) else {
            return Err(InFault::ReadFault);
        };
        if count == 0 {
            return Ok(bytes);
        }
        let Ok(()) = bytes.append(&buf[..count]) else {
            return Err(InFault::Memory);
        };
        if bytes.as_slice().len() > limit {
            return Err(InFault::TooLong);
        }
    }
}

/// All bytes of the file of this name, of which there may be `limit`.
///
/// It takes no more than `limit + 1` bytes of the file, and reads nothing behind its end. What a refusal took is lost.
pub fn read_file<S: Shelf>(
    alloc: Global,
    shelf: &mut S,
    name: &[u8],
    limit: usize,
) -> Result<Bytes, InFault>
    requires { limit + 1 < 2 ^ 64 }
    ensures taken { ReadsFile S.highest_count limit name.now (S.state shelf.old) (S.state shelf.new) result }
    ensures at_most { TakesAtMostOfFile (limit + 1) name.now (S.state shelf.old) (S.state shelf.new) }
    ensures files { (S.state shelf.new).files ≡ (S.state shelf.old).files }
    ensures stops { (S.state shelf.new).picked.read_past_end ≡ (S.state shelf.old).picked.read_past_end }
    ensures later { (S.state shelf.old).picked.faults ≤ (S.state shelf.new).picked.faults }
{
    let Ok(()) = shelf.pick(name) else {
        return Err(InFault::ReadFault);
    };
    read_picked(alloc, shelf, limit)
}

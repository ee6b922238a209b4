// What bytes come from, and reading all of it.
ghost use Rattle.std.specs.Prelude.{◌≡◌, ℕ, ◌<◌, ◌≤◌, ◌+◌, ◌^◌, ◌||◌, length};
ghost use Rattle.std.specs.declared.option.Option.{Option};
ghost use Rattle.std.specs.Io.{ReadsAtMost};
ghost use Rattle.std.specs.Io.KnownBytes.{ReadConsumes};
ghost use Rattle.io_edge.specs.Causes.{HasCause, is_end};
ghost use Rattle.io_edge.specs.Reading.{ReadsAll, TakesAtMost, StopsAtEnd};
ghost use Rattle.io_edge.specs.States.{SourceState};

use crate::bytes::Bytes;
use std::alloc::Global;
use thiserror::Error;

/// The device failed at this call, and has counted it. Nothing was taken or appended.
#[derive(Clone, Copy, Debug, PartialEq, Eq)]
pub struct Failed;

/// Why reading to the end gave up.
#[derive(Debug, PartialEq, Eq, Drop, Error)]
pub enum InFault {
    /// The source failed before the end, within the limit.
    #[error("the source failed")]
    ReadFault,

    /// One byte more than the limit came before an end or a fault.
    #[error("more bytes than the limit")]
    TooLong,

    /// There was no memory for the bytes.
    #[error("out of memory")]
    Memory,
}

/// What bytes come from.
pub trait Source {
    /// The bytes that are left, how often it has failed, and what it saw of the end of input.
    ghost state: { Self → SourceState };

    /// The highest number of its count of faults, at which it stays; `None` where it counts on.
    ghost highest_count: { Option ℕ };

    /// Puts the next bytes in front of the buffer, which isn't empty, and says how many.
    ///
    /// No bytes mean the end of input. A failed read takes none.
    fn read(&mut self, buf: &mut [u8]) -> Result<usize, Failed>
        requires { 0 < length buf.old }
        ensures within { ReadsAtMost result buf.new }
        ensures taken { ReadConsumes (state self.old).left (state self.new).left result buf.new }
        ensures cause { HasCause highest_count (state self.old).faults (state self.new).faults result }
        ensures end { (state self.new).end_is_seen ≡ is_end result }
        ensures past { (state self.new).read_past_end
            ≡ ((state self.old).end_is_seen || (state self.old).read_past_end) };
}

/// How many bytes are read at once.
pub(crate) const CHUNK: usize = 4096;

/// All bytes up to the end of input, of which there may be `limit`.
///
/// It takes no more than `limit + 1` bytes, and reads nothing behind the end. What a refusal took is lost.
pub fn read_to_end<S: Source>(alloc: Global, src: &mut S, limit: usize) -> Result<Bytes, InFault>
    requires { limit + 1 < 2 ^ 64 }
    ensures taken { ReadsAll S.highest_count limit (S.state src.old) (S.state src.new) result }
    ensures at_most { TakesAtMost (limit + 1) (S.state src.old) (S.state src.new) }
    ensures stops { StopsAtEnd (S.state src.old) (S.state src.new) }
    ensures later { (S.state src.old).faults ≤ (S.state src.new).faults }
{
    let mut bytes = Bytes::new(alloc);
    let mut buf = [0u8; CHUNK];
    loop {
        let room = limit + 1 - bytes.as_slice().len();
        let most = room.min(buf.len());
        let Ok(count) = src.read(&mut buf[..most]) else {
            return Err(InFault::ReadFault);
        };
        if count == 0 {
            return Ok(bytes);
        }
        let Ok(()) = bytes.append(&buf[..count]) else {
            return Err(InFault::Memory);
        };
        if bytes.as_slice().len() > limit {
            return Err(InFault::TooLong);
        }
    }
}

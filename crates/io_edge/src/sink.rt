// What bytes go to, and writing all of them.
ghost use Rattle.std.specs.Prelude.{◌≡◌, ℕ, ◌<◌, ◌≤◌, length, is_err};
ghost use Rattle.std.specs.declared.option.Option.{Option};
ghost use Rattle.std.specs.Io.KnownBytes.{WriteAppends};
ghost use Rattle.io_edge.specs.Causes.{HasCause};
ghost use Rattle.io_edge.specs.States.{SinkState};
ghost use Rattle.io_edge.specs.Writing.{WritesSome, WritesAll};

use crate::source::Failed;

/// What bytes go to.
pub trait Sink {
    /// The bytes that it holds, how often it has failed, and whether the last write failed.
    ghost state: { Self → SinkState };

    /// The highest number of its count of faults, at which it stays; `None` where it counts on.
    ghost highest_count: { Option ℕ };

    /// Appends some first bytes of the piece, which isn't empty, at least one, and says how many.
    ///
    /// A device that takes none has failed. A failed write appends nothing.
    fn write(&mut self, piece: &[u8]) -> Result<usize, Failed>
        requires { 0 < length piece.now }
        ensures some { WritesSome result piece.now }
        ensures written { WriteAppends (state self.old).held (state self.new).held result piece.now }
        ensures cause { HasCause highest_count (state self.old).faults (state self.new).faults result }
        ensures failed { (state self.new).last_failed ≡ is_err result };
}

/// A write failed, once these first bytes were out.
#[derive(Clone, Copy, Debug, PartialEq, Eq)]
pub struct OutFault {
    /// How many of the bytes were appended, fewer than all.
    pub written: u64,
}

/// Writes all the bytes, in order. It takes no memory.
///
/// After a fault the first `written` bytes are out, and the last write failed. Where there are no bytes the sink stays as it
/// was.
pub fn write_whole<K: Sink>(sink: &mut K, bytes: &[u8]) -> Result<(), OutFault>
    ensures written { WritesAll K.highest_count (K.state sink.old) (K.state sink.new) bytes.now result }
    ensures untouched { length bytes.now ≡ 0 → sink.new ≡ sink.old }
    ensures later { (K.state sink.old).faults ≤ (K.state sink.new).faults }
{
    let mut at = 0usize;
    while at < bytes.len() {
        let Ok(count) = sink.write(&bytes[at..]) else {
            return Err(OutFault { written: at as u64 });
        };
        at += count;
    }
    Ok(())
}

// A sink over a writer of std.
ghost use Rattle.std.specs.Prelude.{◌≡◌, ◌+◌, ◌-◌, ◌^◌, ◌<◌, min, length, false, Some, is_err, OnOk, OnErr};
ghost use Rattle.std.specs.Io.KnownBytes.{WriteAppends};
ghost use Rattle.io_edge.specs.Causes.{HasCause};
ghost use Rattle.io_edge.specs.Writing.{WritesSome};

use crate::sink::Sink;
use crate::source::Failed;
use std::io::Write;
use std::marker::Model;

/// A sink over any writer of std. It tells the bytes that its writer tells, which for the real output are none, and counts
/// each error and each write of nothing.
#[derive(Drop)]
pub struct StdSink<W: Write + Drop> {
    writer: W,
    faults: u64,
    last_failed: bool,
}

impl<W: Write + Drop> Model for StdSink<W> {
    ghost use Rattle.io_edge.specs.Adapters.{WriterSink};

    ghost Value = { WriterSink W };

    ghost view = { λ s. record { writer = s.writer; faults = s.faults; last_failed = s.last_failed } };
}

impl<W: Write + Drop> StdSink<W> {
    /// A sink that has not failed. It takes no memory.
    pub fn new(writer: W) -> StdSink<W>
        ensures writer { result.writer ≡ writer }
        ensures faults { result.faults ≡ 0 }
        ensures failed { result.last_failed ≡ false }
    {
        StdSink {
            writer,
            faults: 0,
            last_failed: false,
        }
    }
}

impl<W: Write + Drop> Sink for StdSink<W> {
    ghost state = { λ s. record {
      held = W.contents s.writer;
      faults = s.faults;
      last_failed = s.last_failed;
    } };

    ghost highest_count = { Some (2 ^ 64 - 1) };

    /// Writes once to the writer, which gets the bytes.
    fn write(&mut self, piece: &[u8]) -> Result<usize, Failed>
        requires { 0 < length piece.now }
        ensures some { WritesSome result piece.now }
        ensures written { WriteAppends (W.contents self.old.writer) (W.contents self.new.writer)
            result piece.now }
        ensures cause { HasCause (Some (2 ^ 64 - 1)) self.old.faults self.new.faults result }
        ensures failed { self.new.last_failed ≡ is_err result }
        ensures rises { OnErr result (self.new.faults ≡ min (self.old.faults + 1) (2 ^ 64 - 1)) }
        ensures stays { OnOk result (self.new.faults ≡ self.old.faults) }
    {
        match self.writer.write(piece) {
            Ok(count) if count > 0 => {
                self.last_failed = false;
                Ok(count)
            }
            _ => {
                self.faults = self.faults.saturating_add(1);
                self.last_failed = true;
                Err(Failed)
            }
        }
    }
}

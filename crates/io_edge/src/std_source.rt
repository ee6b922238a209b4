// A source over a reader of std.
ghost use Rattle.std.specs.Prelude.{◌≡◌, ◌+◌, ◌-◌, ◌^◌, ◌<◌, min, length, false, ◌||◌, Some, OnOk, OnErr};
ghost use Rattle.std.specs.Io.{ReadsAtMost};
ghost use Rattle.std.specs.Io.KnownBytes.{ReadConsumes};
ghost use Rattle.io_edge.specs.Causes.{HasCause, is_end};

use crate::source::{Failed, Source};
use std::io::Read;
use std::marker::Model;

/// A source over any reader of std. It tells the bytes that its reader tells, which for the real input are none, and counts
/// each error.
#[derive(Drop)]
pub struct StdSource<R: Read + Drop> {
    reader: R,
    faults: u64,
    end_is_seen: bool,
    read_past_end: bool,
}

impl<R: Read + Drop> Model for StdSource<R> {
    ghost use Rattle.io_edge.specs.Adapters.{ReaderSource};

    ghost Value = { ReaderSource R };

    ghost view = { λ s. record {
      reader = s.reader;
      faults = s.faults;
      end_is_seen = s.end_is_seen;
      read_past_end = s.read_past_end;
    } };
}

impl<R: Read + Drop> StdSource<R> {
    /// A source that has not failed, with no end seen. It takes no memory.
    pub fn new(reader: R) -> StdSource<R>
        ensures reader { result.reader ≡ reader }
        ensures faults { result.faults ≡ 0 }
        ensures end { result.end_is_seen ≡ false }
        ensures past { result.read_past_end ≡ false }
    {
        StdSource {
            reader,
            faults: 0,
            end_is_seen: false,
            read_past_end: false,
        }
    }
}

impl<R: Read + Drop> Source for StdSource<R> {
    ghost state = { λ s. record {
      left = R.remaining s.reader;
      faults = s.faults;
      end_is_seen = s.end_is_seen;
      read_past_end = s.read_past_end;
    } };

    ghost highest_count = { Some (2 ^ 64 - 1) };

    /// Reads once from the reader, whose bytes it gives.
    fn read(&mut self, buf: &mut [u8]) -> Result<usize, Failed>
        requires { 0 < length buf.old }
        ensures within { ReadsAtMost result buf.new }
        ensures taken { ReadConsumes (R.remaining self.old.reader) (R.remaining self.new.reader)
            result buf.new }
        ensures cause { HasCause (Some (2 ^ 64 - 1)) self.old.faults self.new.faults result }
        ensures end { self.new.end_is_seen ≡ is_end result }
        ensures past { self.new.read_past_end ≡ (self.old.end_is_seen || self.old.read_past_end) }
        ensures rises { OnErr result (self.new.faults ≡ min (self.old.faults + 1) (2 ^ 64 - 1)) }
        ensures stays { OnOk result (self.new.faults ≡ self.old.faults) }
    {
        self.read_past_end |= self.end_is_seen;
        match self.reader.read(buf) {
            Ok(count) => {
                self.end_is_seen = count == 0;
                Ok(count)
            }
            Err(_) => {
                self.faults = self.faults.saturating_add(1);
                self.end_is_seen = false;
                Err(Failed)
            }
        }
    }
}

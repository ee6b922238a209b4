// A source over memory.
ghost use Rattle.std.specs.Prelude.{◌≡◌, ℕ, List, [], ◌+◌, ◌<◌, ◌↔◌, min, length, false, ◌||◌, Some, None, IsErr, IfOk, OnOk, OnErr};
ghost use Rattle.std.specs.Io.{ReadsAtMost};
ghost use Rattle.std.specs.Io.KnownBytes.{ReadConsumes};
ghost use Rattle.io_edge.specs.Causes.{HasCause, is_end};
ghost use Rattle.io_edge.specs.InMemory.{FailsNext, after_call, new_plan};

use crate::calls::Calls;
use crate::piece::give;
use crate::source::{Failed, Source};
use std::alloc::{AllocError, Global};
use std::marker::Model;

/// A source over memory, some of whose calls are to fail.
#[derive(Drop)]
pub struct MemSource {
    bytes: Vec<u8>,
    at: usize,
    most: usize,
    calls: Calls,
    faults: u64,
    end_is_seen: bool,
    read_past_end: bool,
}

impl Model for MemSource {
    ghost use Rattle.std.specs.Prelude.{◌<◌, ◌≤◌, drop, vec_len};
    ghost use Rattle.io_edge.specs.InMemory.{MemorySource};

    ghost Value = { MemorySource };

    ghost view = { λ s. record {
      left = drop s.at s.bytes.items;
      most = s.most;
      calls = s.calls;
      faults = s.faults;
      end_is_seen = s.end_is_seen;
      read_past_end = s.read_past_end;
    } };

    ghost invariant = { λ s. (s.at ≤ vec_len s.bytes) × (0 < s.most) × (s.faults ≤ s.calls.made) };
}

impl MemSource {
    /// A source of these bytes. It has not failed, and no end is seen.
    ///
    /// Each call gives at most `most` bytes, which is at least 1. The calls whose numbers, from 1,
    /// are in `fails` fail. Refuses for want of memory alone.
    pub fn new(
        alloc: Global,
        bytes: &[u8],
        most: usize,
        fails: &[u64],
    ) -> Result<MemSource, AllocError>
        requires { 0 < most }
        ensures left { IfOk result (λ source. source.left ≡ bytes.now) }
        ensures most { IfOk result (λ source. source.most ≡ most) }
        ensures calls { IfOk result (λ source. source.calls ≡ new_plan fails.now) }
        ensures faults { IfOk result (λ source. source.faults ≡ 0) }
        ensures end { IfOk result (λ source. source.end_is_seen ≡ false) }
        ensures past { IfOk result (λ source. source.read_past_end ≡ false) }
    {
        let bytes = Vec::from_slice(alloc, bytes)?;
        let calls = Calls::new(alloc, fails)?;
        Ok(MemSource {
            bytes,
            at: 0,
            most,
            calls,
            faults: 0,
            end_is_seen: false,
            read_past_end: false,
        })
    }
}

impl Source for MemSource {
    ghost state = { λ s. record {
      left = Some s.left;
      faults = s.faults;
      end_is_seen = s.end_is_seen;
      read_past_end = s.read_past_end;
    } };

    ghost highest_count = { None };

    /// Gives as many bytes as the buffer, `most` and what is left allow.
    fn read(&mut self, buf: &mut [u8]) -> Result<usize, Failed>
        requires { 0 < length buf.old }
        ensures within { ReadsAtMost result buf.new }
        ensures taken { ReadConsumes (Some self.old.left) (Some self.new.left) result buf.new }
        ensures cause { HasCause None self.old.faults self.new.faults result }
        ensures end { self.new.end_is_seen ≡ is_end result }
        ensures past { self.new.read_past_end ≡ (self.old.end_is_seen || self.old.read_past_end) }

        // It fails exactly where the number of the call is in the list, and counts that.
        ensures fails { IsErr result ↔ FailsNext self.old.calls }
        ensures rises { OnErr result (self.new.faults ≡ self.old.faults + 1) }
        ensures stays { OnOk result (self.new.faults ≡ self.old.faults) }

        ensures count { IfOk result (λ count.
            count ≡ min (min self.old.most (length buf.old)) (length self.old.left)) }
        ensures calls { self.new.calls ≡ after_call self.old.calls }
        ensures most { self.new.most ≡ self.old.most }
    {
        self.read_past_end |= self.end_is_seen;
        if self.calls.next_fails() {
            self.faults += 1;
            self.end_is_seen = false;
            return Err(Failed);
        }
        let count = give(&self.bytes, self.at, self.most, buf);
        self.at += count;
        self.end_is_seen = count == 0;
        Ok(count)
    }
}

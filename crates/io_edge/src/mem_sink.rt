// A sink over memory.
ghost use Rattle.std.specs.Prelude.{◌≡◌, ℕ, List, [], ◌+◌, ◌-◌, ◌^◌, ◌<◌, ◌≤◌, ◌↔◌, ◌⊎◌, min, length, false, Some, IsErr, is_err, IfOk, OnOk, OnErr};
ghost use Rattle.std.specs.Io.KnownBytes.{WriteAppends};
ghost use Rattle.io_edge.specs.Causes.{HasCause};
ghost use Rattle.io_edge.specs.InMemory.{FailsNext, IsFull, after_call, new_plan, room_left};
ghost use Rattle.io_edge.specs.Writing.{WritesSome};

use crate::calls::Calls;
use crate::sink::Sink;
use crate::source::Failed;
use std::alloc::{AllocError, Global};
use std::marker::Model;

/// How many bytes a sink over memory holds at most: 4 MiB.
const ROOM: usize = 4_194_304;

/// A sink over memory, whose room is fixed when it is made, and some of whose calls are to fail.
#[derive(Drop)]
pub struct MemSink {
    bytes: Vec<u8>,
    most: usize,
    calls: Calls,
    faults: u64,
    last_failed: bool,
}

impl Model for MemSink {
    ghost use Rattle.std.specs.Prelude.{◌<◌, ◌≤◌, vec_len, vec_capacity};
    ghost use Rattle.io_edge.specs.InMemory.{MemorySink};
    ghost use Rattle.io_edge.specs.declared.mem_sink.TheConstants.{ROOM};

    ghost Value = { MemorySink };

    ghost view = { λ s. record {
      held = s.bytes.items;
      most = s.most;
      calls = s.calls;
      faults = s.faults;
      last_failed = s.last_failed;
    } };

    ghost invariant = { λ s. (0 < s.most)
        × (ROOM ≤ vec_capacity s.bytes)
        × (vec_len s.bytes ≤ ROOM) };
}

impl MemSink {
    /// A sink that holds nothing, with room for 4 MiB. It has not failed.
    ///
    /// Each call takes at most `most` bytes, which is at least 1. The calls whose numbers, from 1,
    /// are in `fails` fail. Refuses for want of memory alone.
    pub fn new(alloc: Global, most: usize, fails: &[u64]) -> Result<MemSink, AllocError>
        requires { 0 < most }
        ensures held { IfOk result (λ sink. sink.held ≡ []) }
        ensures most { IfOk result (λ sink. sink.most ≡ most) }
        ensures calls { IfOk result (λ sink. sink.calls ≡ new_plan fails.now) }
        ensures faults { IfOk result (λ sink. sink.faults ≡ 0) }
        ensures failed { IfOk result (λ sink. sink.last_failed ≡ false) }
    {
        let bytes = Vec::with_capacity(alloc, ROOM)?;
        let calls = Calls::new(alloc, fails)?;
        Ok(MemSink {
            bytes,
            most,
            calls,
            faults: 0,
            last_failed: false,
        })
    }

    /// The bytes that it holds, in order.
    pub fn held(&self) -> &[u8]
        ensures { result.now ≡ self.now.held }
    {
        self.bytes.as_slice()
    }
}

impl Sink for MemSink {
    ghost state = { λ s. record {
      held = Some s.held;
      faults = s.faults;
      last_failed = s.last_failed;
    } };

    ghost highest_count = { Some (2 ^ 64 - 1) };

    /// Takes as many bytes as the piece, `most` and the room left allow.
    fn write(&mut self, piece: &[u8]) -> Result<usize, Failed>
        requires { 0 < length piece.now }
        ensures some { WritesSome result piece.now }
        ensures written { WriteAppends (Some self.old.held) (Some self.new.held) result piece.now }
        ensures cause { HasCause (Some (2 ^ 64 - 1)) self.old.faults self.new.faults result }
        ensures failed { self.new.last_failed ≡ is_err result }

        // It fails exactly where the number of the call is in the list or it is full.
        ensures fails { IsErr result ↔ (FailsNext self.old.calls ⊎ IsFull self.old) }
        ensures rises { OnErr result (self.new.faults ≡ min (self.old.faults + 1) (2 ^ 64 - 1)) }
        ensures stays { OnOk result (self.new.faults ≡ self.old.faults) }

        ensures count { IfOk result (λ count.
            count ≡ min (min self.old.most (length piece.now)) (room_left self.old)) }
        ensures calls { self.new.calls ≡ after_call self.old.calls }
        ensures most { self.new.most ≡ self.old.most }
    {
        let is_to_fail = self.calls.next_fails();
        let room = ROOM - self.bytes.len();
        if is_to_fail || room == 0 {
            self.faults = self.faults.saturating_add(1);
            self.last_failed = true;
            return Err(Failed);
        }
        let count = self.most.min(piece.len()).min(room);
        match self.bytes.extend_from_slice(&piece[..count]) {
            Ok(()) => {
                self.last_failed = false;
                Ok(count)
            }
            Err(_) => unreachable!(),
        }
    }
}

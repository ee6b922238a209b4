// A store of files in memory.
ghost use Rattle.std.specs.Prelude.{◌≡◌, ℕ, List, [], ◌∷◌, ◌++◌, ◌+◌, ◌<◌, ◌↔◌, ◌⊎◌, min, length, is_ok, false, nat_eq, if◌then◌else◌, ◌||◌, Some, None, IsErr, IfOk, OnOk, OnErr};
ghost use Rattle.std.specs.Cmp.Lexicographic.{pointwise};
ghost use Rattle.std.specs.Io.{ReadsAtMost};
ghost use Rattle.std.specs.Io.KnownBytes.{ReadConsumes};
ghost use Rattle.io_edge.specs.Causes.{HasCause, is_end};
ghost use Rattle.io_edge.specs.InMemory.{FailsNext, after_call, new_plan, bytes_of, memory_state};
ghost use Rattle.io_edge.specs.Shelves.{Begins, HasPickCause};

use crate::calls::Calls;
use crate::file::{File, give_of, last_of};
use crate::shelf::Shelf;
use crate::source::Failed;
use std::alloc::{AllocError, Global};
use std::marker::Model;

/// A store of files in memory, some of whose calls are to fail.
#[derive(Drop)]
pub struct MemShelf {
    alloc: Global,
    files: Vec<File>,
    picked: Option<usize>,
    at: usize,
    most: usize,
    calls: Calls,
    faults: u64,
    end_is_seen: bool,
    read_past_end: bool,
}

impl Model for MemShelf {
    ghost use Rattle.std.specs.Prelude.{◌<◌, ◌≤◌, is_some};
    ghost use Rattle.io_edge.specs.InMemory.{MemoryShelf, IsPlace, left_of};

    ghost Value = { MemoryShelf };

    ghost view = { λ s. record {
      files = s.files.items;
      left = left_of s.picked s.at s.files.items;
      is_picked = is_some s.picked;
      most = s.most;
      calls = s.calls;
      faults = s.faults;
      end_is_seen = s.end_is_seen;
      read_past_end = s.read_past_end;
    } };

    ghost invariant = { λ s. IsPlace s.picked s.at s.files.items × (0 < s.most) × (s.faults ≤ s.calls.made) };
}

impl MemShelf {
    /// A store without files, of which none is picked. It has not failed, and no end is seen.
    ///
    /// Each read gives at most `most` bytes, which is at least 1. The calls of `pick` and `read`
    /// whose numbers, from 1 and counted together, are in `fails` fail. Refuses for want of memory alone.
    pub fn new(alloc: Global, most: usize, fails: &[u64]) -> Result<MemShelf, AllocError>
        requires { 0 < most }
        ensures files { IfOk result (λ shelf. shelf.files ≡ []) }
        ensures left { IfOk result (λ shelf. shelf.left ≡ []) }
        ensures picked { IfOk result (λ shelf. shelf.is_picked ≡ false) }
        ensures most { IfOk result (λ shelf. shelf.most ≡ most) }
        ensures calls { IfOk result (λ shelf. shelf.calls ≡ new_plan fails.now) }
        ensures faults { IfOk result (λ shelf. shelf.faults ≡ 0) }
        ensures end { IfOk result (λ shelf. shelf.end_is_seen ≡ false) }
        ensures past { IfOk result (λ shelf. shelf.read_past_end ≡ false) }
    {
        let calls = Calls::new(alloc, fails)?;
        Ok(MemShelf {
            alloc,
            files: Vec::new(alloc),
            picked: None,
            at: 0,
            most,
            calls,
            faults: 0,
            end_is_seen: false,
            read_past_end: false,
        })
    }

    /// Puts a file of these bytes in the place of the one of this name, or adds it.
    ///
    /// A picked file is read on as it was. Refuses for want of memory alone, and then leaves the store as it was.
    pub fn put(&mut self, name: &[u8], bytes: &[u8]) -> Result<(), AllocError>
        ensures replaced { OnOk result ((other : List ℕ) → bytes_of self.new.files other
            ≡ (if pointwise nat_eq name.now other then Some bytes.now else bytes_of self.old.files other)) }
        ensures files { OnOk result (self.new.files ≡ self.old.files ++ record { name = name.now; bytes = bytes.now } ∷ []) }
        ensures left { self.new.left ≡ self.old.left }
        ensures picked { self.new.is_picked ≡ self.old.is_picked }
        ensures most { self.new.most ≡ self.old.most }
        ensures calls { self.new.calls ≡ self.old.calls }
        ensures faults { self.new.faults ≡ self.old.faults }
        ensures end { self.new.end_is_seen ≡ self.old.end_is_seen }
        ensures past { self.new.read_past_end ≡ self.old.read_past_end }
        ensures unchanged { OnErr result (self.new ≡ self.old) }
    {
        let file = File::new(self.alloc, name, bytes)?;
        self.files.push(file)?;
        Ok(())
    }
}

impl Shelf for MemShelf {
    ghost state = { memory_state };

    ghost highest_count = { None };

    /// Picks the file that was put last under this name.
    fn pick(&mut self, name: &[u8]) -> Result<(), Failed>
        ensures begun { OnOk result (Begins (Some (bytes_of self.old.files)) name.now (Some self.new.left)) }
        ensures cause { HasPickCause None name.now (memory_state self.old) (memory_state self.new) result }
        ensures files { (memory_state self.new).files ≡ (memory_state self.old).files }
        ensures picked { self.new.is_picked ≡ is_ok result }
        ensures end { self.new.end_is_seen ≡ false }
        ensures past { self.new.read_past_end ≡ self.old.read_past_end }

        // It fails exactly where the number of the call is in the list, and counts that, or where there is no such file.
        ensures fails { IsErr result ↔ (FailsNext self.old.calls ⊎ (bytes_of self.old.files name.now ≡ None)) }
        ensures rises { FailsNext self.old.calls → self.new.faults ≡ self.old.faults + 1 }
        ensures stays { (FailsNext self.old.calls → ⊥) → self.new.faults ≡ self.old.faults }

        ensures none { OnErr result (self.new.left ≡ []) }
        ensures kept { self.new.files ≡ self.old.files }
        ensures calls { self.new.calls ≡ after_call self.old.calls }
        ensures most { self.new.most ≡ self.old.most }
    {
        self.end_is_seen = false;
        self.at = 0;
        self.picked = None;
        if self.calls.next_fails() {
            self.faults += 1;
            return Err(Failed);
        }
        let Some(i) = last_of(&self.files, name) else {
            return Err(Failed);
        };
        self.picked = Some(i);
        Ok(())
    }

    /// Gives as many bytes of the picked file as the buffer, `most` and what is left allow.
    fn read(&mut self, buf: &mut [u8]) -> Result<usize, Failed>
        requires { 0 < length buf.old }
        ensures within { ReadsAtMost result buf.new }
        ensures taken { ReadConsumes (Some self.old.left) (Some self.new.left) result buf.new }
        ensures cause { HasCause None self.old.faults self.new.faults result }
        ensures files { (memory_state self.new).files ≡ (memory_state self.old).files }
        ensures picked { self.new.is_picked ≡ self.old.is_picked }
        ensures unpicked { self.old.is_picked ≡ false → IfOk result (λ count. count ≡ 0) }
        ensures end { self.new.end_is_seen ≡ is_end result }
        ensures past { self.new.read_past_end ≡ (self.old.end_is_seen || self.old.read_past_end) }

        // It fails exactly where the number of the call is in the list, and counts that.
        ensures fails { IsErr result ↔ FailsNext self.old.calls }
        ensures rises { OnErr result (self.new.faults ≡ self.old.faults + 1) }
        ensures stays { OnOk result (self.new.faults ≡ self.old.faults) }

        ensures count { IfOk result (λ count.
            count ≡ min (min self.old.most (length buf.old)) (length self.old.left)) }
        ensures kept { self.new.files ≡ self.old.files }
        ensures calls { self.new.calls ≡ after_call self.old.calls }
        ensures most { self.new.most ≡ self.old.most }
    {
        self.read_past_end |= self.end_is_seen;
        if self.calls.next_fails() {
            self.faults += 1;
            self.end_is_seen = false;
            return Err(Failed);
        }
        let count = give_of(&self.files, self.picked, self.at, self.most, buf);
        self.at += count;
        self.end_is_seen = count == 0;
        Ok(count)
    }
}

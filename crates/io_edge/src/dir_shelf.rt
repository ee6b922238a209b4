// A store over the files of the system.
ghost use Rattle.std.specs.Prelude.{◌≡◌, ◌+◌, ◌-◌, ◌^◌, ◌<◌, min, length, is_ok, false, ◌||◌, Some, None, IfOk, OnOk, OnErr};
ghost use Rattle.std.specs.Io.{ReadsAtMost};
ghost use Rattle.std.specs.Io.KnownBytes.{ReadConsumes};
ghost use Rattle.io_edge.specs.Adapters.{directory_state};
ghost use Rattle.io_edge.specs.Causes.{HasCause, is_end};
ghost use Rattle.io_edge.specs.Shelves.{Begins, HasPickCause};

use crate::shelf::Shelf;
use crate::source::Failed;
use std::fs::File;
use std::io::Read;
use std::marker::Model;
use std::rt::Files;

/// The files of the system, by their paths from the working directory. It tells none of them, and counts each error,
/// that of a missing file and of a name that isn't UTF-8 among them.
#[derive(Drop)]
pub struct DirShelf<'a, R: Files> {
    rt: &'a R,
    file: Option<R::File>,
    faults: u64,
    end_is_seen: bool,
    read_past_end: bool,
}

impl<'a, R: Files> Model for DirShelf<'a, R> {
    ghost use Rattle.std.specs.Prelude.{is_some};
    ghost use Rattle.io_edge.specs.Adapters.{DirectoryShelf};

    ghost Value = { DirectoryShelf };

    ghost view = { λ s. record {
      is_picked = is_some s.file;
      faults = s.faults;
      end_is_seen = s.end_is_seen;
      read_past_end = s.read_past_end;
    } };
}

impl<'a, R: Files> DirShelf<'a, R> {
    /// A store that has not failed, with no file picked and no end seen. It takes no memory.
    pub fn new(rt: &'a R) -> DirShelf<'a, R>
        ensures picked { result.is_picked ≡ false }
        ensures faults { result.faults ≡ 0 }
        ensures end { result.end_is_seen ≡ false }
        ensures past { result.read_past_end ≡ false }
    {
        DirShelf {
            rt,
            file: None,
            faults: 0,
            end_is_seen: false,
            read_past_end: false,
        }
    }

    /// The file of this name, or the error of opening it.
    fn opened(&self, name: &[u8]) -> Result<R::File, Failed> {
        let Ok(path) = str::from_utf8(name) else {
            return Err(Failed);
        };
        let Ok(file) = File::open(self.rt, path) else {
            return Err(Failed);
        };
        Ok(file)
    }
}

impl<'a, R: Files> Shelf for DirShelf<'a, R> {
    ghost state = { directory_state };

    ghost highest_count = { Some (2 ^ 64 - 1) };

    /// Opens the file of this path.
    fn pick(&mut self, name: &[u8]) -> Result<(), Failed>
        ensures begun { OnOk result (Begins None name.now None) }
        ensures cause { HasPickCause (Some (2 ^ 64 - 1)) name.now (directory_state self.old) (directory_state self.new) result }
        ensures files { (directory_state self.new).files ≡ (directory_state self.old).files }
        ensures picked { self.new.is_picked ≡ is_ok result }
        ensures end { self.new.end_is_seen ≡ false }
        ensures past { self.new.read_past_end ≡ self.old.read_past_end }
        ensures rises { OnErr result (self.new.faults ≡ min (self.old.faults + 1) (2 ^ 64 - 1)) }
        ensures stays { OnOk result (self.new.faults ≡ self.old.faults) }
    {
        self.end_is_seen = false;
        match self.opened(name) {
            Ok(file) => {
                self.file = Some(file);
                Ok(())
            }
            Err(failed) => {
                self.file = None;
                self.faults = self.faults.saturating_add(1);
                Err(failed)
            }
        }
    }

    /// Reads once from the picked file.
    fn read(&mut self, buf: &mut [u8]) -> Result<usize, Failed>
        requires { 0 < length buf.old }
        ensures within { ReadsAtMost result buf.new }
        ensures taken { ReadConsumes None None result buf.new }
        ensures cause { HasCause (Some (2 ^ 64 - 1)) self.old.faults self.new.faults result }
        ensures files { (directory_state self.new).files ≡ (directory_state self.old).files }
        ensures picked { self.new.is_picked ≡ self.old.is_picked }
        ensures unpicked { self.old.is_picked ≡ false → IfOk result (λ count. count ≡ 0) }
        ensures end { self.new.end_is_seen ≡ is_end result }
        ensures past { self.new.read_past_end ≡ (self.old.end_is_seen || self.old.read_past_end) }
        ensures rises { OnErr result (self.new.faults ≡ min (self.old.faults + 1) (2 ^ 64 - 1)) }
        ensures stays { OnOk result (self.new.faults ≡ self.old.faults) }
    {
        self.read_past_end |= self.end_is_seen;
        let read = match &mut self.file {
            Some(file) => file.read(buf),
            None => Ok(0),
        };
        match read {
            Ok(count) => {
                self.end_is_seen = count == 0;
                Ok(count)
            }
            Err(_) => {
                self.faults = self.faults.saturating_add(1);
                self.end_is_seen = false;
                Err(Failed)
            }
        }
    }
}
